//! Marks of sets of rows, which tell of most sets that they have rows outside a question's set without a look at these rows.
//!
//! There are three kinds. One has a bit for each of some rows that are spread over the table: the set has this row. The two others have
//! a bit for each of 64 groups of rows: the set has some row of this group, or all of them. If a question's set lacks the row, all rows of
//! the group, or some row of it, then the set has a row that the question's lacks.
ghost use Rattle.std.specs.Prelude.{◌≡◌, ◌<◌, ◌≤◌, ℕ, [], OnOk, length, set, get_or, bit_and};
ghost use Rattle.std.specs.List.{insert};
ghost use Rattle.std.specs.Int.{bit_not, w64};
ghost use Rattle.audit_types.specs.Rows.{complement};
ghost use Rattle.max_bounds.specs.Groups.{IsSample, IsInGroup, AreGroups};
ghost use Rattle.max_bounds.specs.Marks.{IsMark, AreLacking, marks_of, lost_by, HaveRoom, AreMarked};
ghost use Rattle.max_bounds.specs.declared.marks.Marking.{Marking};

use crate::groups::{groups_of, samples_of};
use audit_types::{NoMemory, RowSet};
use std::alloc::Global;

// Over fewer sets a look at what the question's set lacks costs more than it spares.
const MANY: usize = 128;

// A set of fewer rows than this part of the table is told by the groups that it has some row of, and one that lacks fewer by those that it has
// whole.
const PART: u16 = 8;

/// The kinds of marks: of which sampled rows a set has, of which groups it has some row, and which groups it has whole.
#[derive(Clone, Copy)]
pub(crate) enum Marking {
    Samples,
    Touched,
    Filled,
}

/// What a question's set lacks of that which marks of one kind tell of.
#[derive(Clone, Copy)]
pub(crate) struct Lacking {
    pub marking: Marking,
    pub bits: u64,
}

/// What a question's set lacks, to be compared with the marks of so many sets. Marks of the kind that tells most are chosen by how many
/// rows the set has.
pub(crate) fn lacking_of(rows: &RowSet, others: &RowSet, sets: usize) -> Lacking
    requires same_n { others.now.n ≡ rows.now.n }
    requires others { others.now.list ≡ complement others.now.n rows.now.list }
    ensures { AreLacking result.marking rows.now.n rows.now.list result.bits }
{
    // A set says of its n that no row is past it.
    let part = others.n() / PART;
    if sets < MANY {
        return Lacking {
            marking: Marking::Samples,
            bits: 0,
        };
    }
    if rows.len() < part {
        return Lacking {
            marking: Marking::Touched,
            bits: !groups_of(rows),
        };
    }
    if others.len() < part {
        return Lacking {
            marking: Marking::Filled,
            bits: groups_of(others),
        };
    }
    Lacking {
        marking: Marking::Samples,
        bits: samples_of(others),
    }
}

/// The samples and the groups of rows that sets lose.
#[derive(Clone, Copy)]
pub(crate) struct Lost {
    pub samples: u64,
    pub groups: u64,
}

/// Those of these rows.
pub(crate) fn lost_of(rows: &RowSet) -> Lost
    ensures samples { AreGroups (IsSample rows.now.n) rows.now.list result.samples }
    ensures groups { AreGroups IsInGroup rows.now.list result.groups }
{
    Lost {
        samples: samples_of(rows),
        groups: groups_of(rows),
    }
}

/// The marks of many sets: of each kind a list.
#[derive(Drop)]
pub(crate) struct Marks {
    pub samples: Vec<u64>,
    pub touched: Vec<u64>,
    pub filled: Vec<u64>,
}

impl Marks {
    /// Those of no set.
    pub(crate) fn new(alloc: Global) -> Marks
        ensures { AreMarked [] result }
    {
        Marks {
            samples: Vec::new(alloc),
            touched: Vec::new(alloc),
            filled: Vec::new(alloc),
        }
    }

    /// Makes room for one set more.
    pub(crate) fn reserve(&mut self) -> Result<(), NoMemory>
        ensures same { (marking : Marking) → marks_of marking self.new ≡ marks_of marking self.old }
        ensures room { OnOk result (HaveRoom self.new) }
    {
        self.samples.reserve(1)?;
        self.touched.reserve(1)?;
        self.filled.reserve(1)?;
        Ok(())
    }

    /// The marks of one kind.
    pub(crate) fn of(&self, marking: Marking) -> &[u64]
        ensures { result.now ≡ marks_of marking self.now }
    {
        match marking {
            Marking::Samples => &self.samples,
            Marking::Touched => &self.touched,
            Marking::Filled => &self.filled,
        }
    }

    /// Puts the marks of one set more at a place.
    pub(crate) fn insert(&mut self, place: usize, rows: &RowSet)
        requires room { HaveRoom self.old }
        requires place { (marking : Marking) → place ≤ length (marks_of marking self.old) }
        ensures { (marking : Marking) → (mark : ℕ) × IsMark marking rows.now mark × (marks_of marking self.new ≡ insert (marks_of marking self.old) place mark) }
    {
        let mut others = *rows;
        others.flip();
        // There is room for each.
        self.samples.insert(place, samples_of(rows)).unwrap();
        self.touched.insert(place, groups_of(rows)).unwrap();
        self.filled.insert(place, !groups_of(&others)).unwrap();
    }

    /// Takes the samples and groups of lost rows from the marks of a set.
    pub(crate) fn lower(&mut self, k: usize, lost: Lost)
        requires { (marking : Marking) → k < length (marks_of marking self.old) }
        ensures room { HaveRoom self.old → HaveRoom self.new }
        ensures lowered { (marking : Marking) → marks_of marking self.new ≡ set (marks_of marking self.old) k (bit_and (get_or (marks_of marking self.old) k 0) (bit_not w64 (lost_by marking lost))) }
    {
        self.samples[k] &= !lost.samples;
        self.touched[k] &= !lost.groups;
        self.filled[k] &= !lost.groups;
    }
}
