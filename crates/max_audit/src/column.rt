//! A column of maxima and its audit.
ghost use Rattle.std.specs.Prelude.{◌≡◌, ◌≢◌, [], IfOk};
ghost use Rattle.std.specs.List.{All};
ghost use Rattle.audit_types.specs.Column.{known_max, guarding, with_bounds, IsPossible, IsWellFormed};
ghost use Rattle.audit_types.specs.Extremes.{IsConsistent, IsLeastLone};
ghost use Rattle.audit_types.specs.Judgement.{IsJudgement, IsDecision};
ghost use Rattle.audit_types.specs.declared.shapes.Kind.TheVariants.{Max};
ghost use Rattle.audit_types.specs.declared.records.Verdict.TheVariants.{DeniedWide};
ghost use Rattle.max_audit.specs.Laws.{IsLeastFixed};
ghost use Rattle.max_audit.specs.Candidates.{AreCandidates, IsNearRange};

use crate::candidates::candidates_of;
use audit_types::{ColumnAudit, CountedRows, NoMemory, RowSet, Verdict};
use max_bounds::Bounds;
use std::alloc::Global;
use std::marker::Model;

/// The answered maxima of a column, and the people behind its rows.
#[derive(Drop)]
pub struct MaxColumn {
    people: CountedRows,
    // What is known says these two. No verdict on a maximum goes by them.
    width: u64,
    reach: u16,
    bounds: Bounds,
    alloc: Global,
}

impl Model for MaxColumn {
    ghost use Rattle.std.specs.Prelude.{[]};
    ghost use Rattle.audit_types.specs.Column.{Known, known_max, guarding, with_bounds};
    ghost use Rattle.max_audit.specs.Columns.{IsMaxColumn};

    ghost Value = { Known };

    ghost view = { λ c. with_bounds (guarding (known_max c.people.n c.bounds.answers) c.people.people []) c.width c.reach };

    ghost invariant = { λ c. IsMaxColumn c.people c.bounds };
}

impl MaxColumn {
    /// No answers yet, over the rows of these people, in a table that is guarded with this width and this reach. If memory runs out, the people
    /// are dropped.
    pub fn new(
        alloc: Global,
        people: CountedRows,
        width: u64,
        reach: u16,
    ) -> Result<MaxColumn, NoMemory>
        ensures { IfOk result (λ column. column ≡ with_bounds (guarding (known_max people.n []) people.people []) width reach) }
    {
        let bounds = Bounds::new(alloc, people.n())?;
        Ok(MaxColumn {
            people,
            width,
            reach,
            bounds,
            alloc,
        })
    }

    /// The answers that stand for all whole numbers: each earlier one, the number above it, and the number below all; 0
    /// if nothing was answered.
    pub fn candidates(&self) -> Result<Vec<i128>, NoMemory>
        ensures exact { IfOk result (λ list. AreCandidates self.now.answers list.items) }
        ensures near { IfOk result (λ list. All IsNearRange list.items) }
    {
        candidates_of(self.alloc, self.bounds.pairs())
    }

    /// The least row whose number the answers fix. It takes no memory.
    pub fn fixed(&self) -> Option<u16>
        ensures lone { IsLeastLone self.now.answers result }
        ensures fixed { IsConsistent self.now.answers → IsLeastFixed self.now result }
    {
        self.bounds.lone_extreme()
    }

    /// The answers, with what they say of each row.
    pub fn bounds(&self) -> &Bounds
        ensures exact { result.now ≡ record { n = self.now.n; answers = self.now.answers } }

        // What is true of every column of maxima.
        ensures maxima { self.now.kind ≡ Max }
        ensures no_groups { self.now.groups ≡ [] }
        ensures well_formed { IsWellFormed self.now }
    {
        &self.bounds
    }
}

impl ColumnAudit for MaxColumn {
    ghost known = { λ c. c };

    fn probe(&self, rows: &RowSet) -> Result<Verdict, NoMemory>
        requires same_n { rows.now.n ≡ self.now.n }
        requires some { rows.now.list ≢ [] }
        ensures judged { IfOk result (λ verdict. IsJudgement self.now rows.now.list verdict) }
        ensures decided { IfOk result (λ verdict. IsPossible self.now → IsDecision self.now rows.now.list verdict) }
        ensures never_wide { IfOk result (λ verdict. verdict ≢ DeniedWide) }
    {
        // A set says of itself that its rows are rows of the table.
        let _ = rows.n();
        if self.bounds.leaves_few(rows, &self.people) {
            Ok(Verdict::DeniedUnsafe)
        } else {
            Ok(Verdict::Released)
        }
    }

    fn accept(&mut self, rows: &RowSet, answer: i64) -> Result<(), NoMemory> {
        let _ = rows.n();
        self.bounds.add(rows, answer)
    }
}
