//! Gathering the lines of a group.
ghost use Rattle.std.specs.Prelude.{◌≡◌, ◌≢◌, ◌<◌, ◌≤◌, ◌+◌, ◌++◌, ◌||◌, [], ◌∷◌, not, true, false, length, All, IfOk, IfErr, OnOk, Ok};
ghost use Rattle.std.specs.Vec.{vec_capacity, vec_len};
ghost use Rattle.set_index.specs.Indexed.{public_shape};
ghost use Rattle.line_wire.specs.Lines.{most_input};
ghost use Rattle.line_wire.specs.Calls.{Cuts};
ghost use Rattle.question_plan.specs.Plans.{CanBeServed};
ghost use Rattle.audit_session.specs.Groups.{Gathers, IsUngathered, question_in, questions_of};

use audit_types::{Asked, NoMemory};
use bench_core::{Source, Stop};
use line_wire::Reply;
use question_plan::{Plan, Planner};
use set_index::Index;
use std::alloc::Global;

/// What the lines of a group come to, their questions, and room for their replies.
#[derive(Drop)]
pub(crate) struct Group {
    pub(crate) plans: Vec<Plan>,
    pub(crate) asked: Vec<Asked>,
    pub(crate) replies: Vec<Reply>,
}

// Adds the question of a plan, if it asks one.
fn add_question(list: &mut Vec<Asked>, plan: &Plan) -> Result<(), NoMemory>
    ensures { OnOk result (list.new.items ≡ list.old.items ++ question_in plan.now) }
{
    match plan {
        Plan::Ready(_) => Ok(()),
        Plan::Ask { asked, .. } => {
            list.push(*asked)?;
            Ok(())
        }
    }
}

impl Group {
    /// Room for so many lines.
    pub(crate) fn new(alloc: Global, batch: u8) -> Result<Group, NoMemory>
        ensures { IfOk result (λ group. vec_capacity group.replies ≡ batch) }
    {
        Ok(Group {
            plans: Vec::with_capacity(alloc, batch as usize)?,
            asked: Vec::with_capacity(alloc, batch as usize)?,
            replies: Vec::with_capacity(alloc, batch as usize)?,
        })
    }

    // Forgets the lines of the last group.
    fn clear(&mut self)
        ensures plans { self.new.plans.items ≡ [] }
        ensures asked { self.new.asked.items ≡ [] }
        ensures room { vec_capacity self.new.replies ≡ vec_capacity self.old.replies }
    {
        self.plans.clear();
        self.asked.clear();
        self.replies.clear();
    }

    // Whether there are fewer lines than a whole group has.
    fn has_room(&self, batch: u8) -> bool
        ensures room { result ≡ true → vec_len self.now.plans < batch }
        ensures whole { result ≡ false → batch ≤ vec_len self.now.plans }
    {
        self.plans.len() < batch as usize
    }

    fn add(&mut self, plan: Plan) -> Result<(), NoMemory>
        ensures plans { OnOk result (self.new.plans.items ≡ self.old.plans.items ++ plan ∷ []) }
        ensures asked { OnOk result (self.new.asked.items ≡ self.old.asked.items ++ question_in plan) }
        ensures room { vec_capacity self.new.replies ≡ vec_capacity self.old.replies }
    {
        add_question(&mut self.asked, &plan)?;
        self.plans.push(plan)?;
        Ok(())
    }
}

/// Gathers the next group of lines, and answers whether the input goes on after them. Nothing of the last group is left.
pub(crate) fn gather<P: Source>(
    alloc: Global,
    planner: &mut Planner,
    index: &Index,
    source: &mut P,
    batch: u8,
    group: &mut Group,
) -> Result<bool, Stop>
    requires same { P.told → planner.old.ended ≡ true → P.left source.old ≡ [] }
    requires within { planner.old.taken ≤ most_input + length planner.old.pending }
    requires some { 0 < batch }

    // The lines, what they come to, and how many there are.
    ensures gathers { IfOk result (λ more. Gathers P.told index.now (planner.old.pending ++ P.left source.old) (planner.new.pending ++ P.left source.new) (not more || planner.new.ended) group.new.plans.items) }
    ensures questions { OnOk result (group.new.asked.items ≡ questions_of group.new.plans.items) }
    ensures served { OnOk result (All (CanBeServed (public_shape index.now)) group.new.plans.items) }
    ensures most { OnOk result (length group.new.plans.items ≤ batch) }
    ensures whole { result ≡ Ok true → length group.new.plans.items ≡ batch }
    ensures last { P.told → result ≡ Ok false → planner.new.pending ++ P.left source.new ≡ [] }
    ensures takes { result ≡ Ok true → planner.old.taken + length planner.new.pending < planner.new.taken + length planner.old.pending }
    ensures room { vec_capacity group.new.replies ≡ vec_capacity group.old.replies }
    ensures steady { OnOk result (P.faults source.new ≡ P.faults source.old) }

    // If it is cut short, by a failed read or at the limit, there are fewer lines than a group has.
    ensures ungathered { IfErr result (IsUngathered P.Source batch planner.old planner.new source.old source.new) }
    ensures cuts { Cuts P.Source planner.old planner.new source.old source.new }
{
    group.clear();
    while group.has_room(batch) {
        match planner.next(alloc, index, source)? {
            Some(plan) => group.add(plan)?,
            None => return Ok(false),
        }
    }
    Ok(true)
}
