//! Planning the lines of a source, one after another.
ghost use Rattle.std.specs.Prelude.{◌≡◌, [], true, false, IfOk, IfErr};
ghost use Rattle.line_wire.specs.Calls.{Cuts, GivesNext, IsStopped};
ghost use Rattle.question_plan.specs.Planned.{IsUnplanned, PlansNext};

use crate::planning::{Plan, plan_line};
use audit_types::NoMemory;
use bench_core::{Source, Stop};
use json::Scratch;
use line_wire::laws::lines_in_turn;
use line_wire::{Lines, Next, Reply};
use set_index::Index;
use std::alloc::Global;
use std::marker::Model;

// Gives the next line, whose text the cutter shows.
fn next_line<P: Source>(lines: &mut Lines, source: &mut P) -> Result<Next, Stop>
    requires same { P.told → lines.old.ended ≡ true → P.left source.old ≡ [] }
    ensures gives { IfOk result (GivesNext P.Source lines.old lines.new source.old source.new) }
    ensures stopped { IfErr result (IsStopped P.Source lines.old lines.new source.old source.new) }
    ensures cuts { Cuts P.Source lines.old lines.new source.old source.new }
{
    lines_in_turn();
    lines.next(source)
}

/// Plans the lines of one source, one after another, with no store and no bench. Hand in the same source at every call.
/// Contracts see it as the cutter of its lines.
#[derive(Drop)]
pub struct Planner {
    lines: Lines,
    scratch: Scratch,
}

impl Model for Planner {
    ghost use Rattle.line_wire.specs.Cutter.{Cutter};

    ghost Value = { Cutter };

    ghost view = { λ p. p.lines };
}

impl Planner {
    /// No line was read.
    pub fn new(alloc: Global) -> Result<Planner, NoMemory>
        ensures { IfOk result (λ planner. (planner.taken ≡ 0) × (planner.pending ≡ []) × (planner.ended ≡ false)) }
    {
        Ok(Planner {
            lines: Lines::new(alloc)?,
            scratch: Scratch::new(alloc),
        })
    }

    /// What the next counted line comes to; `None` if none is left. A line that was read when memory ran out is
    /// passed.
    pub fn next<P: Source>(
        &mut self,
        alloc: Global,
        index: &Index,
        source: &mut P,
    ) -> Result<Option<Plan>, Stop>
        requires same { P.told → self.old.ended ≡ true → P.left source.old ≡ [] }
        ensures plans { IfOk result (PlansNext P.Source self.old self.new source.old source.new index.now) }
        ensures unplanned { IfErr result (IsUnplanned P.Source self.old self.new source.old source.new) }
        ensures cuts { Cuts P.Source self.old self.new source.old source.new }
    {
        match next_line(&mut self.lines, source)? {
            Next::Line => {
                let line = self.lines.text();
                let plan = plan_line(alloc, index, line, &mut self.scratch)?;
                Ok(Some(plan))
            }
            Next::Long => Ok(Some(Plan::Ready(Reply::Long))),
            Next::End => Ok(None),
        }
    }

    /// The next counted line, unplanned. `text` shows it.
    pub fn next_line<P: Source>(&mut self, source: &mut P) -> Result<Next, Stop>
        requires same { P.told → self.old.ended ≡ true → P.left source.old ≡ [] }
        ensures gives { IfOk result (GivesNext P.Source self.old self.new source.old source.new) }
        ensures stopped { IfErr result (IsStopped P.Source self.old self.new source.old source.new) }
        ensures cuts { Cuts P.Source self.old self.new source.old source.new }
    {
        next_line(&mut self.lines, source)
    }

    /// The line that was read last, without its carriage return. It is empty if that was a long one, or there was none.
    pub fn text(&self) -> &[u8]
        ensures { result.now ≡ self.now.text }
    {
        self.lines.text()
    }
}
