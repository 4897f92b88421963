//! Reading the lines of a transcript: a question, and the line that was shown to it.
ghost use Rattle.std.specs.Prelude.{◌≡◌, [], true, IfOk, IfErr};
ghost use Rattle.set_index.specs.Indexed.{public_setting};
ghost use Rattle.line_wire.specs.Calls.{Cuts};
ghost use Rattle.question_plan.specs.Planned.{IsUnplanned};
ghost use Rattle.transcript_sim.specs.Steps.{AsksNext, ShowsNext};

use crate::expecting::{Expected, expected_of};
use crate::judging::Simulation;
use crate::shown::Shown;
use bench_core::{Source, Stop};
use line_wire::Next;
use question_plan::Planner;
use set_index::Index;
use std::alloc::Global;

impl Simulation {
    /// What the next line calls for, which is a question; `None` if no line is left.
    pub(crate) fn next_question<P: Source>(
        &mut self,
        alloc: Global,
        index: &Index,
        source: &mut P,
    ) -> Result<Option<Expected>, Stop>
        requires same { P.told → self.old.lines.ended ≡ true → P.left source.old ≡ [] }
        requires setting { self.old.core.setting ≡ public_setting index.now }
        ensures asks { IfOk result (AsksNext P.Source self.old.lines self.new.lines source.old source.new index.now self.old.core.history) }
        ensures same { self.new.core ≡ self.old.core }
        ensures short { IfErr result (IsUnplanned P.Source self.old.lines self.new.lines source.old source.new) }
        ensures cuts { Cuts P.Source self.old.lines self.new.lines source.old source.new }
    {
        let Some(plan) = self.lines.next(alloc, index, source)? else {
            return Ok(None);
        };
        Ok(Some(expected_of(&mut self.core, plan)?))
    }
}

/// What the next line comes to, which was shown to a question that calls for this; `None` if no line is left.
pub(crate) fn next_shown<P: Source>(
    lines: &mut Planner,
    source: &mut P,
    expected: &Expected,
) -> Result<Option<Shown>, Stop>
    requires same { P.told → lines.old.ended ≡ true → P.left source.old ≡ [] }
    ensures shows { IfOk result (ShowsNext P.Source lines.old lines.new source.old source.new expected.now) }
    ensures short { IfErr result (IsUnplanned P.Source lines.old lines.new source.old source.new) }
    ensures cuts { Cuts P.Source lines.old lines.new source.old source.new }
{
    match lines.next_line(source)? {
        Next::Line => Ok(Some(expected.shown(lines.text()))),
        Next::Long => Ok(Some(Shown::Disagrees)),
        Next::End => Ok(None),
    }
}
