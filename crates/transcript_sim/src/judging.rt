//! One exchange of a transcript: a question, whose verdict is sent, and the line that was shown to it.
ghost use Rattle.std.specs.Prelude.{◌≡◌, ◌++◌, [], true, false, OnOk, OnErr, IfOk, IfErr};
ghost use Rattle.set_index.specs.Indexed.{public_setting};
ghost use Rattle.line_wire.specs.Calls.{Cuts};
ghost use Rattle.line_wire.specs.Talks.{SendsAll, SendsPart};
ghost use Rattle.question_plan.specs.Planned.{IsUnplanned};
ghost use Rattle.transcript_sim.specs.Steps.{AsksNext, CanBeTaken, CanFollow, IsUnjudged, SendsFor, ShowsNext, goes_on, records_shown};
ghost use Rattle.transcript_sim.specs.Verdicts.{line_of};

use crate::expecting::Expected;
use crate::questions::next_shown;
use crate::shown::Shown;
use crate::simulating::SimulationRefusal;
use audit_core::Core;
use audit_types::NoMemory;
use bench_core::{Bench, End, Failed, Source, Stop};
use question_plan::{Due, Planner};
use set_index::Index;
use std::alloc::Global;

// Sends the line of a verdict, in one call.
fn send_verdict<B: Bench>(bench: &mut B, expected: &Expected) -> Result<(), Failed>
    ensures sends { OnOk result (SendsAll B.Bench bench.old bench.new (line_of expected.now)) }
    ensures fails { OnErr result (SendsPart B.Bench bench.old bench.new (line_of expected.now)) }
{
    bench.send(expected.line())
}

// Takes the answer of a line that agrees, if it tells one.
fn take_answer(core: &mut Core, shown: &Option<Shown>) -> Result<(), NoMemory>
    requires { CanFollow core.old.setting core.old.history shown.now }
    ensures takes { OnOk result (core.new.history ≡ core.old.history ++ records_shown shown.now) }
    ensures setting { core.new.setting ≡ core.old.setting }
{
    match shown {
        Some(Shown::Agrees(Some(answered))) => core.take(answered),
        _ => Ok(()),
    }
}

/// What is kept from line to line: the lines that are to come, and the answers that were given and shown.
#[derive(Drop)]
pub(crate) struct Simulation {
    pub(crate) lines: Planner,
    pub(crate) core: Core,
}

impl Simulation {
    /// Nothing was read, and the answers so far are those of the core.
    pub(crate) fn new(alloc: Global, core: Core) -> Result<Simulation, NoMemory>
        ensures fresh { IfOk result (λ simulation. (simulation.lines.taken ≡ 0) × (simulation.lines.pending ≡ []) × (simulation.lines.ended ≡ false)) }
        ensures core { IfOk result (λ simulation. simulation.core ≡ core) }
    {
        Ok(Simulation {
            lines: Planner::new(alloc)?,
            core,
        })
    }

    /// What the next line calls for, which is a question, once its verdict was sent; `None` if no line is left.
    pub(crate) fn judge_question<P: Source, B: Bench>(
        &mut self,
        alloc: Global,
        index: &Index,
        source: &mut P,
        bench: &mut B,
    ) -> Result<Option<Expected>, Stop>
        requires same { P.told → self.old.lines.ended ≡ true → P.left source.old ≡ [] }
        requires setting { self.old.core.setting ≡ public_setting index.now }
        ensures asks { IfOk result (AsksNext P.Source self.old.lines self.new.lines source.old source.new index.now self.old.core.history) }
        ensures sends { IfOk result (SendsFor B.Bench bench.old bench.new) }
        ensures unjudged { IfErr result (IsUnjudged P.Source B.Bench self.old.lines self.new.lines source.old source.new bench.old bench.new index.now self.old.core.history) }
        ensures same { self.new.core ≡ self.old.core }
        ensures cuts { Cuts P.Source self.old.lines self.new.lines source.old source.new }
    {
        let Some(expected) = self.next_question(alloc, index, source)? else {
            return Ok(None);
        };
        send_verdict(bench, &expected)?;
        Ok(Some(expected))
    }

    /// What the line comes to that was shown to a question which calls for this. The answer of one that agrees is taken.
    pub(crate) fn take_shown<P: Source>(
        &mut self,
        source: &mut P,
        expected: &Expected,
    ) -> Result<Option<Shown>, Stop>
        requires same { P.told → self.old.lines.ended ≡ true → P.left source.old ≡ [] }
        requires can { CanBeTaken self.old.core.setting self.old.core.history expected.now }
        ensures shows { IfOk result (ShowsNext P.Source self.old.lines self.new.lines source.old source.new expected.now) }
        ensures takes { IfOk result (λ shown. self.new.core.history ≡ self.old.core.history ++ records_shown shown) }
        ensures setting { self.new.core.setting ≡ self.old.core.setting }
        ensures short { IfErr result (IsUnplanned P.Source self.old.lines self.new.lines source.old source.new) }
        ensures cuts { Cuts P.Source self.old.lines self.new.lines source.old source.new }
    {
        let shown = next_shown(&mut self.lines, source, expected)?;
        take_answer(&mut self.core, &shown)?;
        Ok(shown)
    }
}

/// Whether the transcript goes on after what was shown to the last question, at this line. One that disagrees is reported
/// with the question's verdict.
pub(crate) fn goes_on(
    shown: Option<Shown>,
    line: u64,
    due: Due,
) -> Result<bool, End<SimulationRefusal>>
    ensures { result ≡ goes_on shown line due }
{
    match shown {
        Some(Shown::Agrees(_)) => Ok(true),
        Some(Shown::Disagrees) => Err(End::Refused(SimulationRefusal::Disagrees { line, due })),
        None => Ok(false),
    }
}
