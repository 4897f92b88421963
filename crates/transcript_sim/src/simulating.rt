//! Reading a transcript, and sending its verdicts.
ghost use Rattle.std.specs.Prelude.{◌≡◌, [], false};
ghost use Rattle.bench_core.specs.Ends.{refused_as};
ghost use Rattle.set_index.specs.Indexed.{public_setting};
ghost use Rattle.transcript_sim.specs.Ends.{Judges, Simulates};

use crate::beginning::begin;
use crate::judging::{Simulation, goes_on};
use crate::laws::one_verdict;
use answer_journal::JournalRefusal;
use bench_core::{Bench, End, Source};
use journal_form::laws::{no_break_in_a_journal, one_reading};
use question_plan::Due;
use set_index::Index;
use std::alloc::Global;

/// Why a transcript isn't simulated to its end.
#[derive(Clone, Copy, PartialEq, Eq)]
pub enum SimulationRefusal {
    /// It doesn't begin with the history of the journal. That is never for `NotMade` or `Untrue`: without a journal it begins with none, and
    /// no answer can be tested.
    Journal(JournalRefusal),
    /// The line of this number, from 1, is the first reply that doesn't agree, and its question has this verdict. Lines that
    /// are passed over have no number.
    Disagrees { line: u64, due: Due },
}

// The end of a simulation that ends as its beginning did.
fn unbegun(end: End<JournalRefusal>) -> End<SimulationRefusal>
    ensures { result ≡ refused_as SimulationRefusal.Journal end }
{
    match end {
        End::Stopped(stop) => End::Stopped(stop),
        End::Refused(refusal) => End::Refused(SimulationRefusal::Journal(refusal)),
    }
}

// Judges the exchanges that are still to come. A reply is looked at once the verdict on its question was sent.
fn judge<P: Source, B: Bench>(
    alloc: Global,
    simulation: &mut Simulation,
    index: &Index,
    source: &mut P,
    bench: &mut B,
) -> Result<(), End<SimulationRefusal>>
    requires fresh { (simulation.old.lines.taken ≡ 0) × (simulation.old.lines.pending ≡ []) × (simulation.old.lines.ended ≡ false) }
    requires setting { simulation.old.core.setting ≡ public_setting index.now }
    ensures { Judges P.Source B.Bench index.now simulation.old.core.history source.old source.new bench.old bench.new result }
{
    one_verdict();
    let mut line = 0;
    while let Some(expected) = simulation.judge_question(alloc, index, source, bench)? {
        line += 2;
        let shown = simulation.take_shown(source, &expected)?;
        if !goes_on(shown, line, expected.due())? {
            return Ok(());
        }
    }
    Ok(())
}

/// Sends the verdict on each question of a transcript, by one call before its reply is looked at, and takes an answer only from
/// a reply that agrees. No verdict depends on its own reply. The transcript begins with the history of the bench's journal, if one is
/// made there. No secret is read, and nothing is written.
pub fn simulate<P: Source, B: Bench>(
    alloc: Global,
    index: &Index,
    source: &mut P,
    bench: &mut B,
) -> Result<(), End<SimulationRefusal>>
    ensures { Simulates P.Source B.Bench index.now source.old source.new bench.old bench.new result }
{
    one_reading();
    no_break_in_a_journal();
    // A public part says of itself that it has 1 to `MOST_ROWS` rows.
    let rows = index.public().rows();
    let core = match begin(alloc, index.schema().shape(rows), index.protected(), bench) {
        Ok(core) => core,
        Err(end) => return Err(unbegun(end)),
    };
    let mut simulation = Simulation::new(alloc, core)?;
    judge(alloc, &mut simulation, index, source, bench)
}
