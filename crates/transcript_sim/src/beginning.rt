//! The history that a transcript begins with: that of a journal beside the public files, if one is made there.
ghost use Rattle.std.specs.Prelude.{◌≡◌, ◌≤◌, ◌+◌, length, All, IfOk, IfErr, OnOk, IsErrOf};
ghost use Rattle.audit_types.specs.Limits.{most_records};
ghost use Rattle.audit_types.specs.Shapes.{IsShape};
ghost use Rattle.audit_types.specs.History.{FitsShape, AreProtected, setting_of};
ghost use Rattle.audit_core.specs.Released.{WereReleased};
ghost use Rattle.bench_core.specs.Calls.{OnlyReads, TellsFault};
ghost use Rattle.bench_core.specs.Ends.{EndsBy};
ghost use Rattle.bench_core.specs.Stops.{IsOfBench, IsOfMemory};
ghost use Rattle.bench_core.specs.declared.stops.End.{End};
ghost use Rattle.bench_core.specs.declared.stops.Stop.{Stop};
ghost use Rattle.transcript_sim.specs.Beginning.{BeginsWith, HistoryCause, IsOfBeginning, UnbegunCause};

use answer_journal::{Journal, JournalRefusal};
use audit_core::{Core, ReplayFault, replay};
use audit_types::{Answered, Guard, Shape};
use bench_core::{Bench, End, Stop};
use std::alloc::Global;

// The audit of the history of a journal of this shape.
fn audited(
    alloc: Global,
    shape: Shape,
    protected: Guard,
    kept: Shape,
    list: &[Answered],
) -> Result<Core, End<JournalRefusal>>
    requires valid { IsShape shape }
    requires protected { AreProtected shape protected }
    requires fit { All (λ r. FitsShape kept r.column r.rows) list.now }
    requires few { length list.now ≤ most_records }
    ensures core { IfOk result (λ core. core ≡ record { setting = setting_of shape protected; history = list.now }) }
    ensures released { OnOk result ((kept ≡ shape) × WereReleased (setting_of shape protected) list.now) }
    ensures cause { IfErr result (EndsBy IsOfMemory (λ refusal. HistoryCause refusal kept (setting_of shape protected) list.now)) }
{
    if kept != shape {
        return Err(End::Refused(JournalRefusal::OtherShape { kept, now: shape }));
    }
    match replay(alloc, shape, protected, list) {
        Ok(core) => Ok(core),
        Err(ReplayFault::Unreleased { place, group }) => {
            Err(End::Refused(JournalRefusal::Illegal { place, group }))
        }
        Err(ReplayFault::NoMemory) => Err(End::Stopped(Stop::NoMemory)),
    }
}

/// The audit of the history that a transcript begins with: the journal's, if one is made, and else none. Its answers are taken as they
/// are. The journal is only read.
pub(crate) fn begin<B: Bench>(
    alloc: Global,
    shape: Shape,
    protected: &Guard,
    bench: &mut B,
) -> Result<Core, End<JournalRefusal>>
    requires valid { IsShape shape }
    requires fit { AreProtected shape protected.now }
    ensures setting { IfOk result (λ core. core.setting ≡ setting_of shape protected.now) }
    ensures begins { B.told → IfOk result (λ core. BeginsWith (B.file bench.old) (setting_of shape protected.now) core.history) }
    ensures cause { IfErr result (EndsBy IsOfBench (λ refusal. IsOfBeginning refusal × (B.told → UnbegunCause refusal (B.file bench.old) (setting_of shape protected.now)))) }

    // Nothing is written and nothing sent.
    ensures reads { OnlyReads B.Bench bench.old bench.new }
    ensures ticks { B.told → OnOk result (B.moment bench.new ≡ B.moment bench.old + 2) }
    ensures fault { TellsFault B.Bench bench.old bench.new (IsErrOf result (End.Stopped Stop.Bench)) }
{
    let protected = protected.copy(alloc)?;
    match Journal::read_back(alloc, bench) {
        Ok((journal, list)) => audited(alloc, shape, protected, journal.shape(), &list),
        Err(End::Stopped(stop)) => Err(End::Stopped(stop)),
        Err(End::Refused(refusal)) => match refusal {
            JournalRefusal::NotMade => Ok(Core::new(alloc, shape, protected)?),
            _ => Err(End::Refused(refusal)),
        },
    }
}
