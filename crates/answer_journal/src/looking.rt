//! What stands where a journal is to be written.
ghost use Rattle.std.specs.Prelude.{◌≡◌, ◌<◌, ◌+◌, ◌↔◌, IfOk, IsTrue, MatchOption, OnOk, OnErr, length, slice_index, true};
ghost use Rattle.bench_core.specs.Causes.{HasCause};
ghost use Rattle.bench_core.specs.Calls.{OnlyReads};
ghost use Rattle.answer_journal.specs.Make.{calls_to_glance, calls_to_look};
ghost use Rattle.answer_journal.specs.Moments.{IsFound, IsMade, IsUnmade};

use bench_core::{Bench, Failed};
use journal_form::FRESH_SIZE;

/// What stands where no journal is made.
#[derive(Clone, Copy)]
pub enum Unmade {
    /// At least as many bytes as a fresh journal has, behind a closed header gate.
    Closed,
    /// Fewer.
    Short,
}

/// What a glance finds.
#[derive(Clone, Copy)]
pub(crate) enum Found {
    /// As many bytes as a fresh journal has, behind an open header gate.
    Made,
    /// More bytes, behind a gate that wasn't looked at.
    Longer,
    /// No journal, and no more bytes than a fresh one has.
    Nothing(Unmade),
}

// Whether the header gate of a file is open.
fn gate_is_open<B: Bench>(bench: &mut B) -> Result<bool, Failed>
    requires { B.told → 0 < length (B.file bench.old) }
    ensures gate { B.told → IfOk result (λ is_open. IsTrue is_open ↔ (slice_index (B.file bench.old) 0 ≡ 1)) }
    ensures ticks { B.told → OnOk result (B.moment bench.new ≡ B.moment bench.old + 1) }
    ensures reads { OnlyReads B.Bench bench.old bench.new }
    ensures cause { HasCause (B.faults bench.old) (B.faults bench.new) result }
    ensures last_call { OnErr result (B.last_failed bench.new ≡ true) }
{
    let mut gate = [0];
    bench.read_at(0, &mut gate)?;
    Ok(gate[0] == 1)
}

/// Looks at what stands in a file, as far as it matters to whoever makes a journal of no records: the gate of a longer file is
/// left alone. It writes nothing.
pub(crate) fn glance<B: Bench>(bench: &mut B) -> Result<Found, Failed>
    ensures found { B.told → IfOk result (λ found. IsFound found (B.file bench.old)) }
    ensures ticks { B.told → OnOk result (B.moment bench.new ≡ B.moment bench.old + calls_to_glance (B.file bench.old)) }
    ensures reads { OnlyReads B.Bench bench.old bench.new }
    ensures cause { HasCause (B.faults bench.old) (B.faults bench.new) result }
    ensures last_call { OnErr result (B.last_failed bench.new ≡ true) }
{
    let length = bench.length()?;
    if length < FRESH_SIZE as u64 {
        return Ok(Found::Nothing(Unmade::Short));
    }
    if length > FRESH_SIZE as u64 {
        return Ok(Found::Longer);
    }
    if gate_is_open(bench)? {
        Ok(Found::Made)
    } else {
        Ok(Found::Nothing(Unmade::Closed))
    }
}

/// Looks at what stands in a file: nothing is given if that is a made journal. It writes nothing.
pub fn look<B: Bench>(bench: &mut B) -> Result<Option<Unmade>, Failed>
    ensures found { B.told → IfOk result (λ found. MatchOption found (IsMade (B.file bench.old)) (λ unmade. IsUnmade unmade (B.file bench.old))) }
    ensures ticks { B.told → OnOk result (B.moment bench.new ≡ B.moment bench.old + calls_to_look (B.file bench.old)) }
    ensures reads { OnlyReads B.Bench bench.old bench.new }
    ensures cause { HasCause (B.faults bench.old) (B.faults bench.new) result }
    ensures last_call { OnErr result (B.last_failed bench.new ≡ true) }
{
    match glance(bench)? {
        Found::Made => Ok(None),
        Found::Longer => {
            if gate_is_open(bench)? {
                Ok(None)
            } else {
                Ok(Some(Unmade::Closed))
            }
        }
        Found::Nothing(unmade) => Ok(Some(unmade)),
    }
}
