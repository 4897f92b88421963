//! Writing a whole journal where none is made.
ghost use Rattle.std.specs.Prelude.{◌≡◌, ◌<◌, ◌≤◌, ◌+◌, ◌++◌, ◌∷◌, ℕ, List, length, ⊤, All, IfOk, IfErr, OnOk, IsErr, IsErrOf};
ghost use Rattle.audit_types.specs.Limits.{most_records};
ghost use Rattle.audit_types.specs.Shapes.{IsShape};
ghost use Rattle.audit_types.specs.History.{FitsShape};
ghost use Rattle.bench_core.specs.Calls.{IsQuiet, LeavesOnly, IsUntouched, OnlyReads, TellsFault};
ghost use Rattle.bench_core.specs.Ends.{EndsBy, IsRefused};
ghost use Rattle.bench_core.specs.Stops.{IsOfBench};
ghost use Rattle.journal_form.specs.Group.{IsGroup};
ghost use Rattle.journal_form.specs.Journal.{StandsFor};
ghost use Rattle.answer_journal.specs.Make.{calls_to_make};
ghost use Rattle.answer_journal.specs.Moments.{IsMade, IsUnmadeOrWhole};
ghost use Rattle.answer_journal.specs.Whole.{AreBehindGate, HoldsWhole};

use crate::looking::look;
use crate::opening::open_over;
use crate::refusals::AlreadyThere;
use audit_types::{Answered, NoMemory, Shape};
use bench_core::{Bench, End, Stop};
use journal_form::{FRESH_SIZE, HEADER_SIZE, write_group, write_header};
use std::alloc::Global;

// The most records of a group.
const MOST_IN_GROUP: usize = 64;

// Adds a group behind an open gate.
fn put_group(
    alloc: Global,
    bytes: &mut Vec<u8>,
    shape: &Shape,
    group: &[Answered],
) -> Result<(), NoMemory>
    requires some { 0 < length group.now }
    requires few { length group.now ≤ 64 }
    requires fit { All (λ r. FitsShape shape.now r.column r.rows) group.now }
    ensures { OnOk result ((text : List ℕ) × IsGroup shape.now text group.now × (bytes.new.items ≡ bytes.old.items ++ 1 ∷ text)) }
{
    let text = write_group(alloc, shape, group)?;
    bytes.push(1)?;
    bytes.extend_from_slice(&text[..text.len() - 1])?;
    Ok(())
}

// What stands after the header's gate of a journal of these records.
fn behind_gate(alloc: Global, shape: &Shape, list: &[Answered]) -> Result<Vec<u8>, NoMemory>
    requires shape { IsShape shape.now }
    requires fit { All (λ r. FitsShape shape.now r.column r.rows) list.now }
    ensures { IfOk result (λ bytes. AreBehindGate shape.now list.now bytes.items) }
{
    let mut header = [0; FRESH_SIZE];
    write_header(shape, &mut header);
    let mut bytes = Vec::new(alloc);
    bytes.extend_from_slice(&header[1..HEADER_SIZE])?;
    let mut at = 0;
    while at < list.len() {
        let end = list.len().min(at + MOST_IN_GROUP);
        put_group(alloc, &mut bytes, shape, &list[at..end])?;
        at = end;
    }
    bytes.push(0)?;
    Ok(bytes)
}

/// Writes a journal of these records, unless one is made: behind a closed header gate, which is opened once all is stable. Its
/// header has the shape's rows, and no growth follows. All memory is taken before the first call of the bench. After a failed
/// call it may be called again; what a crash leaves is then promised if the bench is quiet again.
pub fn write_whole<B: Bench>(
    alloc: Global,
    bench: &mut B,
    shape: &Shape,
    list: &[Answered],
) -> Result<(), End<AlreadyThere>>
    requires shape { IsShape shape.now }
    requires fit { All (λ r. FitsShape shape.now r.column r.rows) list.now }
    requires few { length list.now ≤ most_records }

    // It is refused exactly if a journal is made, and then nothing was written.
    ensures already { B.told → IsRefused result → IsMade (B.file bench.old) }
    ensures refused { B.told → IsMade (B.file bench.old) → IsErr result × (B.file bench.new ≡ B.file bench.old) }
    ensures untouched { B.told → IsMade (B.file bench.old) → IsQuiet B.Bench bench.old → LeavesOnly B.Bench bench.old bench.new (IsUntouched (B.file bench.old) (B.sent bench.old)) }
    ensures reads { IsRefused result → OnlyReads B.Bench bench.old bench.new }
    ensures no_memory { IsErrOf result (End.Stopped Stop.NoMemory) → bench.new ≡ bench.old }

    // A crash at any moment leaves a file that isn't made, or the whole journal.
    ensures any_moment { B.told → (IsMade (B.file bench.old) → ⊥) → IsQuiet B.Bench bench.old → LeavesOnly B.Bench bench.old bench.new (IsUnmadeOrWhole shape.now list.now (B.sent bench.old)) }
    ensures done { B.told → OnOk result (StandsFor (B.file bench.new) shape.now list.now) }
    ensures written { B.told → OnOk result (HoldsWhole shape.now list.now (B.file bench.old) (B.file bench.new)) }
    ensures ticks { B.told → OnOk result (B.moment bench.new ≡ B.moment bench.old + calls_to_make (B.file bench.old)) }
    ensures quiet { B.told → OnOk result (IsQuiet B.Bench bench.new) }
    ensures sent { B.sent bench.new ≡ B.sent bench.old }
    ensures fault { TellsFault B.Bench bench.old bench.new (IsErrOf result (End.Stopped Stop.Bench)) }
    ensures ends { IfErr result (EndsBy IsOfBench (λ _. ⊤)) }
{
    let behind = behind_gate(alloc, shape, list)?;
    match look(bench)? {
        None => Err(End::Refused(AlreadyThere)),
        Some(unmade) => Ok(open_over(bench, unmade, &behind)?),
    }
}
