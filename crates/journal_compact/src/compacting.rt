//! The step of the command: what is kept is written on the spare, and a line on it is sent.
ghost use Rattle.std.specs.Prelude.{◌≡◌, ◌≢◌, ◌+◌, ⊤, ℕ, List, string_bytes, IfErr, IfOk, IsErr, IsErrOf, OnOk, OnErr, Err};
ghost use Rattle.bench_core.specs.Calls.{IsQuiet, IsUntouched, LeavesOnly, TellsFault};
ghost use Rattle.bench_core.specs.Ends.{EndsBy, IsRefused};
ghost use Rattle.bench_core.specs.Stops.{IsOfBenches};
ghost use Rattle.answer_journal.specs.Make.{calls_to_make};
ghost use Rattle.answer_journal.specs.Moments.{IsMade};
ghost use Rattle.journal_compact.specs.Compactions.{Compacts, CompactsFront, IsUnmadeOrKept, SendsCounts, compact_line};

use answer_journal::{AlreadyThere, write_whole};
use audit_store::Store;
use bench_core::{Bench, End, Stop};
use implied_records::kept;
use std::alloc::{AllocError, Global};
use table_load::lists_of_secrets;

// The line on so many records, of which so many are kept.
fn compact_line(alloc: Global, records: usize, kept: usize) -> Result<String, AllocError>
    ensures { IfOk result (λ line. string_bytes line ≡ compact_line records kept) }
{
    format!(in alloc; "{{\"records\":{records},\"kept\":{kept}}}\n")
}

/// Writes on the spare a journal of what is kept of a store's history, and sends a line on it. All memory is taken before the
/// first call of the spare. If a call of the bench failed, the line wasn't sent whole, and the spare has its journal; after any
/// other end nothing was sent.
pub fn compact<B: Bench>(
    alloc: Global,
    store: &Store,
    bench: &mut B,
    spare: &mut B,
) -> Result<(), End<AlreadyThere>>
    // The spare stands for what is kept before a byte of the line is sent, and holds it whole.
    ensures done { B.told → OnOk result (Compacts store.now.secret.shape store.now.history (B.file spare.old) (B.file spare.new) (B.sent bench.old) (B.sent bench.new)) }
    ensures part { B.told → IsErrOf result (End.Stopped Stop.Bench)
        → CompactsFront store.now.secret.shape store.now.history (B.file spare.old) (B.file spare.new) (B.sent bench.old) (B.sent bench.new) }
    ensures unsent { OnErr result (result ≢ Err (End.Stopped Stop.Bench) → bench.new ≡ bench.old) }

    // It is refused exactly if a journal is made on the spare, which stays as it was.
    ensures already { B.told → IsRefused result → IsMade (B.file spare.old) }
    ensures refused { B.told → IsMade (B.file spare.old) → IsErr result × (bench.new ≡ bench.old) × (B.file spare.new ≡ B.file spare.old) }
    ensures untouched { B.told → IsMade (B.file spare.old) → IsQuiet B.Bench spare.old → LeavesOnly B.Bench spare.old spare.new (IsUntouched (B.file spare.old) (B.sent spare.old)) }

    // A crash at any moment leaves a spare that isn't made, or the whole journal; and the store's file as it was.
    ensures any_moment { B.told → (IsMade (B.file spare.old) → ⊥) → IsQuiet B.Bench spare.old
        → LeavesOnly B.Bench spare.old spare.new (IsUnmadeOrKept store.now.secret.shape store.now.history (B.sent spare.old)) }
    ensures sending { B.told → IsQuiet B.Bench bench.old
        → LeavesOnly B.Bench bench.old bench.new (SendsCounts store.now.secret.shape store.now.history (B.file bench.old) (B.sent bench.old)) }
    ensures file { B.file bench.new ≡ B.file bench.old }
    ensures crash { (image : List ℕ) → B.leaves bench.new image → B.leaves bench.old image }
    ensures quiet { B.told → OnOk result (IsQuiet B.Bench spare.new) }
    ensures spare_sent { B.sent spare.new ≡ B.sent spare.old }

    // One send, and the calls of the spare that make a journal. One that failed is reported.
    ensures ticks { B.told → OnOk result (B.moment bench.new ≡ B.moment bench.old + 1) }
    ensures spare_ticks { B.told → OnOk result (B.moment spare.new ≡ B.moment spare.old + calls_to_make (B.file spare.old)) }
    ensures no_memory { IsErrOf result (End.Stopped Stop.NoMemory) → spare.new ≡ spare.old }
    ensures fault { TellsFault B.Bench bench.old bench.new (IsErrOf result (End.Stopped Stop.Bench)) }
    ensures spare_fault { TellsFault B.Bench spare.old spare.new (IsErrOf result (End.Stopped Stop.Spare)) }
    ensures ends { IfErr result (EndsBy IsOfBenches (λ _. ⊤)) }
{
    lists_of_secrets();
    let history = store.history();
    let shape = store.shape();
    let list = kept(alloc, &shape, history)?;
    let line = compact_line(alloc, history.len(), list.len())?;
    match write_whole(alloc, spare, &shape, &list) {
        Ok(()) => Ok(bench.send(line.as_bytes())?),
        Err(end) => Err(end.turned()),
    }
}
