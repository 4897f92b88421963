//! Reading the journal of a bench back.
ghost use Rattle.std.specs.Prelude.{◌≡◌, ◌≤◌, ◌+◌, ℕ, List, true, length, take, All, IfOk, IfErr, OnOk, MatchResult, IsErrOf, Err};
ghost use Rattle.audit_types.specs.Limits.{most_records};
ghost use Rattle.audit_types.specs.declared.shapes.Shape.{Shape};
ghost use Rattle.audit_types.specs.declared.records.Answered.{Answered};
ghost use Rattle.audit_types.specs.History.{FitsShape};
ghost use Rattle.answer_journal.specs.declared.refusals.JournalRefusal.{JournalRefusal};
ghost use Rattle.bench_core.specs.Calls.{OnlyReads, TellsFault};
ghost use Rattle.bench_core.specs.Ends.{EndsBy, IsStop, RefusedUnlessStopped};
ghost use Rattle.bench_core.specs.Stops.{IsOfBench};
ghost use Rattle.journal_form.specs.Journal.{StandsAt, BreaksAt, most_bytes};
ghost use Rattle.answer_journal.specs.Contents.{IsJournal};
ghost use Rattle.answer_journal.specs.Refusals.{IsOfReading, ReadCause};

use crate::journal::Journal;
use crate::reading::{Contents, read_all};
use crate::refusals::JournalRefusal;
use audit_types::{Answered, MOST_RECORDS, MOST_ROWS};
use bench_core::{Bench, End, Stop};
use journal_form::laws::{
    bytes_of_records, no_break_in_a_journal, one_break, one_reading, the_front_tells,
};
use journal_form::{FRESH_SIZE, GROWTH_SIZE, MOST_FOR_RECORD};
use std::alloc::Global;

// The most bytes of a journal: each record may stand in a group of its own, and each row but the first may have come alone.
const MOST_BYTES: u64 = (FRESH_SIZE
    + MOST_FOR_RECORD * MOST_RECORDS
    + GROWTH_SIZE * (MOST_ROWS as usize - 1)) as u64;

// The bytes of the bench's file, up to as many as a journal has at most.
fn front_of<B: Bench>(alloc: Global, bench: &mut B) -> Result<Vec<u8>, Stop>
    ensures bytes { B.told → IfOk result (λ bytes. bytes.items ≡ take most_bytes (B.file bench.old)) }
    ensures reads { OnlyReads B.Bench bench.old bench.new }
    ensures ticks { B.told → OnOk result (B.moment bench.new ≡ B.moment bench.old + 2) }
    ensures fault { TellsFault B.Bench bench.old bench.new (IsErrOf result Stop.Bench) }
    ensures ends { IfErr result IsOfBench }
{
    let length = bench.length()?;
    let mut bytes = vec![in alloc; 0; length.min(MOST_BYTES) as usize]?;
    let count = bench.read_at(0, &mut bytes)?;
    bytes.truncate(count);
    Ok(bytes)
}

// What the bench's file stands for.
fn contents_of<B: Bench>(alloc: Global, bench: &mut B) -> Result<Contents, End<JournalRefusal>>
    ensures ok { B.told → IfOk result (λ journal. StandsAt (B.file bench.old) journal.shape journal.list.items journal.gate) }
    ensures journal { IfOk result (λ journal. (file : List ℕ) × StandsAt file journal.shape journal.list.items journal.gate) }
    ensures cause { B.told → IfErr result (EndsBy IsOfBench (λ refusal. ReadCause refusal (B.file bench.old))) }
    ensures ends { IfErr result (EndsBy IsOfBench IsOfReading) }
    ensures reads { OnlyReads B.Bench bench.old bench.new }
    ensures ticks { B.told → OnOk result (B.moment bench.new ≡ B.moment bench.old + 2) }
    ensures unmade { B.told → result ≡ Err (End.Refused JournalRefusal.NotMade) → B.moment bench.new ≡ B.moment bench.old + 2 }
    ensures fault { TellsFault B.Bench bench.old bench.new (IsErrOf result (End.Stopped Stop.Bench)) }
{
    the_front_tells();
    let bytes = front_of(alloc, bench)?;
    read_all(alloc, &bytes)
}

impl Journal {
    /// Reads the journal of a bench back, with its records over the rows in force at its end. It writes nothing.
    pub fn read_back<B: Bench>(
        alloc: Global,
        bench: &mut B,
    ) -> Result<(Journal, Vec<Answered>), End<JournalRefusal>>
        ensures stands { B.told → IfOk result (λ r. StandsAt (B.file bench.old) r.0.shape r.1.items r.0.gate) }

        // Whatever the bench tells, what is read back is a history of the journal's shape.
        ensures usable { IfOk result (λ r. (r.0.usable ≡ true) × IsJournal r.0 × (length r.1.items ≡ r.0.count)) }
        ensures fit { IfOk result (λ r. All (λ a. FitsShape r.0.shape a.column a.rows) r.1.items) }
        ensures few { IfOk result (λ r. length r.1.items ≤ most_records) }

        // A refusal has its cause in the file, and each cause has its refusal. It is read back exactly if it stands for a history.
        ensures cause { (refusal : JournalRefusal) → B.told → result ≡ Err (End.Refused refusal) → ReadCause refusal (B.file bench.old) }
        ensures due { (refusal : JournalRefusal) → B.told → ReadCause refusal (B.file bench.old) → RefusedUnlessStopped refusal result }
        ensures whole { (shape : Shape) (history : List Answered) (gate : ℕ) → B.told → StandsAt (B.file bench.old) shape history gate
            → MatchResult result (λ r. (r.0.shape ≡ shape) × (r.1.items ≡ history) × (r.0.gate ≡ gate)) (λ end. IsStop end) }
        ensures ends { IfErr result (EndsBy IsOfBench IsOfReading) }

        ensures reads { OnlyReads B.Bench bench.old bench.new }
        ensures ticks { B.told → OnOk result (B.moment bench.new ≡ B.moment bench.old + 2) }
        ensures unmade { B.told → result ≡ Err (End.Refused JournalRefusal.NotMade) → B.moment bench.new ≡ B.moment bench.old + 2 }
        ensures fault { TellsFault B.Bench bench.old bench.new (IsErrOf result (End.Stopped Stop.Bench)) }
    {
        one_reading();
        one_break();
        no_break_in_a_journal();
        bytes_of_records();
        let Contents { shape, list, gate } = contents_of(alloc, bench)?;
        let count = list.len() as u32;
        Ok((Journal::ending_at(alloc, shape, count, gate as u64), list))
    }
}
