//! The top call.
ghost use Rattle.std.specs.Prelude.{◌≡◌, ◌≢◌, ◌++◌, List, ℕ, true, map, string_bytes};
ghost use Rattle.bench_core.specs.Calls.{IsQuiet, IsUntouched, LeavesOnly};
ghost use Rattle.table_load.specs.Database.{Database, table_in};
ghost use Rattle.journal_form.specs.Journal.{StandsFor};
ghost use Rattle.audit_session.specs.Lives.{Standing, Run, IsLife, shape_in};
ghost use Rattle.audit_session.specs.Stops.{IsFront};
ghost use Rattle.auditor_top.specs.declared.words.Command.{Command};
ghost use Rattle.auditor_top.specs.declared.words.Command.TheVariants.{Serve, Grow};
ghost use Rattle.auditor_top.specs.Words.{command_of, NamesCommand};
ghost use Rattle.auditor_top.specs.Commands.{AreSoundFilesOf, GoesOnOver, deed_of, opens_journal};
ghost use Rattle.auditor_top.specs.Causes.{IsReadyFor};
ghost use Rattle.auditor_top.specs.Promise.{GoesOn};
ghost use Rattle.auditor_top.specs.Runs.{objects, Does};
ghost use Rattle.auditor_top.specs.Says.{Says};

use crate::ends::{compacted, ended, grown, judged, made, restored};
use crate::laws::{compactions, lives, stops_are_legal};
use crate::ready::{Ready, open};
use crate::status::Status;
use crate::words::{Command, WordFault, read_words};
use answer_journal::Journal;
use audit_store::Store;
use bench_core::{Bench, Source};
use drill_case::drill;
use journal_audit::audit;
use journal_compact::compact;
use std::alloc::Global;
use transcript_sim::laws::one_verdict;
use twin_journal::{TwinStore, restore, serve_twin};

/// Does all that the program does: reads the arguments after the program's name, and takes the steps of their command over the
/// schema, the table, the lines of the input, and the bench, which keeps the journal and takes what is sent. `spare` is the place
/// of a second journal.
pub fn run<P: Source, I: Source, B: Bench>(
    alloc: Global,
    words: &Vec<String>,
    schema: &mut P,
    table: &mut P,
    input: &mut I,
    bench: &mut B,
    spare: &mut B,
) -> Status
    // What is said of a run whatever its command is: the cause of its status, the call that failed, and what it left alone.
    ensures says { Says P.Source I.Source B.Bench (command_of (map string_bytes words.now.items)) result
        (objects schema.old table.old input.old bench.old spare.old) (objects schema.new table.new input.new bench.new spare.new) }

    // A life goes on with this run, from where it stands: the life with it is a life, keeps the promise, hides what is guarded, and
    // decides as over all tables that differ in their secrets alone, whatever moment the run is stopped at. With two journals it stands at
    // the longer one, and goes on from the file once that isn't behind it.
    ensures lives { P.told → B.told → (command : Command) → NamesCommand words.now.items command → (command ≢ Grow → I.told) → IsQuiet B.Bench bench.old
        → (base : Database) (at : Standing) → GoesOnOver command (P.left schema.old) (P.left table.old) (B.file bench.old) (B.file spare.old) at base
        → (first : Database) (runs : List Run) → IsLife first runs at
        → (image sent : List ℕ) (left : Standing) → left.base ≡ base → B.since bench.new (B.moment bench.old) image (B.sent bench.old ++ sent)
        → StandsFor image (shape_in left) left.history → ((batch : ℕ) → command ≡ Serve batch true → IsFront at.history left.history)
        → GoesOn first runs (record { deed = deed_of command (I.left input.old); left = left; sent = sent }) }

    // What a run of each command does, by its status: the arguments, how it ends, what is found at every moment, its calls of the
    // bench, and that it is done if nothing is wrong and nothing fails.
    ensures does { (command : Command) → NamesCommand words.now.items command → Does P.Source I.Source B.Bench command result
        (objects schema.old table.old input.old bench.old spare.old) (objects schema.new table.new input.new bench.new spare.new) }

    // Over any other file nothing began of a command that opens the journal.
    ensures nothing_began { P.told → B.told → (command : Command) → NamesCommand words.now.items command → opens_journal command ≡ true → IsQuiet B.Bench bench.old
        → ((base : Database) → AreSoundFilesOf (P.left schema.old) (P.left table.old) base → IsReadyFor command (B.file bench.old) (table_in base) → ⊥)
        → LeavesOnly B.Bench bench.old bench.new (IsUntouched (B.file bench.old) (B.sent bench.old)) }
{
    journal_form::laws::one_reading();
    one_verdict();
    set_index::groups_of_a_schema();
    lives();
    stops_are_legal();
    compactions();
    let command = match read_words(alloc, words) {
        Ok(command) => command,
        Err(WordFault::Bad) => return Status::BadWords,
        Err(WordFault::NoMemory) => return Status::NoMemory,
    };
    match open(alloc, command, schema, table, bench) {
        Err(status) => status,
        Ok(Ready::Init(shape)) => made(Journal::make(bench, &shape)),
        Ok(Ready::Serve(index, mut store, batch)) => ended(audit_session::serve(
            alloc, &index, &mut store, input, bench, batch,
        )),
        Ok(Ready::Twin(index, guarded, batch)) => match TwinStore::start(
            alloc, guarded, bench, spare,
        ) {
            Ok(mut twin) => ended(serve_twin(alloc, &index, &mut twin, input, bench, spare, batch)),
            Err(end) => Status::from(end),
        },
        Ok(Ready::Audit(schema, people, store)) => {
            ended(audit(alloc, &schema, &store, people, bench))
        }
        Ok(Ready::Simulate(index)) => judged(transcript_sim::simulate(alloc, &index, input, bench)),
        Ok(Ready::Drill(number)) => ended(drill(alloc, number, bench)),
        Ok(Ready::Grow(guarded)) => grown(Store::grow(alloc, guarded, bench)),
        Ok(Ready::Explain(index, store)) => ended(certificate_lines::explain(
            alloc, &index, &store, input, bench,
        )),
        Ok(Ready::Compact(store)) => compacted(compact(alloc, &store, bench, spare)),
        Ok(Ready::Restore(guarded)) => restored(restore(alloc, guarded, bench, spare)),
    }
}
