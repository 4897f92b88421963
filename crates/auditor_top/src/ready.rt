//! What each command goes on with: its files are read, and its journal is opened.
ghost use Rattle.std.specs.Prelude.{◌≡◌, ◌≤◌, ◌+◌, true, false, IfOk, IfErr, IsOk, OnOk};
ghost use Rattle.bench_core.specs.Calls.{OnlyReads};
ghost use Rattle.set_index.specs.Indexed.{public_shape};
ghost use Rattle.audit_session.specs.Ends.{base_over};
ghost use Rattle.auditor_top.specs.Commands.{AreSoundFilesOf, opens_journal, opens_store, reads_files};
ghost use Rattle.auditor_top.specs.Ends.{people_told};
ghost use Rattle.auditor_top.specs.Ready.{IsOpened, IsReady, IsReadyOver, Refuses, base_around, command_for};

use crate::opening::{OpenedPublic, open_public, open_table};
use crate::starting::{ReadyTable, Started, make_ready, start};
use crate::status::Status;
use crate::words::Command;
use audit_store::{Guarded, Store};
use audit_types::{RowSet, Shape};
use bench_core::{Bench, Source};
use schema_json::Schema;
use set_index::{Index, groups_of_a_schema};
use std::alloc::Global;

/// What a command goes on with: of a table what was opened, and of the arguments the batch or the number.
#[derive(Drop)]
pub enum Ready {
    Init(Shape),
    Serve(Index, Store, u8),
    Twin(Index, Guarded, u8),
    // With how many people the rows stand for, if the schema counts them.
    Audit(Schema, Option<u64>, Store),
    Simulate(Index),
    Drill(u32),
    Grow(Guarded),
    Explain(Index, Store),
    Compact(Store),
    Restore(Guarded),
}

// Reads the files of a command that stands on a store, makes the groups ready, and opens the journal.
fn open_store<P: Source, B: Bench>(
    alloc: Global,
    command: Command,
    schema: &mut P,
    table: &mut P,
    bench: &mut B,
) -> Result<Started, Status>
    requires { opens_store command ≡ true }

    // What is started is that of the files and the journal.
    ensures over { P.told → IfOk result (λ started. AreSoundFilesOf (P.left schema.old) (P.left table.old)
        (base_over started.index started.store)) }
    ensures opened { IfOk result (λ started. IsOpened B.Bench bench.new started.store) }
    ensures shape { IfOk result (λ started. started.store.secret.shape ≡ public_shape started.index) }
    ensures entries { IfOk result (λ started. started.index.protected ≡ started.store.protected) }
    ensures steady { OnOk result ((P.faults schema.new ≡ P.faults schema.old) × (P.faults table.new ≡ P.faults table.old) × (B.faults bench.new ≡ B.faults bench.old)) }
    ensures ticks { B.told → OnOk result (B.moment bench.new ≡ B.moment bench.old + 2) }

    // A refusal has its cause. The journal is only read.
    ensures refusal { IfErr result (λ status. Refuses P.Source B.Bench command status schema.old schema.new table.old table.new bench.old bench.new) }
    ensures reads { OnlyReads B.Bench bench.old bench.new }
{
    groups_of_a_schema();
    let opened = open_table(alloc, schema, table)?;
    Ok(start(alloc, opened, bench)?)
}

// Reads the files of a command that opens its journals in its last step, and makes the groups ready.
fn open_groups<P: Source, B: Bench>(
    alloc: Global,
    command: Command,
    schema: &mut P,
    table: &mut P,
    bench: &B,
) -> Result<ReadyTable, Status>
    requires journal { opens_journal command ≡ true }
    requires later { opens_store command ≡ false }

    // What is made ready is that of the files.
    ensures over { P.told → IfOk result (λ made. AreSoundFilesOf (P.left schema.old) (P.left table.old)
        (base_around made.index.columns made.index.public made.guarded)) }
    ensures shape { IfOk result (λ made. made.guarded.setting.shape ≡ public_shape made.index) }
    ensures entries { IfOk result (λ made. made.index.protected ≡ made.guarded.setting.protected) }
    ensures steady { OnOk result ((P.faults schema.new ≡ P.faults schema.old) × (P.faults table.new ≡ P.faults table.old)) }

    // A refusal has its cause.
    ensures refusal { IfErr result (λ status. Refuses P.Source B.Bench command status schema.old schema.new table.old table.new bench.now bench.now) }
{
    groups_of_a_schema();
    let opened = open_table(alloc, schema, table)?;
    Ok(make_ready(alloc, opened)?)
}

// How many people all rows stand for, if the schema counts them.
fn people_of(index: &Index) -> Option<u64>
    ensures { result ≡ people_told index.now.columns index.now.public }
{
    let _place = index.schema().people()?;
    let mut everyone = RowSet::new(index.public().rows());
    everyone.flip();
    Some(index.people(&everyone))
}

/// Reads the files that the command stands on, and opens the journal of its store.
pub fn open<P: Source, B: Bench>(
    alloc: Global,
    command: Command,
    schema: &mut P,
    table: &mut P,
    bench: &mut B,
) -> Result<Ready, Status>
    // What the command goes on with is its own, and that of the files and the journal, which is opened in two calls for a store.
    ensures asked { IfOk result (λ ready. command_for ready ≡ command) }
    ensures ready { IfOk result (IsReady B.Bench bench.new) }
    ensures over { P.told → IfOk result (IsReadyOver (P.left schema.old) (P.left table.old)) }
    ensures steady { OnOk result ((P.faults schema.new ≡ P.faults schema.old) × (P.faults table.new ≡ P.faults table.old) × (B.faults bench.new ≡ B.faults bench.old)) }
    ensures ticks { B.told → opens_store command ≡ true → OnOk result (B.moment bench.new ≡ B.moment bench.old + 2) }

    // A refusal has its cause. A command that stands on no file isn't refused.
    ensures refusal { IfErr result (λ status. Refuses P.Source B.Bench command status schema.old schema.new table.old table.new bench.old bench.new) }
    ensures taken { reads_files command ≡ false → IsOk result }

    // Nothing is written or sent, and what a command doesn't stand on isn't called.
    ensures reads { OnlyReads B.Bench bench.old bench.new }
    ensures unread { reads_files command ≡ false → (schema.new ≡ schema.old) × (table.new ≡ table.old) }
    ensures unopened { opens_store command ≡ false → bench.new ≡ bench.old }
{
    groups_of_a_schema();
    match command {
        Command::Init => {
            let opened = open_table(alloc, schema, table)?;
            Ok(Ready::Init(opened.table.secret.shape()))
        }
        Command::Serve { batch, twin: false } => {
            let started = open_store(alloc, command, schema, table, bench)?;
            Ok(Ready::Serve(started.index, started.store, batch))
        }
        Command::Serve { batch, twin: true } => {
            let made = open_groups(alloc, command, schema, table, bench)?;
            Ok(Ready::Twin(made.index, made.guarded, batch))
        }
        Command::Audit => {
            let started = open_store(alloc, command, schema, table, bench)?;
            let people = people_of(&started.index);
            Ok(Ready::Audit(started.index.into_schema(), people, started.store))
        }
        Command::Simulate => {
            let OpenedPublic { schema, public } = open_public(alloc, schema, table)?;
            let index = Index::new(alloc, schema, public)?;
            Ok(Ready::Simulate(index))
        }
        Command::Drill { number } => Ok(Ready::Drill(number)),
        Command::Grow => {
            let made = open_groups(alloc, command, schema, table, bench)?;
            Ok(Ready::Grow(made.guarded))
        }
        Command::Explain => {
            let started = open_store(alloc, command, schema, table, bench)?;
            Ok(Ready::Explain(started.index, started.store))
        }
        Command::Compact => Ok(Ready::Compact(
            open_store(alloc, command, schema, table, bench)?.store,
        )),
        Command::Restore => {
            let made = open_groups(alloc, command, schema, table, bench)?;
            Ok(Ready::Restore(made.guarded))
        }
    }
}
