//! What every command over a journal stands on, besides the files: the schema's groups are ready, and the journal is open.
ghost use Rattle.std.specs.Prelude.{◌≡◌, ◌+◌, ⊤, ℕ, List, true, IfOk, OnOk, IsErrOf, Err};
ghost use Rattle.audit_types.specs.declared.records.Answered.{Answered};
ghost use Rattle.audit_types.specs.History.{Protection, IsLegal};
ghost use Rattle.bench_core.specs.Calls.{OnlyReads, TellsFault};
ghost use Rattle.schema_json.specs.SecretShape.{shape_of};
ghost use Rattle.table_load.specs.Cells.{FitsSchema, PublicView, whole};
ghost use Rattle.table_load.specs.Database.{secret_table};
ghost use Rattle.journal_form.specs.Journal.{StandsFor};
ghost use Rattle.audit_store.specs.Starting.{StartCause};
ghost use Rattle.audit_store.specs.Stores.{IsStore, IsAsLeft};
ghost use Rattle.set_index.specs.Groups.{Protects, IsFirstBad};
ghost use Rattle.set_index.specs.declared.index.GuardPart.{GuardPart};
ghost use Rattle.set_index.specs.declared.index.IndexFault.{IndexFault};
ghost use Rattle.answer_journal.specs.declared.refusals.JournalRefusal.{JournalRefusal};
ghost use Rattle.bench_core.specs.Ends.{EndsBy, IsStop};
ghost use Rattle.bench_core.specs.Stops.{IsOfBench};
ghost use Rattle.bench_core.specs.declared.stops.End.{End};

use crate::opening::Opened;
use answer_journal::JournalRefusal;
use audit_store::{Guarded, Store};
use bench_core::{Bench, End, Stop};
use set_index::{Index, IndexFault, groups_of_a_schema};
use std::alloc::Global;
use table_load::Table;

/// The public part of a table, ready to be asked, and the store of its secrets.
#[derive(Drop)]
pub struct Started {
    pub index: Index,
    pub store: Store,
}

/// The public part of a table, ready to be asked, and its secrets, with what is guarded of them.
#[derive(Drop)]
pub struct ReadyTable {
    pub index: Index,
    pub guarded: Guarded,
}

/// Why no store was started over a table.
#[derive(Drop)]
pub enum NotStarted {
    /// A group of the schema has a fault, or there was no memory for the groups.
    Groups(IndexFault),
    /// The journal wasn't opened.
    Journal(End<JournalRefusal>),
}

/// Makes the groups of a table's schema ready.
pub fn make_ready(alloc: Global, opened: Opened) -> Result<ReadyTable, IndexFault>
    requires fits { FitsSchema opened.schema.columns opened.table.public }
    requires shape { opened.table.secret.shape ≡ shape_of opened.schema.columns opened.table.public.rows }
    ensures same { IfOk result (λ made. (made.index.columns ≡ opened.schema.columns) × (whole made.index.public ≡ opened.table.public)
        × (made.guarded ≡ secret_table opened.table.secret made.index.protected)) }
    ensures entries { IfOk result (λ made. Protects opened.schema.columns made.index.public opened.schema.guards made.index.protected) }
    ensures bad { (part : GuardPart) → result ≡ Err (IndexFault.Bad part) → IsFirstBad opened.schema.columns opened.schema.guards part }
{
    let Opened { schema, table } = opened;
    let Table { public, secret } = table;
    let index = match Index::new(alloc, schema, public) {
        Ok(index) => index,
        Err(fault) => return Err(fault),
    };
    match index.protected().copy(alloc) {
        Ok(protected) => Ok(ReadyTable {
            index,
            guarded: Guarded::new(secret, protected),
        }),
        Err(_) => Err(IndexFault::NoMemory),
    }
}

/// Makes the groups of a table's schema ready, and then opens its journal.
pub fn start<B: Bench>(alloc: Global, opened: Opened, bench: &mut B) -> Result<Started, NotStarted>
    requires fits { FitsSchema opened.schema.columns opened.table.public }
    requires shape { opened.table.secret.shape ≡ shape_of opened.schema.columns opened.table.public.rows }

    ensures same { IfOk result (λ started. (started.index.columns ≡ opened.schema.columns) × (whole started.index.public ≡ opened.table.public) × (started.store.secret ≡ opened.table.secret)
        × (started.index.protected ≡ started.store.protected)) }
    ensures entries { IfOk result (λ started. Protects opened.schema.columns started.index.public opened.schema.guards started.store.protected) }
    ensures store { IfOk result (λ started. (started.store.usable ≡ true) × IsStore started.store) }
    ensures stands { B.told → IfOk result (λ started. IsAsLeft (B.file bench.old) started.store) }

    // A refusal has its cause in what the schema says is guarded, or over that without fault in the file; a legal history isn't refused.
    ensures bad { (part : GuardPart) → result ≡ Err (NotStarted.Groups (IndexFault.Bad part)) → IsFirstBad opened.schema.columns opened.schema.guards part }
    ensures cause { (end : End JournalRefusal) → result ≡ Err (NotStarted.Journal end) → (public : PublicView) × (protected : Protection)
        × (whole public ≡ opened.table.public) × Protects opened.schema.columns public opened.schema.guards protected
        × (B.told → EndsBy IsOfBench (λ refusal. StartCause refusal (B.file bench.old) (secret_table opened.table.secret protected)) end
        × ((history : List Answered) → StandsFor (B.file bench.old) opened.table.secret.shape history → IsLegal (secret_table opened.table.secret protected) history → IsStop end)) }
    ensures ends { (end : End JournalRefusal) → result ≡ Err (NotStarted.Journal end) → EndsBy IsOfBench (λ _. ⊤) end }

    // The journal is only read, in two calls. One that failed is reported.
    ensures reads { OnlyReads B.Bench bench.old bench.new }
    ensures uncalled { (fault : IndexFault) → result ≡ Err (NotStarted.Groups fault) → bench.new ≡ bench.old }
    ensures ticks { B.told → OnOk result (B.moment bench.new ≡ B.moment bench.old + 2) }
    ensures fault { TellsFault B.Bench bench.old bench.new (IsErrOf result (NotStarted.Journal (End.Stopped Stop.Bench))) }
{
    groups_of_a_schema();
    let ReadyTable { index, guarded } = match make_ready(alloc, opened) {
        Ok(grouped) => grouped,
        Err(fault) => return Err(NotStarted::Groups(fault)),
    };
    match Store::start(alloc, guarded, bench) {
        Ok(store) => Ok(Started { index, store }),
        Err(end) => Err(NotStarted::Journal(end)),
    }
}
