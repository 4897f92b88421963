//! What keeps the answers of a session: a journal, or a journal and a spare one.
ghost use Rattle.std.specs.Prelude.{◌≡◌, ◌≤◌, ℕ, true, length, All, IfErr, IsErrOf};
ghost use Rattle.audit_types.specs.History.{FitsShape};
ghost use Rattle.bench_core.specs.Stops.{IsOfBenches};
ghost use Rattle.journal_form.specs.Journal.{StandsAt};
ghost use Rattle.audit_store.specs.Asks.{AsksOn, SpareAsksOn};
ghost use Rattle.audit_store.specs.Stores.{StoreContents, IsAsLeft};

use crate::ahead::NoJournal;
use crate::store::Store;
use audit_core::Outcome;
use audit_types::Asked;
use bench_core::{Bench, Stop};

/// What decides groups of questions, and keeps what it answers before it gives it: on a bench, and if it is spared, on a spare
/// before that.
pub trait Keeper {
    /// It keeps a second journal, on the spare.
    ghost spared: { Type 0 };

    /// Its secrets, its groups, its history, the journal on the bench, and whether it may be asked.
    ghost store: { Self → StoreContents };

    /// Where the journal on the spare ends.
    ghost spare_gate: { Self → ℕ };

    /// Decides up to 64 questions in order, and keeps the records of the answers as one group.
    fn ask_group<B: Bench, S: Bench>(
        &mut self,
        bench: &mut B,
        spare: &mut S,
        asked: &[Asked],
    ) -> Result<Vec<Outcome>, Stop>
        requires usable { (store self.old).usable ≡ true }
        requires few { length asked.now ≤ 64 }
        requires fit { All (λ a. FitsShape (store self.old).secret.shape a.column a.rows) asked.now }
        requires stands { B.told → IsAsLeft (B.file bench.old) (store self.old) }
        requires spare_stands { spared → S.told → StandsAt (S.file spare.old) (store self.old).secret.shape (store self.old).history (spare_gate self.old) }

        // One outcome for each question, and their records are kept, on the bench and, if it is spared, on the spare before that.
        ensures asks { AsksOn B.Bench (store self.old) (store self.new) asked.now result bench.old bench.new }
        ensures spare { SpareAsksOn B.Bench S.Bench (spared × S.told) (store self.old) (store self.new) (spare_gate self.old) (spare_gate self.new) asked.now result bench.old bench.new spare.old spare.new }
        ensures ends { IfErr result IsOfBenches }

        // A keeper that isn't spared never calls the spare.
        ensures own { IsErrOf result Stop.Spare → spared }
        ensures untouched { (spared → ⊥) → spare.new ≡ spare.old };
}

/// A store keeps one journal, and no spare.
impl Keeper for Store {
    ghost spared = { ⊥ };

    ghost store = { λ s. s };

    ghost spare_gate = { λ _. 0 };

    fn ask_group<B: Bench, S: Bench>(
        &mut self,
        bench: &mut B,
        spare: &mut S,
        asked: &[Asked],
    ) -> Result<Vec<Outcome>, Stop> {
        self.ask_all(&mut NoJournal, bench, spare, asked)
    }
}
