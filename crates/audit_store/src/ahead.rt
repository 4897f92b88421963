//! What a group goes to before the store's own journal: another journal, on a spare, or nothing.
ghost use Rattle.std.specs.Prelude.{◌≡◌, ◌≤◌, ◌+◌, [], List, true, false, length, OnOk, OnErr};
ghost use Rattle.audit_types.specs.Limits.{most_records};
ghost use Rattle.audit_types.specs.declared.records.Answered.{Answered};
ghost use Rattle.bench_core.specs.Causes.{HasCause};
ghost use Rattle.journal_form.specs.Journal.{StandsAt};
ghost use Rattle.answer_journal.specs.Contents.{JournalContents};
ghost use Rattle.audit_store.specs.Twice.{IsReadyOver, MayAppend, WasAppended, group_of};

use crate::asking::keep_ready;
use answer_journal::{Journal, Ready};
use bench_core::{Bench, Failed};

/// Another journal of a store's history, which has each group first, or none.
pub trait Ahead {
    /// There is one, on a spare.
    ghost spared: { Type 0 };

    /// It, if there is one.
    ghost journal: { Self → JournalContents };

    /// Appends a group that is ready to it, if there is one. It takes no memory.
    fn keep_ahead<S: Bench>(&mut self, spare: &mut S, ready: &Option<Ready>) -> Result<(), Failed>
        requires usable { spared → (journal self.old).usable ≡ true }
        requires over { spared → IsReadyOver (journal self.old).shape ready.now }
        requires few { spared → (journal self.old).count + length (group_of ready.now) ≤ most_records }
        requires stands { spared → S.told → (history : List Answered) × StandsAt (S.file spare.old) (journal self.old).shape history (journal self.old).gate × (length history ≡ (journal self.old).count) }

        ensures any_moment { spared → MayAppend S.Bench (journal self.old) (group_of ready.now) spare.old spare.new }
        ensures appended { spared → OnOk result (WasAppended S.Bench (journal self.old) (journal self.new) (group_of ready.now) spare.old spare.new) }
        ensures unasked { group_of ready.now ≡ [] → OnOk result (spare.new ≡ spare.old) }
        ensures sent { S.sent spare.new ≡ S.sent spare.old }
        ensures cause { HasCause (S.faults spare.old) (S.faults spare.new) result }
        ensures last_call { OnErr result (S.last_failed spare.new ≡ true) }

        // If there is none the spare isn't called.
        ensures own { OnErr result spared }
        ensures untouched { (spared → ⊥) → spare.new ≡ spare.old };
}

impl Ahead for Journal {
    ghost spared = { Unit {0} };

    ghost journal = { λ j. j };

    fn keep_ahead<S: Bench>(&mut self, spare: &mut S, ready: &Option<Ready>) -> Result<(), Failed> {
        keep_ready(self, spare, ready)
    }
}

/// No other journal.
#[derive(Drop)]
pub struct NoJournal;

impl Ahead for NoJournal {
    ghost spared = { ⊥ };

    ghost journal = { λ _. record { shape = record { rows = 0; kinds = [] }; count = 0; gate = 0; usable = false } };

    fn keep_ahead<S: Bench>(
        &mut self,
        _spare: &mut S,
        _ready: &Option<Ready>,
    ) -> Result<(), Failed> {
        Ok(())
    }
}
