//! Laws of runs. Each function computes nothing: its contract is the law.
ghost use Rattle.std.specs.Prelude.{◌≡◌, ◌<◌, ◌^◌, List, [], ◌∷◌, ◌++◌, ℕ, true, false, Some, codes};
ghost use Rattle.audit_types.specs.declared.records.Answered.{Answered};
ghost use Rattle.audit_types.specs.History.{IsLegal, IsUndisclosed};
ghost use Rattle.journal_form.specs.Journal.{StandsFor};
ghost use Rattle.line_wire.specs.Lines.{CountedLine};
ghost use Rattle.answer_journal.specs.Moments.{IsMade};
ghost use Rattle.table_load.specs.Cells.{IsSecret};
ghost use Rattle.table_load.specs.Database.{Database, IsDatabase, AreLines, table_in};
ghost use Rattle.audit_session.specs.Stops.{StopsOver, IsBatch};
ghost use Rattle.auditor_top.specs.Commands.{AreSoundFilesOf};
ghost use Rattle.journal_compact.specs.Compactions.{IsUnmadeOrKept};
ghost use Rattle.auditor_top.specs.Compactions.{DecideAlike};
ghost use Rattle.auditor_top.specs.declared.words.Command.TheVariants.{Init, Serve, Audit, Simulate, Drill, Grow, Explain, Compact, Restore};
ghost use Rattle.auditor_top.specs.Words.{command_of, number_of};
ghost use Rattle.auditor_top.specs.Promise.{LivesKeepPromise, LivesGoOn, LivesGrow, GrowthsAreTaken, MadeIsTaken, StopsAreTaken, TwinStopsAreTaken, RunsMakeLives, ServedIsSimulated};
ghost use Rattle.auditor_top.specs.Shown.{TwinsAreShownAlike, TwinsHaveOneReport, LivesTellNothingMore};

// What files without fault mean is a database, its secrets are those of a table, and behind each row is somebody.
fn sound_files()
    ensures database { (schema table : List ℕ) (base : Database) → AreSoundFilesOf schema table base → IsDatabase base }
    ensures secret { (schema table : List ℕ) (base : Database) → AreSoundFilesOf schema table base → IsSecret base.secret }
    ensures lines { (schema table : List ℕ) (base : Database) → AreSoundFilesOf schema table base → AreLines base }
{
    schema_json::laws::columns_of_a_schema();
    table_load::laws::secrets_of_a_table();
    set_index::groups_of_a_schema();
    set_index::lines_of_a_table();
}

/// Every history for which a stop over a legal history of a table leaves an image is a legal history of it, and discloses nothing of
/// it that is guarded.
pub fn stops_are_legal()
    ensures { (schema table before image sent : List ℕ) (base : Database) (batch : ℕ) (history now : List Answered) (lines : List CountedLine)
        → AreSoundFilesOf schema table base → IsLegal (table_in base) history
        → StopsOver base batch history lines before image sent → StandsFor image base.secret.shape now
        → IsLegal (table_in base) now × IsUndisclosed (table_in base) now }
{
    sound_files();
    audit_session::laws::stops();
}

/// What a compaction leaves of a legal history of a table, once it is made, is legal for the table, and every question is decided
/// after it as after the history.
pub fn compactions()
    ensures { (schema table before image sent : List ℕ) (base : Database) (history found : List Answered)
        → AreSoundFilesOf schema table base → IsLegal (table_in base) history → IsUnmadeOrKept base.secret.shape history before image sent
        → IsMade image → StandsFor image base.secret.shape found → DecideAlike (table_in base) history found }
{
    sound_files();
    table_load::lists_of_secrets();
    journal_form::laws::one_reading();
    implied_records::laws::kept_of_legal();
}

/// In every life over a table that lives the last history is legal for the last table, discloses nothing of it that is guarded, and
/// keeps all that was sent. A run makes the life one run longer, which hides what is guarded, leaves it open within ranges, and is decided as over
/// all tables that differ in their secrets alone. The next run of `serve` is given what it has to be given, if all rows of its table are in force, each
/// number is still in its row, and no group of the rows that were there is protected that wasn't.
pub fn lives()
    ensures keep { LivesKeepPromise }
    ensures go_on { LivesGoOn }
    ensures longer { RunsMakeLives }
{
    sound_files();
    table_load::lists_of_secrets();
    audit_session::laws::lives();
    audit_session::laws::hidden();
    audit_session::laws::open_ranges();
    audit_session::laws::followers();
    audit_session::laws::two_worlds();
}

/// Whoever sees every reply of a life, every report and every verdict, learns nothing more from them together: for each number and
/// each protected total other secrets, which differ there, lead the same life, byte for byte, and `audit`, `compact` and `simulate`
/// send of them what they send of the table, whatever the secrets are.
pub fn nothing_more()
    ensures alike { TwinsAreShownAlike }
    ensures one { TwinsHaveOneReport }
    ensures lives { LivesTellNothingMore }
{
    sound_files();
    audit_types::laws::canonical_direction();
    sum_basis::laws::forms_are_unique();
    audit_session::laws::hidden();
    audit_session::laws::lives();
}

/// What `init` made, and what a stop of `serve`, with two journals or one, or of `grow` at any moment left, is never refused: with the
/// files of the table it is what the clauses `served`, `twins_served`, `audited` and `grown` of `run` take, whose ends have no status that
/// refuses it. Nor is what a life left refused by `grow` over a table with more rows that keeps its numbers and its groups; nor what `serve`
/// takes by `simulate`, over the public files of the table.
pub fn never_refused()
    ensures made { MadeIsTaken }
    ensures left { StopsAreTaken }
    ensures twins { TwinStopsAreTaken }
    ensures grown { GrowthsAreTaken }
    ensures grows { LivesGrow }
    ensures simulated { ServedIsSimulated }
{
    stops_are_legal();
    audit_core::laws::released_histories();
    twin_journal::laws::stay_together();
    sound_files();
    table_load::lists_of_secrets();
    audit_session::laws::lives();
    audit_session::laws::followers();
}

/// The plain spellings of the commands are never refused: each command as one word, and `serve` with every number of 1 to 64
/// for a batch, in a word of its own or after `=`, with `--twin` or without, and `drill` with every number of 32 bits.
pub fn plain_words()
    ensures init { command_of (codes "init" ∷ []) ≡ Some Init }
    ensures serve { command_of (codes "serve" ∷ []) ≡ Some (Serve 1 false) }
    ensures twin { command_of (codes "serve" ∷ codes "--twin" ∷ []) ≡ Some (Serve 1 true) }
    ensures audit { command_of (codes "audit" ∷ []) ≡ Some Audit }
    ensures simulate { command_of (codes "simulate" ∷ []) ≡ Some Simulate }
    ensures grow { command_of (codes "grow" ∷ []) ≡ Some Grow }
    ensures explain { command_of (codes "explain" ∷ []) ≡ Some Explain }
    ensures compact { command_of (codes "compact" ∷ []) ≡ Some Compact }
    ensures restore { command_of (codes "restore" ∷ []) ≡ Some Restore }
    ensures batch { (word : List ℕ) (batch : ℕ) → number_of word ≡ Some batch → IsBatch batch
        → command_of (codes "serve" ∷ codes "--batch" ∷ word ∷ []) ≡ Some (Serve batch false) }
    ensures batch_in_one_word { (word : List ℕ) (batch : ℕ) → number_of word ≡ Some batch → IsBatch batch
        → command_of (codes "serve" ∷ (codes "--batch=" ++ word) ∷ []) ≡ Some (Serve batch false) }
    ensures twin_batch { (word : List ℕ) (batch : ℕ) → number_of word ≡ Some batch → IsBatch batch
        → command_of (codes "serve" ∷ codes "--twin" ∷ (codes "--batch=" ++ word) ∷ []) ≡ Some (Serve batch true) }
    ensures drill { (word : List ℕ) (number : ℕ) → number_of word ≡ Some number → number < 2 ^ 32 → command_of (codes "drill" ∷ word ∷ []) ≡ Some (Drill number) }
{}
