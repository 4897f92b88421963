//! How a run ended: its status, with the exit status and the text that the program shows.
ghost use Rattle.std.specs.Prelude.{◌≡◌, IfOk, string_bytes};
ghost use Rattle.auditor_top.specs.Status as spec;

use answer_journal::JournalRefusal;
use audit_types::{NoMemory, Shape};
use question_plan::Due;
use schema_json::SchemaFault;
use std::alloc::Global;
use std::fmt;
use table_load::TableFault;

/// The objects whose calls can fail.
#[derive(Clone, Copy, PartialEq, Eq)]
pub enum Object {
    /// The schema's file.
    Schema,
    /// The table's file.
    Table,
    /// What the lines are read from.
    Input,
    /// The journal's file, and what is sent on: replies, reports and verdicts.
    Bench,
    /// The place of a second journal.
    Spare,
}

/// What the command doesn't take of what it read.
#[derive(Clone, Copy, PartialEq, Eq)]
pub enum Refusal {
    /// The schema's bytes have this fault. It is never that memory ran out.
    BadSchema(SchemaFault),
    /// The table's bytes have this fault. It is never that memory ran out.
    BadTable(TableFault),
    /// The schema's `only` isn't a condition.
    BadOnly,
    /// The first group of the schema, from 0, whose column isn't one of sums, or whose condition is none.
    BadGroup { place: u8 },
    /// The journal isn't gone on from.
    BadJournal(JournalRefusal),
    /// There is a journal or another file where one was to be made.
    AlreadyThere,
    /// The journal has the table's rows, so it can't grow.
    NothingNew { rows: u16 },
    /// The journal on the spare isn't gone on from.
    BadSpare(JournalRefusal),
    /// The journal and the one on the spare hold other records from this place on, from 0.
    TwinsDiffer { place: u32 },
    /// Both journals are made, so none is to be restored.
    NothingLost,
    /// There is a made journal on the spare.
    SpareThere,
    /// The line of the transcript, from 1, that is the first reply which doesn't agree, and the verdict on its question.
    Disagrees { line: u64, due: Due },
}

/// How a run ended. docs/STATUSES.md says what to do at each.
#[derive(Clone, Copy, PartialEq, Eq)]
pub enum Status {
    /// Each step of the command was taken to its end. Of `serve` that is: the input was read, and each line has its reply.
    Done,
    /// The arguments aren't a command.
    BadWords,
    /// A call of this object failed.
    Failed(Object),
    /// The input has more than 2^30 bytes.
    InputLimit,
    /// Memory ran out.
    NoMemory,
    /// What was read isn't what the command takes.
    Refused(Refusal),
}

// Where a fault of the table is, as it is reported after the fault's number.
#[derive(Clone, Copy, Drop)]
struct Place(TableFault);

impl fmt::Display for Place {
    ghost use Rattle.std.specs.Prelude.{Some};
    ghost use Rattle.auditor_top.specs.Status.{place_text};

    ghost output = { λ place. Some (place_text place.0) };

    fn fmt<W: fmt::Write>(&self, f: &mut fmt::Formatter<W>) -> fmt::Result {
        match self.0 {
            TableFault::Length { line } | TableFault::NotText { line } => {
                write!(f, " at line {line}")
            }
            TableFault::NotNumber { line, column } | TableFault::OutOfRange { line, column } => {
                write!(f, " at line {line} column {column}")
            }
            TableFault::TooLong
            | TableFault::Header
            | TableFault::TooManyRows
            | TableFault::NoRows
            | TableFault::NoMemory => f.write_str(""),
        }
    }
}

// What is told of an object of which a call failed.
fn failure_text(object: Object) -> &'static str
    ensures { result.now ≡ spec.failure_text object }
{
    match object {
        Object::Schema => "cannot read schema",
        Object::Table => "cannot read table",
        Object::Input => "cannot read input",
        Object::Bench => "journal or output failed",
        Object::Spare => "spare failed",
    }
}

// The group that keeps a record's question from being released, if it is one.
#[derive(Clone, Copy, Drop)]
struct Blamed(Option<u8>);

impl fmt::Display for Blamed {
    ghost use Rattle.std.specs.Prelude.{Some};
    ghost use Rattle.auditor_top.specs.Status.{blamed_text};

    ghost output = { λ b. Some (blamed_text b.0) };

    fn fmt<W: fmt::Write>(&self, f: &mut fmt::Formatter<W>) -> fmt::Result {
        match self.0 {
            Some(group) => write!(f, ": group {group}"),
            None => f.write_str(""),
        }
    }
}

// A journal that isn't gone on from, as it is reported.
#[derive(Clone, Copy, Drop)]
struct Unread(JournalRefusal);

impl fmt::Display for Unread {
    ghost use Rattle.std.specs.Prelude.{Some};
    ghost use Rattle.auditor_top.specs.Status.{journal_text};

    ghost output = { λ unread. Some (journal_text unread.0) };

    fn fmt<W: fmt::Write>(&self, f: &mut fmt::Formatter<W>) -> fmt::Result {
        match &self.0 {
            JournalRefusal::NotMade => f.write_str("no journal"),
            JournalRefusal::Damaged { at } => write!(f, "journal damaged at byte {at}"),
            JournalRefusal::OtherShape { kept, now } => write!(
                f,
                "journal is of another table: rows {}, now {}",
                kept.rows, now.rows
            ),
            JournalRefusal::Untrue { place, kept, now } => {
                write!(f, "record {place} holds {kept}, table gives {now}")
            }
            JournalRefusal::Illegal { place, group } => write!(
                f,
                "record {place} should not have been released{}",
                Blamed(*group)
            ),
        }
    }
}

impl fmt::Display for Refusal {
    ghost use Rattle.std.specs.Prelude.{Some};
    ghost use Rattle.auditor_top.specs.Status.{refusal_text};

    ghost output = { λ refusal. Some (refusal_text refusal) };

    fn fmt<W: fmt::Write>(&self, f: &mut fmt::Formatter<W>) -> fmt::Result {
        match *self {
            Refusal::BadSchema(fault) => write!(f, "schema: fault {}", fault.number()),
            Refusal::BadTable(fault) => {
                write!(f, "table: fault {}{}", fault.number(), Place(fault))
            }
            Refusal::BadOnly => f.write_str("schema: only is bad"),
            Refusal::BadGroup { place } => write!(f, "schema: group {place} is bad"),
            Refusal::BadJournal(refusal) => Unread(refusal).fmt(f),
            Refusal::AlreadyThere => f.write_str("journal is already there"),
            Refusal::NothingNew { rows } => write!(f, "nothing to grow: rows {rows}"),
            Refusal::BadSpare(refusal) => write!(f, "spare: {}", Unread(refusal)),
            Refusal::TwinsDiffer { place } => write!(f, "journals differ at record {place}"),
            Refusal::NothingLost => f.write_str("no journal is lost"),
            Refusal::SpareThere => f.write_str("spare is already there"),
            Refusal::Disagrees { line, due } => write!(f, "line {line} disagrees, due {due}"),
        }
    }
}

impl fmt::Display for Status {
    ghost use Rattle.std.specs.Prelude.{Some};
    ghost use Rattle.auditor_top.specs.Status.{status_text};

    ghost output = { λ s. Some (status_text s) };

    fn fmt<W: fmt::Write>(&self, f: &mut fmt::Formatter<W>) -> fmt::Result {
        match *self {
            Status::Done => f.write_str(""),
            Status::BadWords => f.write_str(
                "usage: auditor init, serve [--batch N] [--twin], audit, simulate, drill N, grow, explain, compact, restore",
            ),
            Status::Failed(object) => f.write_str(failure_text(object)),
            Status::InputLimit => f.write_str("input is too long"),
            Status::NoMemory => f.write_str("out of memory"),
            Status::Refused(refusal) => refusal.fmt(f),
        }
    }
}

// The exit status over a journal that isn't gone on from.
fn journal_code(refusal: JournalRefusal) -> u8
    ensures { result ≡ spec.journal_code refusal }
{
    match refusal {
        JournalRefusal::NotMade => 7,
        JournalRefusal::Damaged { .. } => 9,
        JournalRefusal::OtherShape { .. } => 10,
        JournalRefusal::Untrue { .. } => 11,
        JournalRefusal::Illegal { .. } => 12,
    }
}

// The exit status of a refusal.
fn refusal_code(refusal: Refusal) -> u8
    ensures { result ≡ spec.refusal_code refusal }
{
    match refusal {
        Refusal::BadSchema(_) => 3,
        Refusal::BadTable(_) => 4,
        Refusal::BadOnly | Refusal::BadGroup { .. } => 16,
        Refusal::BadJournal(refusal) => journal_code(refusal),
        Refusal::AlreadyThere => 8,
        Refusal::NothingNew { .. } => 17,
        Refusal::BadSpare(_) => 20,
        Refusal::TwinsDiffer { .. } => 21,
        Refusal::NothingLost => 22,
        Refusal::SpareThere => 18,
        Refusal::Disagrees { .. } => 14,
    }
}

/// The exit status of the program.
pub fn status_code(status: &Status) -> u8
    ensures { result ≡ spec.status_code status.now }
{
    match *status {
        Status::Done => 0,
        Status::BadWords => 2,
        Status::Failed(Object::Bench) => 6,
        Status::Failed(Object::Spare) => 19,
        Status::Failed(_) => 5,
        Status::InputLimit => 13,
        Status::NoMemory => 15,
        Status::Refused(refusal) => refusal_code(refusal),
    }
}

/// What the program tells of a status, without a line feed.
pub fn status_text(alloc: Global, status: &Status) -> Result<String, NoMemory>
    ensures { IfOk result (λ text. string_bytes text ≡ spec.status_text status.now) }
{
    match status.to_string(alloc) {
        Ok(text) => Ok(text),
        Err(_) => Err(NoMemory),
    }
}
