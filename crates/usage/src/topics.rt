//! The commands, and what is said of each.
ghost use Rattle.std.specs.Prelude.{◌≡◌};
ghost use Rattle.usage.specs.Usage as spec;

use std::fmt;

/// A command of the program, as something to tell of.
#[derive(Clone, Copy, PartialEq, Eq, Drop)]
pub enum Topic {
    Init,
    Serve,
    Audit,
    Explain,
    Simulate,
    Grow,
    Compact,
    Restore,
    Drill,
}

/// The command of this name.
pub(crate) fn topic_of(word: &str) -> Option<Topic>
    ensures { result ≡ spec.topic_of word.now }
{
    match word {
        "init" => Some(Topic::Init),
        "serve" => Some(Topic::Serve),
        "audit" => Some(Topic::Audit),
        "explain" => Some(Topic::Explain),
        "simulate" => Some(Topic::Simulate),
        "grow" => Some(Topic::Grow),
        "compact" => Some(Topic::Compact),
        "restore" => Some(Topic::Restore),
        "drill" => Some(Topic::Drill),
        _ => None,
    }
}

// The command and its options, as they are written.
fn form_of(topic: Topic) -> &'static str
    ensures { result.now ≡ spec.form_of topic }
{
    match topic {
        Topic::Init => "init",
        Topic::Serve => "serve [--batch N] [--twin]",
        Topic::Audit => "audit",
        Topic::Explain => "explain",
        Topic::Simulate => "simulate",
        Topic::Grow => "grow",
        Topic::Compact => "compact",
        Topic::Restore => "restore",
        Topic::Drill => "drill N",
    }
}

// What the command does, in a few words, set off so far that all stand below one another.
fn summary_of(topic: Topic) -> &'static str
    ensures { result.now ≡ spec.summary_of topic }
{
    match topic {
        Topic::Init => "                         make the journal of a table, once",
        Topic::Serve => "   answer or deny the questions of standard input",
        Topic::Audit => "                        show each secret number to be open",
        Topic::Explain => "                      tell why questions are denied",
        Topic::Simulate => "                     compute the verdicts on a transcript again",
        Topic::Grow => "                         take over rows that came at the table's end",
        Topic::Compact => "                      write a shorter journal to answers.spare",
        Topic::Restore => "                      write the lost one of two journals anew",
        Topic::Drill =>
            "                      take a drawn table and 600 questions through the program",
    }
}

// What the command takes and gives.
fn what_of(topic: Topic) -> &'static str
    ensures { result.now ≡ spec.what_of topic }
{
    match topic {
        Topic::Init => {
            "Makes answers.journal for the table of schema.json and table.csv. It is done once."
        }
        Topic::Serve => {
            "Takes questions on standard input, a line of JSON each, and sends a reply for each line. Each answer is in the journal before its reply is sent."
        }
        Topic::Audit => {
            "Sends a report of the journal: for each secret number, numbers of a whole column that give the same answers and have another one there."
        }
        Topic::Explain => {
            "Takes questions on standard input, and sends for each what would be said of it. Nothing is asked, and nothing is kept."
        }
        Topic::Simulate => {
            "Takes questions and the replies that were shown, in turn, a line each, and sends the verdict on each question, computed without a secret."
        }
        Topic::Grow => {
            "Writes into the journal how many rows the table has now, so that `auditor serve` goes on over all of them."
        }
        Topic::Compact => {
            "Writes those records of the journal that the others don't imply to answers.spare. Every question is decided after them as after all."
        }
        Topic::Restore => {
            "Writes the one of answers.journal and answers.spare that is lost, or isn't there yet, anew from the other."
        }
        Topic::Drill => {
            "Draws a table and 600 questions from the number N, 0 to 4294967295, and sends one line that counts the answers and the denials."
        }
    }
}

// What else is to be known of it.
fn note_of(topic: Topic) -> &'static str
    ensures { result.now ≡ spec.note_of topic }
{
    match topic {
        Topic::Init => { "Then start `auditor serve`." }
        Topic::Serve => {
            "With --batch N up to N lines, 1 to 64, are answered as a group. With --twin each answer is in answers.spare too, before its reply is sent."
        }
        Topic::Audit => {
            "Anyone can check the report by its columns and the answers alone. It is the owner's: it shows answers that somebody else was given."
        }
        Topic::Explain => {
            "A question that is denied as unsafe has a certificate: how answers are to be counted so that one person's value is left."
        }
        Topic::Simulate => {
            "table.csv holds the public columns alone. A journal beside it comes first, if there is one. It ends at the first reply that wasn't due."
        }
        Topic::Grow => {
            "Each answer is tested against the table first. The earlier rows keep their places."
        }
        Topic::Compact => {
            "answers.journal isn't written. demo/replace.sh puts the shorter one in its place."
        }
        Topic::Restore => { "The other one is checked as by `auditor serve --twin`, and stays." }
        Topic::Drill => { "No file is read or written. The line is the same on every machine." }
    }
}

// The line of a command in the list of all.
#[derive(Clone, Copy, Drop)]
pub(crate) struct Row(pub Topic);

impl fmt::Display for Row {
    ghost use Rattle.std.specs.Prelude.{Some};
    ghost use Rattle.usage.specs.Usage.{row_of};

    ghost output = { λ r. Some (row_of r.0) };

    fn fmt<W: fmt::Write>(&self, f: &mut fmt::Formatter<W>) -> fmt::Result {
        write!(f, "  {}{}\n", form_of(self.0), summary_of(self.0))
    }
}

impl fmt::Display for Topic {
    ghost use Rattle.std.specs.Prelude.{Some};
    ghost use Rattle.usage.specs.Usage.{page_of};

    ghost output = { λ topic. Some (page_of topic) };

    fn fmt<W: fmt::Write>(&self, f: &mut fmt::Formatter<W>) -> fmt::Result {
        write!(
            f,
            "usage: auditor {}\n{}\n{}",
            form_of(*self),
            what_of(*self),
            note_of(*self)
        )
    }
}
