//! What the arguments ask to be shown.
ghost use Rattle.std.specs.Prelude.{◌≡◌, map, string_bytes};
ghost use Rattle.usage.specs.Usage as spec;

use crate::topics::{Row, Topic, topic_of};
use std::fmt;

/// What the program shows of itself.
#[derive(Clone, Copy, PartialEq, Eq, Drop)]
pub enum Shown {
    /// The list of its commands.
    Commands,
    /// One command.
    Command(Topic),
    /// Its name and version.
    Version,
}

// What one argument asks for.
fn alone(word: &str) -> Option<Shown>
    ensures { result ≡ spec.alone word.now }
{
    match word {
        "--help" | "-h" | "help" => Some(Shown::Commands),
        "--version" => Some(Shown::Version),
        _ => None,
    }
}

/// What the arguments ask to be shown: `--help`, `-h` and `help` the commands, `help COMMAND` one of them, `--version` the version. All
/// other arguments ask for nothing of the kind.
pub fn shown_of(words: &[String]) -> Option<Shown>
    ensures { result ≡ spec.shown_of (map string_bytes words.now) }
{
    match words {
        [word] => alone(word),
        [word, topic] if word.as_str() == "help" => Some(Shown::Command(topic_of(topic)?)),
        _ => None,
    }
}

impl fmt::Display for Shown {
    ghost use Rattle.std.specs.Prelude.{Some};
    ghost use Rattle.usage.specs.Usage.{text_of};

    ghost output = { λ shown. Some (text_of shown) };

    fn fmt<W: fmt::Write>(&self, f: &mut fmt::Formatter<W>) -> fmt::Result {
        match self {
            Shown::Commands => write!(
                f,
                "usage: auditor COMMAND\n\n{}{}{}{}{}{}{}{}{}\n{}\n{}",
                Row(Topic::Init),
                Row(Topic::Serve),
                Row(Topic::Audit),
                Row(Topic::Explain),
                Row(Topic::Simulate),
                Row(Topic::Grow),
                Row(Topic::Compact),
                Row(Topic::Restore),
                Row(Topic::Drill),
                "It works in the folder that it is started in, on schema.json, table.csv and answers.journal.",
                "`auditor help COMMAND` says more of a command. To ask in words, use front/ask.py."
            ),
            Shown::Command(topic) => topic.fmt(f),
            Shown::Version => f.write_str("auditor 0.13.2"),
        }
    }
}
