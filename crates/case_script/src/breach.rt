//! What is wrong with a run that a fault befell.
use std::fmt;

/// What is wrong with a run that a fault befell at a call, and with a file that it may leave.
#[derive(Clone, Copy)]
pub enum Breach {
    OtherStatus,
    OtherReplies,
    NoHistory,
    Unrecorded,
    OtherAnswers,
    SpareWritten,
    PartlyMade,
    SentTooSoon,
    OtherSpare,
    NotOneHistory,
}

impl fmt::Display for Breach {
    fn fmt<W: fmt::Write>(&self, f: &mut fmt::Formatter<W>) -> fmt::Result {
        f.write_str(match self {
            Breach::OtherStatus => "the run ended with another status",
            Breach::OtherReplies => "what was sent is no front of the replies due",
            Breach::NoHistory => "the file is none of the histories",
            Breach::Unrecorded => "a reply was sent whose record isn't in the file",
            Breach::OtherAnswers => "the lines asked then aren't answered as due",
            Breach::SpareWritten => "the spare isn't as it was",
            Breach::PartlyMade => "the spare is made, and isn't whole",
            Breach::SentTooSoon => "a byte was sent, and the spare isn't whole",
            Breach::OtherSpare => "the spare is none of those that may stand beside the journal",
            Breach::NotOneHistory => "the run after it doesn't bring both journals to one history",
        })
    }
}
