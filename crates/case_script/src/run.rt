//! A run of the program, as a script says it.
use crate::contents::{add_pieces, bytes_of};
use crate::due::Due;
use crate::keys::Keys;
use crate::over::Over;
use crate::pieces::Piece;
use crate::value_kind::ValueKind;
use anyhow::{Context, Result, bail};
use std::alloc::Global;
use toml::Value;

const KEYS: [(&str, ValueKind); 22] = [
    ("shows", ValueKind::Text),
    ("words", ValueKind::List),
    ("schema", ValueKind::Contents),
    ("table", ValueKind::Contents),
    ("journal", ValueKind::Contents),
    ("spare", ValueKind::Contents),
    ("over", ValueKind::Text),
    ("terminal", ValueKind::Text),
    ("input", ValueKind::Contents),
    ("sent", ValueKind::Contents),
    ("piece", ValueKind::Count),
    ("fails", ValueKind::Table),
    ("ends", ValueKind::List),
    ("file", ValueKind::Contents),
    ("stays", ValueKind::Flag),
    ("crash", ValueKind::Table),
    ("spare_file", ValueKind::Contents),
    ("spare_crash", ValueKind::Table),
    ("calls", ValueKind::Count),
    ("spare_calls", ValueKind::Count),
    ("each", ValueKind::Table),
    ("differs", ValueKind::Flag),
];

/// The journal's file at the start of a run.
#[derive(Drop)]
pub enum Start {
    Journal(Vec<u8>),
    /// What the run before left.
    After(Over),
    /// The spare that the run before left, in the journal's place.
    Spare,
}

/// A run of the program, and what is due.
#[derive(Drop)]
pub struct Run {
    pub shows: String,
    /// Whether it is there to differ.
    pub differs: bool,
    /// The arguments after the program's name.
    pub words: Vec<String>,
    pub schema: Vec<Piece>,
    pub table: Vec<Piece>,
    /// The most bytes that a source gives at a read.
    pub most: usize,
    pub start: Start,
    /// The spare's file at the start, if it is given.
    pub spare: Option<Vec<u8>>,
    pub due: Due,
}

impl Run {
    /// Reads a run; what stands before the runs is common to all.
    pub(crate) fn of(rt: &HostRuntime, common: Keys, value: &Value) -> Result<Run> {
        let own = Keys::of_value(value, &KEYS)?;
        let due = Due::of(rt, common, own)?;
        let mut run = Run::new(rt.alloc(), own, due);
        run.read(rt, common, own).and(Ok(run))
    }

    fn new(alloc: Global, own: Keys, due: Due) -> Run {
        Run {
            shows: String::new(alloc),
            differs: own.flag("differs"),
            words: Vec::new(alloc),
            schema: Vec::new(alloc),
            table: Vec::new(alloc),
            most: own.most(),
            start: Start::Journal(Vec::new(alloc)),
            spare: None,
            due,
        }
    }

    // Reads what it shows, the arguments, and the files at the start.
    fn read(&mut self, rt: &HostRuntime, common: Keys, own: Keys) -> Result<()> {
        self.read_words(rt.alloc(), common, own)?;
        add_pieces(rt, own.value_or(common, "schema"), &mut self.schema)?;
        add_pieces(rt, own.value_or(common, "table"), &mut self.table)?;
        self.start = start_of(rt, common, own)?;
        self.spare = spare_of(rt, common, own)?;
        Ok(())
    }

    fn read_words(&mut self, alloc: Global, common: Keys, own: Keys) -> Result<()> {
        let shows = own.text("shows").context("it doesn't say what it shows")?;
        self.shows.push_str(shows)?;
        match own.list("words").or(common.list("words")) {
            Some(given) => add_texts(&mut self.words, given),
            None => Ok(self.words.push(String::from_str(alloc, "serve")?)?),
        }
    }
}

fn start_of(rt: &HostRuntime, common: Keys, own: Keys) -> Result<Start> {
    match own.text("over") {
        Some("spare") => Ok(Start::Spare),
        Some(word) => Ok(Start::After(Over::of(word).context(format_args!("over {word}"))?)),
        None => Ok(Start::Journal(bytes_of(rt, own.value_or(common, "journal"))?)),
    }
}

fn spare_of(rt: &HostRuntime, common: Keys, own: Keys) -> Result<Option<Vec<u8>>> {
    match own.value_or(common, "spare") {
        Some(contents) => Ok(Some(bytes_of(rt, Some(contents))?)),
        None => Ok(None),
    }
}

fn add_texts(texts: &mut Vec<String>, values: &[Value]) -> Result<()> {
    for value in values {
        match value {
            Value::String(text) => texts.push(text.clone()?)?,
            _ => bail!("a word is a text"),
        }
    }
    Ok(())
}
