//! The program: the real files, standard input and standard output under the top call; and what it says of itself.
#![tactic(auto)]

use auditor_top::{Object, Status, run, status_code, status_text};
use file_adapters::{FileBench, FileSource, InputSource, hold_streams};
use std::io;
use std::process::ExitCode;
use usage::{Shown, shown_of};

const JOURNAL: &str = "answers.journal";

fn main(rt: HostRuntime) -> ExitCode {
    hold_streams(&rt);
    match words_of(&rt) {
        Ok(words) if words.is_empty() => list_commands(&rt),
        Ok(words) => end(&rt, show_or_run(&rt, &words)),
        Err(error) if error.kind() == io::ErrorKind::OutOfMemory => end(&rt, Status::NoMemory),
        // An argument that isn't text is in no command.
        Err(_) => end(&rt, Status::BadWords),
    }
}

// Without arguments the commands are told, each with its line, as what is wrong.
fn list_commands(rt: &HostRuntime) -> ExitCode {
    let _ = eprintln!(rt; "{}", Shown::Commands);
    ExitCode::from(status_code(&Status::BadWords))
}

// The exit status, after the text of what went wrong.
fn end(rt: &HostRuntime, status: Status) -> ExitCode {
    if status != Status::Done {
        tell(rt, &status);
    }
    ExitCode::from(status_code(&status))
}

// Shows what the arguments ask to be shown, and else runs the command that they are.
fn show_or_run(rt: &HostRuntime, words: &Vec<String>) -> Status {
    match shown_of(words.as_slice()) {
        Some(shown) => show(rt, &shown),
        None => run_on_files(rt, words),
    }
}

// Prints a text to standard output.
fn show(rt: &HostRuntime, shown: &Shown) -> Status {
    match println!(rt; "{shown}") {
        Ok(()) => Status::Done,
        Err(_) => Status::Failed(Object::Bench),
    }
}

// The arguments after the program's name.
fn words_of(rt: &HostRuntime) -> io::Result<Vec<String>> {
    let mut words = Vec::new(rt.alloc());
    for word in std::env::args(rt)?.skip(1) {
        words.push(word)?;
    }
    Ok(words)
}

// The commands that only read the journal, so that a copy will do that may only be read. No other command has these arguments.
const READERS: [&str; 3] = ["audit", "explain", "simulate"];

fn journal<'a>(rt: &'a HostRuntime, words: &Vec<String>) -> FileBench<'a, HostRuntime> {
    if words.iter().any(|word| READERS.contains(&word.as_str())) {
        FileBench::to_read(rt, JOURNAL)
    } else {
        FileBench::new(rt, JOURNAL)
    }
}

// Runs over the files of the program's folder.
fn run_on_files(rt: &HostRuntime, words: &Vec<String>) -> Status {
    let mut schema = FileSource::new(rt, "schema.json");
    let mut table = FileSource::new(rt, "table.csv");
    let mut input = InputSource::new(rt.stdin());
    let mut bench = journal(rt, words);
    // Only `compact` and the commands for twins call it, after the journal, and a bench that isn't called opens no file. A link
    // may lead to another disk.
    let mut spare = FileBench::following(rt, rt.alloc(), "answers.spare");
    run(
        rt.alloc(),
        words,
        &mut schema,
        &mut table,
        &mut input,
        &mut bench,
        &mut spare,
    )
}

// Prints the text of a status to standard error, if there is memory for it.
fn tell(rt: &HostRuntime, status: &Status) {
    if let Ok(text) = status_text(rt.alloc(), status) {
        let _ = eprintln!(rt; "{text}");
    }
}
