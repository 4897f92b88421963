//! Files that are read from their start, and standard input.
ghost use Rattle.std.specs.Prelude.{◌≡◌, [], false};
ghost use Rattle.std.specs.Io.{ReadsAtMost};

use crate::counting::{Faults, count_error, read_on};
use bench_core::{Failed, Source};
use std::fs::Files;
use std::io::Read;
use std::{fs, io};

/// A file that is read from its start to its end, opened at the first read.
#[derive(Drop)]
pub struct FileSource<'a, R: Files> {
    rt: &'a R,
    path: &'static str,
    file: Option<R::File>,
    faults: Faults,
}

impl<'a, R: Files> FileSource<'a, R> {
    /// The file at a path. Nothing is opened yet.
    pub fn new(rt: &'a R, path: &'static str) -> Self
        ensures fresh { (result.faults.count ≡ 0) × (result.faults.last ≡ false) }
        ensures path { result.path.now ≡ path.now }
    {
        FileSource {
            rt,
            path,
            file: None,
            faults: Faults::none(),
        }
    }
}

fn read_file<R: Files>(
    rt: &R,
    path: &str,
    file: &mut Option<R::File>,
    buf: &mut [u8],
) -> io::Result<usize>
    ensures { ReadsAtMost result buf.new }
{
    match file {
        Some(file) => read_on(file, buf),
        None => {
            let mut opened = fs::open(rt, path)?;
            let count = read_on(&mut opened, buf)?;
            *file = Some(opened);
            Ok(count)
        }
    }
}

impl<R: Files> Source for FileSource<'_, R> {
    ghost told = { ⊥ };

    ghost left = { λ _. [] };

    ghost faults = { λ s. s.faults.count };

    ghost last_failed = { λ s. s.faults.last };

    fn read(&mut self, buf: &mut [u8]) -> Result<usize, Failed> {
        count_error(
            read_file(self.rt, self.path, &mut self.file, buf),
            &mut self.faults,
        )
    }
}

/// Standard input, or any reader.
#[derive(Drop)]
pub struct InputSource<I: Read + Drop> {
    reader: I,
    faults: Faults,
}

impl<I: Read + Drop> InputSource<I> {
    /// What the reader gives. Nothing is read yet.
    pub fn new(reader: I) -> Self
        ensures fresh { (result.faults.count ≡ 0) × (result.faults.last ≡ false) }
    {
        InputSource {
            reader,
            faults: Faults::none(),
        }
    }
}

impl<I: Read + Drop> Source for InputSource<I> {
    ghost told = { ⊥ };

    ghost left = { λ _. [] };

    ghost faults = { λ s. s.faults.count };

    ghost last_failed = { λ s. s.faults.last };

    fn read(&mut self, buf: &mut [u8]) -> Result<usize, Failed> {
        count_error(read_on(&mut self.reader, buf), &mut self.faults)
    }
}
