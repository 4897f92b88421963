//! The adapters over real files.
use bench_core::{Bench, Failed, Source};
use file_adapters::{FileBench, FileSource, InputSource};
use std::io::{ErrorKind, Read};
use std::os::unix::fs::MetadataExt;
use std::{fs, io};

// Writes over a part of what was written, and syncs: whether each call was done.
fn writes(bench: &mut FileBench<'_, HostRuntime>) -> [bool; 3] {
    [
        bench.write_at(0, b"abcd").is_ok(),
        bench.write_at(2, b"xyz").is_ok(),
        bench.sync().is_ok(),
    ]
}

// Whether each call on the journal's file was done.
fn tries(bench: &mut FileBench<'_, HostRuntime>) -> [bool; 4] {
    [
        bench.length().is_ok(),
        bench.read_at(0, &mut [0; 8]).is_ok(),
        bench.write_at(0, b"no").is_ok(),
        bench.sync().is_ok(),
    ]
}

// The length of the journal's file, and what stands in it after its first byte.
type Found = (Result<u64, Failed>, Result<usize, Failed>, [u8; 8]);

fn found(bench: &mut FileBench<'_, HostRuntime>) -> Found {
    let mut bytes = [0; 8];
    (bench.length(), bench.read_at(1, &mut bytes), bytes)
}

// What is done by a bench on this file, and by a second one while that has the file.
fn beside(
    rt: &HostRuntime,
    path: &'static str,
    second: &mut FileBench<'_, HostRuntime>,
) -> ([bool; 3], [bool; 4]) {
    let mut first = FileBench::new(rt, path);
    (writes(&mut first), tries(second))
}

// The same, and what the second one then finds alone.
fn one_after_another(rt: &HostRuntime, path: &'static str) -> ([bool; 3], [bool; 4], Found) {
    let mut second = FileBench::new(rt, path);
    let (written, tried) = beside(rt, path, &mut second);
    (written, tried, found(&mut second))
}

// Whether the owner alone may read a file, and write it.
fn is_private(rt: &HostRuntime, path: &str) -> bool {
    fs::metadata(rt, path).is_ok_and(|file| file.mode() & 0o777 == 0o600)
}

#[test]
fn one_open_at_a_time_and_what_was_synced_is_there_again(rt: HostRuntime) {
    let _ = fs::remove_file(&rt, "real.journal");
    let (written, tried, found) = one_after_another(&rt, "real.journal");
    assert!(rt; written == [true; 3]);
    assert!(rt; tried == [false; 4]);
    assert!(rt; found == (Ok(5), Ok(4), *b"bxyz\0\0\0\0"));
    assert!(rt; is_private(&rt, "real.journal"));
}

/// Is interrupted by a signal, gives two bytes, and is then gone.
#[derive(Drop)]
struct Interrupted {
    turn: u8,
}

impl Read for Interrupted {
    fn read(&mut self, buf: &mut [u8]) -> io::Result<usize> {
        self.turn = self.turn.saturating_add(1);
        match self.turn {
            1 => Err(io::Error::from(ErrorKind::Interrupted)),
            2 => Ok(buf.len().min(2)),
            _ => Err(io::Error::from(ErrorKind::BrokenPipe)),
        }
    }
}

fn two_reads<S: Source + Drop>(mut source: S) -> [Result<usize, Failed>; 2] {
    let mut buf = [0; 8];
    [source.read(&mut buf), source.read(&mut buf)]
}

#[test]
fn an_interrupted_read_goes_on(rt: HostRuntime) {
    let input = InputSource::new(Interrupted { turn: 0 });
    assert!(rt; two_reads(input) == [Ok(2), Err(Failed)]);
}

fn two_reads_of(rt: &HostRuntime, path: &'static str) -> [Result<usize, Failed>; 2] {
    two_reads(FileSource::new(rt, path))
}

#[test]
fn a_file_is_read_to_its_end_and_a_missing_one_fails(rt: HostRuntime) {
    assert!(rt; fs::write(&rt, "short.csv", b"abc".as_slice()).is_ok());
    assert!(rt; two_reads_of(&rt, "short.csv") == [Ok(3), Ok(0)]);
    assert!(rt; two_reads_of(&rt, "missing.csv") == [Err(Failed); 2]);
}
