//! What befalls the journal's name and its length, while a bench has it and before one opens it.
use bench_core::{Bench, Failed};
use file_adapters::FileBench;
use std::fs::{OpenOptions, Permissions};
use std::io::Write;
use std::os::unix::fs::{PermissionsExt, symlink};
use std::{fs, io};

const JOURNAL: &str = "named.journal";

const OTHER: &str = "other.journal";

// What somebody else does to the journal, or puts in its place.
#[derive(Clone, Copy, Debug)]
enum Deed {
    Nothing,
    RenamesAnotherOverIt,
    RemovesIt,
    LinksToIt,
    CutsItOff,
    WritesBehindIt,
    LinksToAnother,
    LinksToNothing,
    MakesAFolder,
    ShutsIt,
}

fn remove_all(rt: &HostRuntime) {
    let _ = fs::remove_file(rt, JOURNAL);
    let _ = fs::remove_file(rt, OTHER);
    let _ = fs::remove_dir(rt, JOURNAL);
}

// The journal of three bytes, and another one, as long as the journal is once two bytes more are written to it.
fn prepare(rt: &HostRuntime) -> io::Result<()> {
    remove_all(rt);
    fs::write(rt, JOURNAL, b"abc".as_slice())?;
    fs::write(rt, OTHER, b"vwxyz".as_slice())
}

fn write_behind(rt: &HostRuntime) -> io::Result<()> {
    let mut file = OpenOptions::new().append(true).open(rt, JOURNAL)?;
    file.write_all(b"d")
}

fn put_link(rt: &HostRuntime, to: &str) -> io::Result<()> {
    fs::remove_file(rt, JOURNAL)?;
    symlink(rt, to, JOURNAL)
}

fn put_folder(rt: &HostRuntime) -> io::Result<()> {
    fs::remove_file(rt, JOURNAL)?;
    fs::create_dir(rt, JOURNAL)
}

fn does(rt: &HostRuntime, deed: Deed) -> io::Result<()> {
    match deed {
        Deed::Nothing => Ok(()),
        Deed::RenamesAnotherOverIt => fs::rename(rt, OTHER, JOURNAL),
        Deed::RemovesIt => fs::remove_file(rt, JOURNAL),
        Deed::LinksToIt => {
            fs::rename(rt, JOURNAL, OTHER)?;
            symlink(rt, OTHER, JOURNAL)
        }
        Deed::CutsItOff => OpenOptions::new().write(true).open(rt, JOURNAL)?.set_len(2),
        Deed::WritesBehindIt => write_behind(rt),
        Deed::LinksToAnother => put_link(rt, OTHER),
        Deed::LinksToNothing => put_link(rt, "nothing.journal"),
        Deed::MakesAFolder => put_folder(rt),
        Deed::ShutsIt => fs::set_permissions(rt, JOURNAL, Permissions::from_mode(0o400)),
    }
}

// Whether a bench that has the journal open still writes it after the deed, and still syncs it.
fn after(rt: &HostRuntime, deed: Deed) -> (bool, bool) {
    let mut bench = FileBench::new(rt, JOURNAL);
    if prepare(rt).is_err() || bench.length() != Ok(3) || does(rt, deed).is_err() {
        return (true, true);
    }
    (bench.write_at(3, b"de").is_ok(), bench.sync().is_ok())
}

#[test]
fn a_bench_goes_on_over_the_file_of_the_name_alone(rt: HostRuntime) {
    let cases = [
        (Deed::Nothing, (true, true)),
        (Deed::RenamesAnotherOverIt, (true, false)),
        (Deed::RemovesIt, (true, false)),
        (Deed::LinksToIt, (true, false)),
        (Deed::CutsItOff, (false, false)),
        (Deed::WritesBehindIt, (false, false)),
    ];
    for (deed, wanted) in cases {
        assert!(rt; after(&rt, deed) == wanted, "{deed:?}");
    }
}

// The length that a bench finds after the deed, and whether it writes.
fn opens(mut bench: FileBench<'_, HostRuntime>) -> (Result<u64, Failed>, bool) {
    (bench.length(), bench.write_at(0, b"no").is_ok())
}

fn opens_after(rt: &HostRuntime, deed: Deed) -> (Result<u64, Failed>, bool) {
    if prepare(rt).is_err() || does(rt, deed).is_err() {
        return (Ok(0), true);
    }
    opens(FileBench::new(rt, JOURNAL))
}

// Whether the file that a link might lead to is as it was, and nothing was made where one leads to nothing.
fn is_untouched(rt: &HostRuntime) -> bool {
    let is_other = fs::read_to_string(rt, OTHER).is_ok_and(|text| text.as_str() == "vwxyz");
    is_other && fs::metadata(rt, "nothing.journal").is_err()
}

#[test]
fn no_link_is_followed_and_nothing_but_a_file_is_opened(rt: HostRuntime) {
    let cases = [
        (Deed::Nothing, (Ok(3), true)),
        (Deed::RemovesIt, (Ok(0), true)),
        (Deed::LinksToAnother, (Err(Failed), false)),
        (Deed::LinksToNothing, (Err(Failed), false)),
        (Deed::MakesAFolder, (Err(Failed), false)),
        (Deed::ShutsIt, (Err(Failed), false)),
    ];
    for (deed, wanted) in cases {
        assert!(rt; opens_after(&rt, deed) == wanted, "{deed:?}");
        assert!(rt; is_untouched(&rt), "{deed:?}");
    }
    remove_all(&rt);
}

// The length that a bench finds where there is no file, and whether it writes after the deed.
fn makes_after(rt: &HostRuntime, deed: Deed) -> (Result<u64, Failed>, bool) {
    let mut bench = FileBench::new(rt, JOURNAL);
    if prepare(rt).is_err() || fs::remove_file(rt, JOURNAL).is_err() {
        return (Err(Failed), true);
    }
    let length = bench.length();
    let is_done = does(rt, deed).is_ok();
    (length, !is_done || bench.write_at(0, b"no").is_ok())
}

// Whether the journal has these bytes.
fn has(rt: &HostRuntime, bytes: &str) -> bool {
    fs::read_to_string(rt, JOURNAL).is_ok_and(|text| text.as_str() == bytes)
}

#[test]
fn a_bench_that_found_no_file_makes_one_and_opens_none_that_came(rt: HostRuntime) {
    assert!(rt; makes_after(&rt, Deed::Nothing) == (Ok(0), true));
    assert!(rt; has(&rt, "no"));
    assert!(rt; makes_after(&rt, Deed::RenamesAnotherOverIt) == (Ok(0), false));
    assert!(rt; has(&rt, "vwxyz"));
    remove_all(&rt);
}

// What a bench that only reads finds: the length, how many bytes of eight, and whether it writes.
type Found = (Result<u64, Failed>, Result<usize, Failed>, bool);

fn reads(mut bench: FileBench<'_, HostRuntime>) -> Found {
    (
        bench.length(),
        bench.read_at(0, &mut [0; 8]),
        bench.write_at(0, b"no").is_ok(),
    )
}

fn reads_after(rt: &HostRuntime, deed: Deed) -> Found {
    if prepare(rt).is_err() || does(rt, deed).is_err() {
        return (Err(Failed), Ok(0), true);
    }
    reads(FileBench::to_read(rt, JOURNAL))
}

#[test]
fn a_reader_needs_no_leave_to_write_and_makes_no_file(rt: HostRuntime) {
    let cases = [
        (Deed::Nothing, (Ok(3), Ok(3), false)),
        (Deed::ShutsIt, (Ok(3), Ok(3), false)),
        (Deed::LinksToAnother, (Err(Failed), Err(Failed), false)),
        (Deed::MakesAFolder, (Err(Failed), Err(Failed), false)),
        (Deed::RemovesIt, (Ok(0), Ok(0), false)),
    ];
    for (deed, wanted) in cases {
        assert!(rt; reads_after(&rt, deed) == wanted, "{deed:?}");
    }
    assert!(rt; fs::metadata(&rt, JOURNAL).is_err());
}

// Whether the first of two benches finds the journal, and then the second.
fn together(
    mut first: FileBench<'_, HostRuntime>,
    mut second: FileBench<'_, HostRuntime>,
) -> [bool; 2] {
    [first.length().is_ok(), second.length().is_ok()]
}

#[test]
fn readers_share_the_journal_and_a_writer_shares_it_with_nobody(rt: HostRuntime) {
    assert!(rt; prepare(&rt).is_ok());
    let reader = || FileBench::to_read(&rt, JOURNAL);
    let writer = || FileBench::new(&rt, JOURNAL);
    assert!(rt; together(reader(), reader()) == [true, true]);
    assert!(rt; together(reader(), writer()) == [true, false]);
    assert!(rt; together(writer(), reader()) == [true, false]);
    assert!(rt; together(writer(), writer()) == [true, false]);
}
