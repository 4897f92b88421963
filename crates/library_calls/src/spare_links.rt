//! A link that has the spare's name: where it leads, and what befalls it while a bench has the file there.
use bench_core::{Bench, Failed};
use file_adapters::FileBench;
use std::os::unix::fs::symlink;
use std::{fs, io};

const SPARE: &str = "linked.spare";

const FOLDER: &str = "other_disk";

const THERE: &str = "other_disk/linked.spare";

// What the spare's name leads to.
#[derive(Clone, Copy, Debug)]
enum Spare {
    Nothing,
    AFile,
    ALinkToAFile,
    ALinkToNothing,
    ALinkToNoFolder,
    ALinkToALink,
    ALinkToAFolder,
    ALinkToAnotherName,
}

fn remove_all(rt: &HostRuntime) {
    let _ = fs::remove_file(rt, SPARE);
    let _ = fs::remove_file(rt, THERE);
    let _ = fs::remove_dir(rt, THERE);
    let _ = fs::remove_file(rt, "second.spare");
    let _ = fs::remove_dir(rt, FOLDER);
}

fn put(rt: &HostRuntime, spare: Spare) -> io::Result<()> {
    remove_all(rt);
    fs::create_dir(rt, FOLDER)?;
    match spare {
        Spare::Nothing => Ok(()),
        Spare::AFile => fs::write(rt, SPARE, b"abc".as_slice()),
        Spare::ALinkToAFile => {
            fs::write(rt, THERE, b"abc".as_slice())?;
            symlink(rt, THERE, SPARE)
        }
        Spare::ALinkToNothing => symlink(rt, THERE, SPARE),
        Spare::ALinkToNoFolder => symlink(rt, "no_disk/linked.spare", SPARE),
        Spare::ALinkToALink => {
            fs::write(rt, "second.spare", b"abc".as_slice())?;
            symlink(rt, "../second.spare", THERE)?;
            symlink(rt, THERE, SPARE)
        }
        Spare::ALinkToAFolder => {
            fs::create_dir(rt, THERE)?;
            symlink(rt, THERE, SPARE)
        }
        Spare::ALinkToAnotherName => {
            fs::write(rt, "second.spare", b"abc".as_slice())?;
            symlink(rt, "second.spare", SPARE)
        }
    }
}

// The length that a bench finds, and whether it writes three other bytes, and syncs them.
type Found = (Result<u64, Failed>, bool, bool);

fn opens(mut bench: FileBench<'_, HostRuntime>) -> Found {
    (
        bench.length(),
        bench.write_at(0, b"xyz").is_ok(),
        bench.sync().is_ok(),
    )
}

fn opens_over(rt: &HostRuntime, spare: Spare) -> Found {
    match put(rt, spare) {
        Ok(()) => opens(FileBench::following(rt, rt.alloc(), SPARE)),
        Err(_) => (Err(Failed), true, true),
    }
}

// Whether a path has these bytes.
fn has(rt: &HostRuntime, path: &str, bytes: &str) -> bool {
    fs::read_to_string(rt, path).is_ok_and(|text| text.as_str() == bytes)
}

#[test]
fn one_link_is_followed_to_a_folder_that_is_there(rt: HostRuntime) {
    let failed = (Err(Failed), false, false);
    let cases = [
        (Spare::Nothing, (Ok(0), true, true)),
        (Spare::AFile, (Ok(3), true, true)),
        (Spare::ALinkToAFile, (Ok(3), true, true)),
        (Spare::ALinkToNothing, (Ok(0), true, true)),
        (Spare::ALinkToNoFolder, failed),
        (Spare::ALinkToALink, failed),
        (Spare::ALinkToAFolder, failed),
        (Spare::ALinkToAnotherName, failed),
    ];
    for (spare, wanted) in cases {
        assert!(rt; opens_over(&rt, spare) == wanted, "{spare:?}");
    }
    remove_all(&rt);
}

// Whether the file that a link leads to is written, and the link stays.
fn is_written_there(rt: &HostRuntime, spare: Spare) -> bool {
    let is_done = opens_over(rt, spare).2;
    is_done
        && has(rt, THERE, "xyz")
        && fs::symlink_metadata(rt, SPARE).is_ok_and(|it| it.is_symlink())
}

#[test]
fn what_is_written_stands_where_the_link_leads(rt: HostRuntime) {
    assert!(rt; is_written_there(&rt, Spare::ALinkToAFile));
    assert!(rt; is_written_there(&rt, Spare::ALinkToNothing));
    for spare in [Spare::ALinkToALink, Spare::ALinkToAnotherName] {
        assert!(rt; opens_over(&rt, spare).0 == Err(Failed));
        assert!(rt; has(&rt, "second.spare", "abc"), "{spare:?}");
    }
    remove_all(&rt);
}

// Whether a bench that found no file where the link leads writes the one that came there.
fn writes_what_came(rt: &HostRuntime) -> bool {
    let mut bench = FileBench::following(rt, rt.alloc(), SPARE);
    let is_none = put(rt, Spare::ALinkToNothing).is_ok() && bench.length() == Ok(0);
    let is_made = fs::write(rt, THERE, b"abc".as_slice()).is_ok();
    !is_none || !is_made || bench.write_at(0, b"xyz").is_ok()
}

#[test]
fn a_file_that_came_where_the_link_leads_is_not_opened(rt: HostRuntime) {
    assert!(rt; !writes_what_came(&rt));
    assert!(rt; has(&rt, THERE, "abc"));
    remove_all(&rt);
}

// What somebody else does to the link, or to the file that it leads to.
#[derive(Clone, Copy, Debug)]
enum Deed {
    Nothing,
    LinksElsewhere,
    RemovesTheLink,
    PutsTheFileHere,
    RemovesTheFile,
    PutsAnotherFile,
}

fn does(rt: &HostRuntime, deed: Deed) -> io::Result<()> {
    match deed {
        Deed::Nothing => Ok(()),
        Deed::LinksElsewhere => {
            fs::remove_file(rt, SPARE)?;
            symlink(rt, "another_disk/linked.spare", SPARE)
        }
        Deed::RemovesTheLink => fs::remove_file(rt, SPARE),
        Deed::PutsTheFileHere => fs::rename(rt, THERE, SPARE),
        Deed::RemovesTheFile => fs::remove_file(rt, THERE),
        Deed::PutsAnotherFile => {
            fs::write(rt, "second.spare", b"abc".as_slice())?;
            fs::rename(rt, "second.spare", THERE)
        }
    }
}

// Whether a bench that has the file open still syncs it after the deed.
fn syncs_after(rt: &HostRuntime, deed: Deed) -> bool {
    let mut bench = FileBench::following(rt, rt.alloc(), SPARE);
    put(rt, Spare::ALinkToAFile).is_ok()
        && bench.length() == Ok(3)
        && does(rt, deed).is_ok()
        && bench.sync().is_ok()
}

#[test]
fn a_bench_goes_on_only_over_the_file_that_the_link_leads_to(rt: HostRuntime) {
    assert!(rt; syncs_after(&rt, Deed::Nothing));
    let deeds = [
        Deed::LinksElsewhere,
        Deed::RemovesTheLink,
        Deed::PutsTheFileHere,
        Deed::RemovesTheFile,
        Deed::PutsAnotherFile,
    ];
    for deed in deeds {
        assert!(rt; !syncs_after(&rt, deed), "{deed:?}");
    }
    remove_all(&rt);
}

// Whether the spare opens while a bench has the journal, to which the spare's name leads.
fn opens_beside(rt: &HostRuntime) -> bool {
    let mut journal = FileBench::new(rt, THERE);
    let mut spare = FileBench::following(rt, rt.alloc(), SPARE);
    journal.length() == Ok(3) && spare.length().is_ok()
}

#[test]
fn the_journal_is_no_spare_of_itself(rt: HostRuntime) {
    assert!(rt; put(&rt, Spare::ALinkToAFile).is_ok());
    assert!(rt; !opens_beside(&rt));
    remove_all(&rt);
}
