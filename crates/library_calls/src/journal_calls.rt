//! The calls of the system that a bench over a journal's file makes, in order, and with one of them refused.
use crate::counted_files::{Call, Calls, CountedFiles, THERE};
use bench_core::Bench;
use file_adapters::FileBench;
use std::os::unix::fs::symlink;
use std::{fs, io};

// A call of the system, the first of the five calls of the bench that fails if it is refused, and the last one.
type Step = (Call, usize, usize);

// Over a path that names nothing. The write makes the file without another look, locks and syncs it, and syncs its folder. If one
// of these is refused the run has no file. After a write that was cut off its length isn't known.
const MAKING: [Step; 21] = [
    (Call::Name, 0, 0),
    (Call::Open, 1, 1),
    (Call::Lock, 1, 1),
    (Call::Look, 1, 1),
    (Call::Name, 1, 1),
    (Call::Sync, 1, 1),
    (Call::OpenFolder, 1, 1),
    (Call::SyncFolder, 1, 1),
    (Call::Name, 1, 1),
    (Call::Seek, 1, 1),
    (Call::Write, 1, 1),
    (Call::Write, 1, 2),
    (Call::Sync, 2, 2),
    (Call::Name, 2, 2),
    (Call::Seek, 3, 3),
    (Call::Read, 3, 3),
    (Call::Read, 3, 3),
    (Call::Read, 3, 3),
    (Call::Send, 4, 4),
    (Call::Send, 4, 4),
    (Call::Send, 4, 4),
];

// Over a file of three bytes.
const FINDING: [Step; 21] = [
    (Call::Name, 0, 0),
    (Call::Open, 0, 0),
    (Call::Lock, 0, 0),
    (Call::Look, 0, 0),
    (Call::Name, 0, 0),
    (Call::Sync, 0, 3),
    (Call::OpenFolder, 0, 0),
    (Call::SyncFolder, 0, 0),
    (Call::Name, 0, 0),
    (Call::Seek, 1, 1),
    (Call::Write, 1, 1),
    (Call::Write, 1, 1),
    (Call::Sync, 2, 2),
    (Call::Name, 2, 2),
    (Call::Seek, 3, 3),
    (Call::Read, 3, 3),
    (Call::Read, 3, 3),
    (Call::Read, 3, 3),
    (Call::Send, 4, 4),
    (Call::Send, 4, 4),
    (Call::Send, 4, 4),
];

// Over a link that leads to a path in another folder, which names nothing. That folder is the one that is synced.
const MAKING_THERE: [Step; 27] = [
    (Call::Name, 0, 0),
    (Call::Link, 0, 0),
    (Call::OpenThere, 0, 0),
    (Call::Name, 0, 0),
    (Call::Open, 1, 1),
    (Call::Lock, 1, 1),
    (Call::Look, 1, 1),
    (Call::Link, 1, 1),
    (Call::Name, 1, 1),
    (Call::Sync, 1, 1),
    (Call::OpenThere, 1, 1),
    (Call::SyncThere, 1, 1),
    (Call::Link, 1, 1),
    (Call::Name, 1, 1),
    (Call::Seek, 1, 1),
    (Call::Write, 1, 1),
    (Call::Write, 1, 2),
    (Call::Sync, 2, 2),
    (Call::Link, 2, 2),
    (Call::Name, 2, 2),
    (Call::Seek, 3, 3),
    (Call::Read, 3, 3),
    (Call::Read, 3, 3),
    (Call::Read, 3, 3),
    (Call::Send, 4, 4),
    (Call::Send, 4, 4),
    (Call::Send, 4, 4),
];

// Over a link that leads to a file of three bytes in another folder.
const FINDING_THERE: [Step; 27] = [
    (Call::Name, 0, 0),
    (Call::Link, 0, 0),
    (Call::OpenThere, 0, 0),
    (Call::Name, 0, 0),
    (Call::Open, 0, 0),
    (Call::Lock, 0, 0),
    (Call::Look, 0, 0),
    (Call::Link, 0, 0),
    (Call::Name, 0, 0),
    (Call::Sync, 0, 3),
    (Call::OpenThere, 0, 0),
    (Call::SyncThere, 0, 0),
    (Call::Link, 0, 0),
    (Call::Name, 0, 0),
    (Call::Seek, 1, 1),
    (Call::Write, 1, 1),
    (Call::Write, 1, 1),
    (Call::Sync, 2, 2),
    (Call::Link, 2, 2),
    (Call::Name, 2, 2),
    (Call::Seek, 3, 3),
    (Call::Read, 3, 3),
    (Call::Read, 3, 3),
    (Call::Read, 3, 3),
    (Call::Send, 4, 4),
    (Call::Send, 4, 4),
    (Call::Send, 4, 4),
];

// The calls of a bench that only reads, over the same file: its length, and its bytes. They are done also if the lock is
// refused, as on a file system that has none.
const READING: [Call; 9] = [
    Call::Name,
    Call::Open,
    Call::LockShared,
    Call::Look,
    Call::Name,
    Call::Seek,
    Call::Read,
    Call::Read,
    Call::Read,
];

// Whether a call was done, and whether the refused one of the system's was the last by then.
fn answer(calls: &Calls, is_done: bool) -> (bool, bool) {
    (is_done, calls.ends_refused())
}

fn five_calls<B: Bench>(bench: &mut B, calls: &Calls) -> [(bool, bool); 5] {
    [
        answer(calls, bench.length().is_ok()),
        answer(calls, bench.write_at(0, b"abc").is_ok()),
        answer(calls, bench.sync().is_ok()),
        answer(calls, bench.read_at(0, &mut [0; 8]).is_ok()),
        answer(calls, bench.send(b"{...}").is_ok()),
    ]
}

// The path names nothing, or a file of three bytes.
fn prepare(rt: &HostRuntime, path: &str, is_there: bool) -> bool {
    let _ = fs::remove_file(rt, path);
    !is_there || fs::write(rt, path, b"xyz".as_slice()).is_ok()
}

// A link to a path in another folder, which is there.
fn put_link(rt: &HostRuntime) -> io::Result<()> {
    let _ = fs::create_dir(rt, THERE);
    let _ = fs::remove_file(rt, "calls.spare");
    symlink(rt, "there/calls.spare", "calls.spare")
}

// What the bench is over: the journal's name, or a link, and whether there is a file.
#[derive(Clone, Copy)]
struct Start {
    is_linked: bool,
    is_there: bool,
}

const NO_FILE: Start = Start {
    is_linked: false,
    is_there: false,
};

const A_FILE: Start = Start {
    is_linked: false,
    is_there: true,
};

const NO_FILE_THERE: Start = Start {
    is_linked: true,
    is_there: false,
};

const A_FILE_THERE: Start = Start {
    is_linked: true,
    is_there: true,
};

impl Start {
    fn prepare(self, rt: &HostRuntime) -> bool {
        if self.is_linked {
            put_link(rt).is_ok() && prepare(rt, "there/calls.spare", self.is_there)
        } else {
            prepare(rt, "calls.journal", self.is_there)
        }
    }
}

fn answers(rt: &HostRuntime, calls: &Calls, start: Start) -> [(bool, bool); 5] {
    if !start.prepare(rt) {
        return [(false, false); 5];
    }
    let files = CountedFiles { rt, calls };
    if start.is_linked {
        let mut bench = FileBench::following(&files, rt.alloc(), "calls.spare");
        five_calls(&mut bench, calls)
    } else {
        five_calls(&mut FileBench::new(&files, "calls.journal"), calls)
    }
}

// Whether these calls of the bench fail, and no others, the first of them at once, if this one of the system's is refused.
fn fail(rt: &HostRuntime, start: Start, refused: usize, first: usize, last: usize) -> bool {
    let calls = Calls::new(rt.alloc(), refused);
    let answers = answers(rt, &calls, start);
    let wanted = [0, 1, 2, 3, 4].map(|call| call < first || last < call);
    answers.map(|(is_done, _)| is_done) == wanted
        && answers
            .get(first)
            .is_some_and(|(_, is_at_once)| *is_at_once)
}

// The first step that doesn't fail as it says, if any.
fn other_step(rt: &HostRuntime, start: Start, steps: &[Step]) -> Option<usize> {
    for (refused, (_, first, last)) in steps.iter().enumerate() {
        if !fail(rt, start, refused, *first, *last) {
            return Some(refused);
        }
    }
    None
}

#[test]
fn a_refused_call_fails_at_once(rt: HostRuntime) {
    assert_eq!(rt; other_step(&rt, NO_FILE, &MAKING), None);
    assert_eq!(rt; other_step(&rt, A_FILE, &FINDING), None);
    assert_eq!(rt; other_step(&rt, NO_FILE_THERE, &MAKING_THERE), None);
    assert_eq!(rt; other_step(&rt, A_FILE_THERE, &FINDING_THERE), None);
}

// Whether these are the calls, in order, and all of the piece is sent.
fn are_made(rt: &HostRuntime, start: Start, made: &[Call]) -> bool {
    let calls = Calls::new(rt.alloc(), made.len());
    let are_done = answers(rt, &calls, start) == [(true, false); 5];
    are_done && calls.are(made) && calls.have_sent(b"{...}")
}

#[test]
fn each_call_is_made_in_order(rt: HostRuntime) {
    assert!(rt; are_made(&rt, NO_FILE, &MAKING.map(|(call, _, _)| call)));
    assert!(rt; are_made(&rt, A_FILE, &FINDING.map(|(call, _, _)| call)));
    assert!(rt; are_made(&rt, NO_FILE_THERE, &MAKING_THERE.map(|(call, _, _)| call)));
    assert!(rt; are_made(&rt, A_FILE_THERE, &FINDING_THERE.map(|(call, _, _)| call)));
}

// Makes benches over both names, and calls none of them.
fn make_benches(rt: &HostRuntime, calls: &Calls) {
    let files = CountedFiles { rt, calls };
    let _ = FileBench::new(&files, "uncalled.journal");
    let _ = FileBench::following(&files, rt.alloc(), "uncalled.spare");
}

#[test]
fn a_bench_that_is_not_called_opens_nothing(rt: HostRuntime) {
    let calls = Calls::new(rt.alloc(), 0);
    make_benches(&rt, &calls);
    assert!(rt; calls.are(&[]));
    assert!(rt; fs::metadata(&rt, "uncalled.journal").is_err());
    assert!(rt; fs::metadata(&rt, "uncalled.spare").is_err());
}

// Whether a bench that only reads gives what stands in the file, and writes nothing.
fn reads<B: Bench>(bench: &mut B) -> bool {
    let mut bytes = [0; 4];
    let is_read = bench.length() == Ok(3) && bench.read_at(0, &mut bytes) == Ok(3);
    is_read && bytes == *b"xyz\0" && bench.write_at(0, b"abc").is_err() && bench.sync().is_err()
}

fn reads_where(rt: &HostRuntime, refused: usize) -> bool {
    let calls = Calls::new(rt.alloc(), refused);
    let files = CountedFiles { rt, calls: &calls };
    let mut bench = FileBench::to_read(&files, "calls.journal");
    prepare(rt, "calls.journal", true) && reads(&mut bench) && calls.are(&READING)
}

#[test]
fn a_file_is_read_alone_with_the_lock_or_without_one(rt: HostRuntime) {
    assert!(rt; reads_where(&rt, READING.len()));
    assert!(rt; reads_where(&rt, 2));
}
