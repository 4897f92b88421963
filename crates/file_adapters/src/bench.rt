//! The journal's file and standard output.
ghost use Rattle.std.specs.Prelude.{◌≡◌, [], false};

use crate::counting::{Faults, count_error};
use crate::journal_file::{Access, JournalFile};
use crate::opening::TryLock;
use crate::place::Links;
use bench_core::{Bench, Failed};
use std::alloc::Global;
use std::fs::Files;
use std::io;
use std::io::Write;
use std::os::unix::fs::FileExt;

/// The journal's file and standard output.
#[derive(Drop)]
pub struct FileBench<'a, R: Files + Print> {
    rt: &'a R,
    journal: JournalFile<'a, R>,
    faults: Faults,
}

impl<'a, R: Files + Print> FileBench<'a, R> {
    /// The journal of a name in the program's folder, to be read and written. Nothing is opened yet.
    pub fn new(rt: &'a R, name: &'static str) -> Self
        ensures fresh { (result.faults.count ≡ 0) × (result.faults.last ≡ false) }
        ensures name { result.journal.name.now ≡ name.now }
        ensures access { (result.journal.links ≡ Links.Refused) × (result.journal.access ≡ Access.Write) }
    {
        FileBench {
            rt,
            journal: JournalFile::new(rt, name, Links::Refused, Access::Write),
            faults: Faults::none(),
        }
    }

    /// The same, but that a link of this name is followed: then the file is where it leads, and so is the folder that is synced.
    pub fn following(rt: &'a R, alloc: Global, name: &'static str) -> Self
        ensures fresh { (result.faults.count ≡ 0) × (result.faults.last ≡ false) }
        ensures name { result.journal.name.now ≡ name.now }
        ensures access { (result.journal.links ≡ Links.Followed alloc) × (result.journal.access ≡ Access.Write) }
    {
        FileBench {
            rt,
            journal: JournalFile::new(rt, name, Links::Followed(alloc), Access::Write),
            faults: Faults::none(),
        }
    }

    /// The journal of such a name, to be read alone: each write of it fails, and each sync.
    pub fn to_read(rt: &'a R, name: &'static str) -> Self
        ensures fresh { (result.faults.count ≡ 0) × (result.faults.last ≡ false) }
        ensures name { result.journal.name.now ≡ name.now }
        ensures access { (result.journal.links ≡ Links.Refused) × (result.journal.access ≡ Access.Read) }
    {
        FileBench {
            rt,
            journal: JournalFile::new(rt, name, Links::Refused, Access::Read),
            faults: Faults::none(),
        }
    }
}

// If a write takes nothing, `write_all` answers an error.
fn write_out<R: Print>(rt: &R, piece: &[u8]) -> io::Result<()> {
    let mut out = io::writer(rt);
    out.write_all(piece)?;
    out.flush()
}

impl<R: Files + Print> Bench for FileBench<'_, R>
where
    R::File: TryLock + FileExt,
{
    ghost told = { ⊥ };

    ghost file = { λ _. [] };

    ghost sent = { λ _. [] };

    ghost leaves = { λ _ _. ⊥ };

    ghost moment = { λ _. 0 };

    ghost since = { λ _ _ _ _. ⊥ };

    ghost faults = { λ s. s.faults.count };

    ghost last_failed = { λ s. s.faults.last };

    fn length(&mut self) -> Result<u64, Failed> {
        count_error(self.journal.length(), &mut self.faults)
    }

    fn read_at(&mut self, at: u64, buf: &mut [u8]) -> Result<usize, Failed> {
        count_error(self.journal.read_at(at, buf), &mut self.faults)
    }

    fn write_at(&mut self, at: u64, piece: &[u8]) -> Result<(), Failed> {
        count_error(self.journal.write_at(at, piece), &mut self.faults)
    }

    fn sync(&mut self) -> Result<(), Failed> {
        count_error(self.journal.sync(), &mut self.faults)
    }

    fn send(&mut self, piece: &[u8]) -> Result<(), Failed> {
        count_error(write_out(self.rt, piece), &mut self.faults)
    }

    ghost reads = { λ bench told. absurd told };

    ghost counts_now = { λ bench t image le left. absurd left };

    ghost only_now = { λ bench image bytes since. absurd since };
}
