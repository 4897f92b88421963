//! The journal's file, opened at the first call on it and made at the first write if it isn't there.
ghost use Rattle.std.specs.Prelude.{◌≡◌, ◌↔◌, IsOk, IsErr};
ghost use Rattle.std.specs.Io.{ReadsAtMost};
ghost use Rattle.file_adapters.specs.Known.{IsOpen};

use crate::counting::read_on;
use crate::opening::{
    Opened, TryLock, is_as_long, make, open_to_read, open_to_write, still_named, sync_or_shut,
};
use crate::place::{Links, Place};
use std::fs::Files;
use std::io;
use std::io::{ErrorKind, Read, Seek, SeekFrom};
use std::os::unix::fs::FileExt;

/// What a run may do to the journal.
#[derive(Clone, Copy)]
pub(crate) enum Access {
    Read,
    Write,
}

/// What a run knows of its file.
#[derive(Drop)]
pub(crate) enum Known<F: Drop> {
    /// Nothing: no call asked for it yet.
    Nothing,
    /// It wasn't there. One that somebody else makes from then on is never opened: this run can only make it.
    Absent,
    Open(Opened<F>),
}

/// The file of this name.
#[derive(Drop)]
pub(crate) struct JournalFile<'a, R: Files> {
    rt: &'a R,
    name: &'static str,
    links: Links,
    access: Access,
    // Where it is, from the first call on it.
    place: Option<Place>,
    known: Known<R::File>,
}

impl<'a, R: Files> JournalFile<'a, R> {
    pub(crate) fn new(rt: &'a R, name: &'static str, links: Links, access: Access) -> Self
        ensures name { result.name.now ≡ name.now }
        ensures links { result.links ≡ links }
        ensures access { result.access ≡ access }
    {
        JournalFile {
            rt,
            name,
            links,
            access,
            place: None,
            known: Known::Nothing,
        }
    }
}

// The place of a file, found at the first call.
fn found_place<'a, R: Files>(
    rt: &R,
    name: &'static str,
    links: Links,
    place: &'a mut Option<Place>,
) -> io::Result<&'a Place> {
    if place.is_none() {
        *place = Some(Place::find(rt, name, links)?);
    }
    place.as_ref().ok_or(io::Error::from(ErrorKind::NotFound))
}

// Reads until the buffer is full or the file ends.
fn read_whole<F: Read + Seek>(file: &mut F, at: u64, buf: &mut [u8]) -> io::Result<usize>
    ensures { ReadsAtMost result buf.new }
{
    file.seek(SeekFrom::Start(at))?;
    let mut count = 0;
    while count < buf.len() {
        match read_on(file, &mut buf[count..])? {
            0 => break,
            more => count += more,
        }
    }
    Ok(count)
}

impl<R: Files> JournalFile<'_, R>
where
    R::File: TryLock + FileExt,
{
    // Looks for the file at the first call, and never again.
    fn look(&mut self) -> io::Result<()>
        ensures known { IsOk result → ¬ (self.new.known ≡ Known.Nothing) }
        ensures absent { self.old.known ≡ Known.Absent → IsOk result × (self.new.known ≡ Known.Absent) }
    {
        if let Known::Nothing = self.known {
            let place = found_place(self.rt, self.name, self.links, &mut self.place)?;
            let found = match self.access {
                Access::Read => open_to_read(self.rt, place)?,
                Access::Write => open_to_write(self.rt, place)?,
            };
            self.known = found.map_or(Known::Absent, Known::Open);
        }
        Ok(())
    }

    // Makes the file if it wasn't there.
    fn look_or_make(&mut self) -> io::Result<()>
        ensures made { self.old.known ≡ Known.Absent → IsOk result → IsOpen 0 self.new.known }
    {
        self.look()?;
        if let Known::Absent = self.known {
            let place = found_place(self.rt, self.name, self.links, &mut self.place)?;
            self.known = Known::Open(make(self.rt, place)?);
        }
        Ok(())
    }

    fn may_write(&self) -> io::Result<()>
        ensures { IsErr result ↔ (self.now.access ≡ Access.Read) }
    {
        match self.access {
            Access::Write => Ok(()),
            Access::Read => Err(io::Error::from(ErrorKind::PermissionDenied)),
        }
    }

    /// Its length, which is 0 if there is none.
    pub(crate) fn length(&mut self) -> io::Result<u64>
        ensures absent { self.old.known ≡ Known.Absent → (result ≡ Ok 0) × (self.new.known ≡ Known.Absent) }
        ensures known { IsOk result → ¬ (self.new.known ≡ Known.Nothing) }
    {
        self.look()?;
        match &self.known {
            Known::Open(opened) => Ok(opened.length),
            _ => Ok(0),
        }
    }

    /// Reads from a place on until the buffer is full or the file ends.
    pub(crate) fn read_at(&mut self, at: u64, buf: &mut [u8]) -> io::Result<usize>
        ensures bound { ReadsAtMost result buf.new }
        ensures absent { self.old.known ≡ Known.Absent → (result ≡ Ok 0) × (self.new.known ≡ Known.Absent) }
    {
        self.look()?;
        match &mut self.known {
            Known::Open(opened) => read_whole(&mut opened.file, at, buf),
            _ => Ok(0),
        }
    }

    /// Writes all of a piece, if the file is as long as this run left it. If there was none, it is made, and is empty before.
    pub(crate) fn write_at(&mut self, at: u64, piece: &[u8]) -> io::Result<()>
        ensures read { self.old.access ≡ Access.Read → IsErr result }
    {
        self.may_write()?;
        self.look_or_make()?;
        let Known::Open(opened) = &mut self.known else {
            return Err(io::Error::from(ErrorKind::NotFound));
        };
        // The place of its end is its length, and found at a hundredth of the cost of `metadata`.
        is_as_long(opened.file.seek(SeekFrom::End(0))?, opened.length)?;
        opened.file.write_all_at(piece, at)?;
        opened.length = opened.length.max(at.saturating_add(piece.len() as u64));
        Ok(())
    }

    /// Leaves nothing to a power cut, if its place still names the file, and it is as long as this run left it. If there was no
    /// file, there is nothing to keep.
    pub(crate) fn sync(&mut self) -> io::Result<()>
        ensures read { self.old.access ≡ Access.Read → IsErr result }
        ensures absent { self.old.known ≡ Known.Absent → self.new.known ≡ Known.Absent }
    {
        self.may_write()?;
        self.look()?;
        match (&self.place, &self.known) {
            (Some(place), Known::Open(opened)) => {
                sync_or_shut(&opened.file)?;
                is_as_long(still_named(self.rt, place, opened.id)?.len(), opened.length)
            }
            _ => Ok(()),
        }
    }
}
