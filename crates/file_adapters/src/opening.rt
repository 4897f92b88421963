//! How the journal is opened: alone, by its own name, and with all of it on the disk.
ghost use Rattle.std.specs.Prelude.{◌≡◌, ◌↔◌, true, IsOk, IfOk};
ghost use Rattle.std.specs.Fs.{asks_create_new};

use crate::place::Place;
use std::fs::{File, Files, Metadata, OpenFile, OpenOptions, Permissions};
use std::io::ErrorKind;
use std::os::unix::fs::{MetadataExt, OpenOptionsExt, PermissionsExt};
use std::{fs, io};

/// A file that one program at a time can have for itself, or several that only read it.
pub trait TryLock {
    /// Takes the lock, which ends with the program, or fails if another open of the file has it. It waits for nothing.
    fn try_lock(&self) -> io::Result<()>;

    /// The same beside others that only read.
    fn try_lock_shared(&self) -> io::Result<()>;
}

impl TryLock for File {
    fn try_lock(&self) -> io::Result<()> {
        Ok(File::try_lock(self)?)
    }

    fn try_lock_shared(&self) -> io::Result<()> {
        Ok(File::try_lock_shared(self)?)
    }
}

// The owner alone may read a journal that is made, and write it.
const OWN: u32 = 0o600;

// The owner may read it, and nobody may write it.
const SHUT: u32 = 0o400;

// The owner's leave to write.
const WRITABLE: u32 = 0o200;

/// Which of the system's files a file is. No other one has its device and number as long as it is open.
#[derive(Clone, Copy, PartialEq, Eq)]
pub(crate) struct FileId {
    device: u64,
    number: u64,
}

impl FileId {
    fn of(file: &Metadata) -> FileId {
        FileId {
            device: file.dev(),
            number: file.ino(),
        }
    }
}

/// An open file, which one it is, and its length as this run found or left it.
#[derive(Drop)]
pub(crate) struct Opened<F: Drop> {
    pub(crate) file: F,
    pub(crate) id: FileId,
    pub(crate) length: u64,
}

/// A file of another length was cut off, or written by somebody else.
pub(crate) fn is_as_long(found: u64, length: u64) -> io::Result<()>
    ensures { IsOk result ↔ (found ≡ length) }
{
    if found == length {
        Ok(())
    } else {
        Err(io::Error::from(ErrorKind::InvalidData))
    }
}

// What a path names, if anything. A link, a folder or a pipe isn't a journal.
fn named<R: Files>(rt: &R, path: &str) -> io::Result<Option<Metadata>> {
    match fs::symlink_metadata(rt, path) {
        Ok(named) if named.is_file() => Ok(Some(named)),
        Ok(_) => Err(io::Error::from(ErrorKind::InvalidInput)),
        Err(error) if error.kind() == ErrorKind::NotFound => Ok(None),
        Err(error) => Err(error),
    }
}

/// What is known of the file of a place, if that is an open one. What is written to a file without a name is kept by nobody.
pub(crate) fn still_named<R: Files>(rt: &R, place: &Place, open: FileId) -> io::Result<Metadata> {
    place.check_link(rt)?;
    match named(rt, place.path())? {
        Some(named) if FileId::of(&named) == open => Ok(named),
        _ => Err(io::Error::from(ErrorKind::NotFound)),
    }
}

/// Leaves nothing of a file to a power cut. Some systems drop what they couldn't write, and say of the next sync that it
/// succeeded: so after one that failed no run may write the file, until somebody gives leave again.
pub(crate) fn sync_or_shut<F: OpenFile>(file: &F) -> io::Result<()> {
    let done = file.sync_all();
    if done.is_err() {
        let _ = file.set_permissions(Permissions::from_mode(SHUT));
    }
    done
}

// Takes an open file for this run alone, as it stands on the disk.
fn take<R: Files>(rt: &R, place: &Place, file: R::File) -> io::Result<Opened<R::File>>
where
    R::File: TryLock,
{
    // Before anything is read: who holds the lock may be writing.
    file.try_lock()?;
    let id = FileId::of(&file.metadata()?);
    let found = still_named(rt, place, id)?;
    if found.mode() & WRITABLE == 0 {
        return Err(io::Error::from(ErrorKind::PermissionDenied));
    }
    // A run that was killed may have left what it wrote without a sync.
    sync_or_shut(&file)?;
    // That the journal is there at all is written in its folder, which has a sync of its own.
    fs::open(rt, place.folder())?.sync_all()?;
    // It was this folder only if the file has its name there still.
    let length = still_named(rt, place, id)?.len();
    Ok(Opened { file, id, length })
}

/// Opens the journal to write it, if there is one.
pub(crate) fn open_to_write<R: Files>(rt: &R, place: &Place) -> io::Result<Option<Opened<R::File>>>
where
    R::File: TryLock,
{
    if named(rt, place.path())?.is_none() {
        return Ok(None);
    }
    let file = OpenOptions::new()
        .read(true)
        .write(true)
        .open(rt, place.path())?;
    Ok(Some(take(rt, place, file)?))
}

/// The same to read it alone, for which a copy will do that nobody may write.
pub(crate) fn open_to_read<R: Files>(rt: &R, place: &Place) -> io::Result<Option<Opened<R::File>>>
where
    R::File: TryLock,
{
    if named(rt, place.path())?.is_none() {
        return Ok(None);
    }
    let file = fs::open(rt, place.path())?;
    match file.try_lock_shared() {
        // Somebody may be writing it.
        Err(error) if error.kind() == ErrorKind::WouldBlock => return Err(error),
        // A file system that is only read may have no locks.
        _ => {}
    }
    let id = FileId::of(&file.metadata()?);
    let length = still_named(rt, place, id)?.len();
    Ok(Some(Opened { file, id, length }))
}

// How a file is made that the owner alone may read, and write. It fails if anything has the path, a link that leads nowhere too.
fn as_new() -> OpenOptions
    ensures { asks_create_new result ≡ true }
{
    let mut options = OpenOptions::new();
    options.mode(OWN);
    options.read(true).write(true).create_new(true);
    options
}

/// Makes the journal, if nothing has its path. A run that opened it before it was locked here may have written it, and then has it.
pub(crate) fn make<R: Files>(rt: &R, place: &Place) -> io::Result<Opened<R::File>>
where
    R::File: TryLock,
    ensures empty { IfOk result (λ opened. opened.length ≡ 0) }
{
    let made = take(rt, place, as_new().open(rt, place.path())?)?;
    is_as_long(made.length, 0)?;
    Ok(made)
}
