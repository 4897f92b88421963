//! The system's files, of which each call is written down, and one is refused.
ghost use Rattle.std.specs.Prelude.{◌≤◌, length, IfOk};

use file_adapters::TryLock;
use std::alloc::{Allocator, Global};
use std::cell::RefCell;
use std::fmt::Display;
use std::fs::{File, Files, Metadata, OpenFile, OpenOptions, Permissions};
use std::io;
use std::io::{ErrorKind, Read, Seek, SeekFrom, Write};
use std::os::unix::fs::FileExt;
use std::path::PathBuf;

/// A call of the system. `Name` asks what a path names, `Link` where a link leads, and `Look` what is known of an open file.
/// `Folder` is the program's own, and `There` one that a link leads to.
#[derive(Clone, Copy, PartialEq, Eq)]
pub(crate) enum Call {
    Name,
    Link,
    Open,
    OpenFolder,
    OpenThere,
    Lock,
    LockShared,
    Look,
    Seek,
    Read,
    Write,
    Sync,
    SyncFolder,
    SyncThere,
    Shut,
    Send,
}

/// A folder that a link may lead to.
pub(crate) const THERE: &str = "there";

/// The calls that were made, of which the one with this number is refused, and what was sent.
#[derive(Drop)]
pub(crate) struct Calls {
    made: RefCell<Vec<Call>>,
    sent: RefCell<Vec<u8>>,
    refused: usize,
}

impl Calls {
    pub(crate) fn new(alloc: Global, refused: usize) -> Calls {
        Calls {
            made: RefCell::new(Vec::new(alloc)),
            sent: RefCell::new(Vec::new(alloc)),
            refused,
        }
    }

    fn make(&self, call: Call) -> io::Result<()> {
        let Ok(mut made) = self.made.try_borrow_mut() else {
            return Err(io::Error::from(ErrorKind::ResourceBusy));
        };
        let number = made.len();
        made.push(call)?;
        if number == self.refused {
            return Err(io::Error::from(ErrorKind::Other));
        }
        Ok(())
    }

    // Takes a front of a piece, of at most two bytes.
    fn send_some(&self, piece: &[u8]) -> io::Result<usize>
        ensures { IfOk result (λ count. count ≤ length piece.now) }
    {
        self.make(Call::Send)?;
        let front = &piece[..piece.len().min(2)];
        match self.sent.try_borrow_mut() {
            Ok(mut sent) => sent.extend_from_slice(front)?,
            Err(_) => return Err(io::Error::from(ErrorKind::ResourceBusy)),
        }
        Ok(front.len())
    }

    /// Whether the refused call was the last one, but for the shutting of a file after a refused sync.
    pub(crate) fn ends_refused(&self) -> bool {
        self.made.try_borrow().map_or(false, |made| {
            match made.as_slice().get(self.refused..) {
                Some([Call::Sync, Call::Shut]) => true,
                Some([call]) => *call != Call::Sync,
                _ => false,
            }
        })
    }

    /// Whether this was sent.
    pub(crate) fn have_sent(&self, bytes: &[u8]) -> bool {
        self.sent
            .try_borrow()
            .map_or(false, |sent| sent.as_slice() == bytes)
    }

    /// Whether these calls were made, in this order.
    pub(crate) fn are(&self, calls: &[Call]) -> bool {
        self.made
            .try_borrow()
            .map_or(false, |made| made.as_slice() == calls)
    }
}

/// The system's files. `calls` lists each call of them, and a read, a write or a send moves at most two bytes.
#[derive(Drop)]
pub(crate) struct CountedFiles<'a> {
    pub(crate) rt: &'a HostRuntime,
    pub(crate) calls: &'a Calls,
}

/// One of these files, or the folder, open.
#[derive(Drop)]
pub(crate) struct CountedFile<'a> {
    file: File,
    sync: Call,
    calls: &'a Calls,
}

fn unsupported<T>() -> io::Result<T> {
    Err(io::Error::from(ErrorKind::Unsupported))
}

impl<'a> Files for CountedFiles<'a> {
    type File = CountedFile<'a>;

    type Dir = File;

    fn open_file(&self, how: &OpenOptions, path: &str) -> io::Result<CountedFile<'a>> {
        let (open, sync) = match path {
            "." => (Call::OpenFolder, Call::SyncFolder),
            THERE => (Call::OpenThere, Call::SyncThere),
            _ => (Call::Open, Call::Sync),
        };
        self.calls.make(open)?;
        Ok(CountedFile {
            file: self.rt.open_file(how, path)?,
            sync,
            calls: self.calls,
        })
    }

    fn open_dir(&self, _path: &str) -> io::Result<File> {
        unsupported()
    }

    fn metadata(&self, _path: &str) -> io::Result<Metadata> {
        unsupported()
    }

    fn symlink_metadata(&self, path: &str) -> io::Result<Metadata> {
        self.calls.make(Call::Name)?;
        self.rt.symlink_metadata(path)
    }

    fn read_link<B: Allocator>(&self, alloc: B, path: &str) -> io::Result<PathBuf<B>> {
        self.calls.make(Call::Link)?;
        self.rt.read_link(alloc, path)
    }

    fn copy(&self, _from: &str, _to: &str) -> io::Result<u64> {
        unsupported()
    }

    fn rename(&self, _from: &str, _to: &str) -> io::Result<()> {
        unsupported()
    }

    fn remove_file(&self, _path: &str) -> io::Result<()> {
        unsupported()
    }

    fn create_dir(&self, _path: &str) -> io::Result<()> {
        unsupported()
    }

    fn remove_dir(&self, _path: &str) -> io::Result<()> {
        unsupported()
    }

    fn remove_dir_all<B: Allocator>(&self, _alloc: B, _path: &str) -> io::Result<()> {
        unsupported()
    }
}

impl Print for CountedFiles<'_> {
    fn print<D: Display + Drop>(&self, _value: D) -> io::Result<()> {
        unsupported()
    }

    fn println<D: Display + Drop>(&self, _value: D) -> io::Result<()> {
        unsupported()
    }

    fn write_all(&self, bytes: &[u8]) -> io::Result<()> {
        let mut count = 0;
        while count < bytes.len() {
            match self.write_some(&bytes[count..])? {
                0 => return Err(io::Error::from(ErrorKind::WriteZero)),
                more => count += more,
            }
        }
        Ok(())
    }

    fn write_some(&self, bytes: &[u8]) -> io::Result<usize> {
        self.calls.send_some(bytes)
    }
}

impl TryLock for CountedFile<'_> {
    fn try_lock(&self) -> io::Result<()> {
        self.calls.make(Call::Lock)?;
        TryLock::try_lock(&self.file)
    }

    fn try_lock_shared(&self) -> io::Result<()> {
        self.calls.make(Call::LockShared)?;
        TryLock::try_lock_shared(&self.file)
    }
}

impl OpenFile for CountedFile<'_> {
    fn metadata(&self) -> io::Result<Metadata> {
        self.calls.make(Call::Look)?;
        self.file.metadata()
    }

    fn set_len(&self, _size: u64) -> io::Result<()> {
        unsupported()
    }

    fn sync_all(&self) -> io::Result<()> {
        self.calls.make(self.sync)?;
        self.file.sync_all()
    }

    fn sync_data(&self) -> io::Result<()> {
        unsupported()
    }

    fn set_permissions(&self, permissions: Permissions) -> io::Result<()> {
        self.calls.make(Call::Shut)?;
        self.file.set_permissions(permissions)
    }
}

impl Read for CountedFile<'_> {
    fn read(&mut self, buf: &mut [u8]) -> io::Result<usize> {
        self.calls.make(Call::Read)?;
        let most = buf.len().min(2);
        self.file.read(&mut buf[..most])
    }
}

impl FileExt for CountedFile<'_> {
    fn read_at(&self, buf: &mut [u8], offset: u64) -> io::Result<usize> {
        self.calls.make(Call::Read)?;
        let most = buf.len().min(2);
        self.file.read_at(&mut buf[..most], offset)
    }

    fn write_at(&self, buf: &[u8], offset: u64) -> io::Result<usize> {
        self.calls.make(Call::Write)?;
        self.file.write_at(&buf[..buf.len().min(2)], offset)
    }
}

impl Write for CountedFile<'_> {
    fn write(&mut self, buf: &[u8]) -> io::Result<usize> {
        self.calls.make(Call::Write)?;
        self.file.write(&buf[..buf.len().min(2)])
    }

    fn flush(&mut self) -> io::Result<()> {
        unsupported()
    }
}

impl Seek for CountedFile<'_> {
    fn seek(&mut self, to: SeekFrom) -> io::Result<u64> {
        self.calls.make(Call::Seek)?;
        self.file.seek(to)
    }
}
