//! Where a journal's file is: in the program's folder, or where a link there leads.
use std::alloc::Global;
use std::fs::Files;
use std::io::ErrorKind;
use std::path::PathBuf;
use std::{fs, io};

/// What becomes of a link that has the journal's name.
#[derive(Clone, Copy)]
pub(crate) enum Links {
    /// It isn't followed, and isn't a journal.
    Refused,
    /// One link is followed, to a file of the same name in another folder, as on another disk. Its path is kept in this memory.
    Followed(Global),
}

// Where a link leads, as it says.
#[derive(Drop)]
struct Linked {
    alloc: Global,
    to: PathBuf,
}

/// The path of a journal's file, and the folder that holds its name.
#[derive(Drop)]
pub(crate) struct Place {
    name: &'static str,
    linked: Option<Linked>,
}

impl Place {
    // What has this name in the program's folder is the file.
    fn here(name: &'static str) -> Place {
        Place { name, linked: None }
    }

    /// Where the file of this name is. A link leads nowhere if the folder that it leads to isn't there: a disk that is away
    /// isn't a journal that is lost.
    pub(crate) fn find<R: Files>(rt: &R, name: &'static str, links: Links) -> io::Result<Place> {
        let Links::Followed(alloc) = links else {
            return Ok(Place::here(name));
        };
        match fs::symlink_metadata(rt, name) {
            Ok(found) if found.is_symlink() => Place::follow(rt, alloc, name),
            Err(error) if error.kind() != ErrorKind::NotFound => Err(error),
            _ => Ok(Place::here(name)),
        }
    }

    fn follow<R: Files>(rt: &R, alloc: Global, name: &'static str) -> io::Result<Place> {
        let to = rt.read_link(alloc, name)?;
        // Whoever can put a link here can't have another file written over.
        if to.file_name() != Some(name) {
            return Err(io::Error::from(ErrorKind::InvalidInput));
        }
        let linked = Some(Linked { alloc, to });
        let place = Place { name, linked };
        fs::open(rt, place.folder())?;
        Ok(place)
    }

    /// The path of the file.
    pub(crate) fn path(&self) -> &str {
        match &self.linked {
            Some(linked) => linked.to.as_str(),
            None => self.name,
        }
    }

    /// The folder that the file's name stands in, which has a sync of its own.
    pub(crate) fn folder(&self) -> &str {
        let parent = match &self.linked {
            Some(linked) => linked.to.parent(),
            None => None,
        };
        match parent {
            Some(folder) if !folder.as_str().is_empty() => folder.as_str(),
            _ => ".",
        }
    }

    /// Fails if a link was followed that leads elsewhere by now, or isn't there.
    pub(crate) fn check_link<R: Files>(&self, rt: &R) -> io::Result<()> {
        match &self.linked {
            Some(linked) if rt.read_link(linked.alloc, self.name)?.as_str() != linked.to.as_str() =>
                { Err(io::Error::from(ErrorKind::NotFound)) }
            _ => Ok(()),
        }
    }
}
