//! The files of nodes as their disks.
ghost use Rattle.std.specs.Prelude.{◌≡◌, length, IfOk};

use crate::file_disk::{Backing, FileDisk};
use spl_edge::{Pair, Shelf};
use std::alloc::AllocError;
use std::fs;
use std::fs::{File, Files, OpenOptions};
use std::io::ErrorKind;

/// How many nodes have disks.
const NODES: usize = 16;

/// What is done with the files of a folder.
#[derive(Clone, Copy, PartialEq, Eq)]
pub enum Access {
    /// They are read and written, and made where they are missing.
    Change,
    /// They are read alone. One that is missing has no bytes.
    Read,
}

/// The file of a name, made where it is missing.
pub(crate) fn changed<R: Files<File = File>>(rt: &R, name: &str) -> Backing<File> {
    let mut options = OpenOptions::new();
    options.read(true).write(true).create(true);
    match options.open(rt, name) {
        Ok(file) => Backing::File(file),
        Err(_) => Backing::Failed,
    }
}

/// The file of a name, which is read alone. Whatever else stands there isn't opened, since opening a pipe would wait.
fn kept<R: Files<File = File>>(rt: &R, name: &str) -> Backing<File> {
    let opened = match fs::metadata(rt, name) {
        Ok(found) if !found.is_file() => return Backing::Failed,
        Ok(_) => fs::open(rt, name),
        Err(error) => Err(error),
    };
    match opened {
        Ok(file) => Backing::Kept(file),
        Err(error) if error.kind() == ErrorKind::NotFound => Backing::Missing,
        Err(_) => Backing::Failed,
    }
}

/// The file of a name as a disk. One that can't be opened or made fails at each call.
fn disk<R: Files<File = File>>(rt: &R, name: &str, access: Access) -> FileDisk<File> {
    FileDisk::new(match access {
        Access::Change => changed(rt, name),
        Access::Read => kept(rt, name),
    })
}

/// The two disks of the node at a position. Without a folder they fail at each call.
fn pair<R>(
    rt: &R,
    folder: Option<&String>,
    access: Access,
    position: usize,
) -> Result<Pair<FileDisk<File>>, AllocError>
where
    R: Files<File = File> + AllocGlobal,
{
    let Some(folder) = folder else {
        return Ok(Pair {
            first: FileDisk::new(Backing::Failed),
            second: FileDisk::new(Backing::Failed),
        });
    };
    let first = format!(in rt.alloc(); "{folder}/d{position:02}a")?;
    let second = format!(in rt.alloc(); "{folder}/d{position:02}b")?;
    Ok(Pair {
        first: disk(rt, first.as_str(), access),
        second: disk(rt, second.as_str(), access),
    })
}

/// The disks of all nodes.
fn pairs_in<R>(
    rt: &R,
    folder: Option<&String>,
    access: Access,
) -> Result<Vec<Pair<FileDisk<File>>>, AllocError>
where
    R: Files<File = File> + AllocGlobal,
    ensures { IfOk result (λ pairs. length pairs.items ≡ 16) }
{
    let mut pairs = Vec::new(rt.alloc());
    'pairs: while pairs.len() < NODES {
        let next = pair(rt, folder, access, pairs.len())?;
        pairs.push(next)?;
    }
    Ok(pairs)
}

/// A folder that no other run changes, held by a lock on it that ends with the process at the latest. Others may read it
/// where this one does. What is no folder isn't opened.
pub(crate) fn held<R: Files<File = File>>(rt: &R, name: &String, access: Access) -> Option<File> {
    if !fs::metadata(rt, name.as_str()).ok()?.is_dir() {
        return None;
    }
    let folder = fs::open(rt, name.as_str()).ok()?;
    match access {
        Access::Change => folder.try_lock().ok()?,
        Access::Read => folder.try_lock_shared().ok()?,
    }
    Some(folder)
}

/// Whether the names of the files of a folder last, where they may have been made.
pub(crate) fn is_synced(folder: &File, access: Access) -> bool {
    match access {
        Access::Change => folder.sync_all().is_ok(),
        Access::Read => true,
    }
}

/// Syncs the files of disks that are changed, so that what is read of them lasts.
fn settle_all(pairs: &mut Vec<Pair<FileDisk<File>>>, access: Access)
    ensures { length pairs.new.items ≡ length pairs.old.items }
{
    if access == Access::Read {
        return;
    }
    'pairs: for index in 0..pairs.len() {
        let pair = &mut pairs[index];
        pair.first.settle();
        pair.second.settle();
    }
}

/// The disks of sixteen nodes, and the folder that has their files, where there is one. No other run changes them as long
/// as this is kept.
#[derive(Drop)]
pub struct Folder {
    pub shelf: Shelf<FileDisk<File>>,
    held: Option<File>,
}

impl Folder {
    /// Of the node at position 7 the disks are the files `d07a` and `d07b` in the folder of this name, made where they are
    /// missing and changed where the access is for that, and never cut. A file that can't be opened or made is a disk that
    /// fails at each call. So are all, and no file is made, without a name, and where the folder can't be opened, another
    /// run changes it, or its own sync fails, by which the names of its files last. Each file is synced before it is read, and
    /// is such a disk where that fails. To read alone, nothing is made, written or synced, and others may read besides. An
    /// error comes where memory runs out.
    pub fn open<R>(rt: &R, name: Option<&String>, access: Access) -> Result<Folder, AllocError>
    where
        R: Files<File = File> + AllocGlobal,
        ensures { IfOk result (λ folder. length folder.shelf.pairs.items ≡ 16) }
    {
        let held = match name {
            Some(name) => held(rt, name, access),
            None => None,
        };
        let mut pairs = pairs_in(rt, if held.is_some() { name } else { None }, access)?;
        match &held {
            Some(folder) if !is_synced(folder, access) => Ok(Folder {
                shelf: Shelf {
                    pairs: pairs_in(rt, None, access)?,
                },
                held,
            }),
            _ => {
                settle_all(&mut pairs, access);
                Ok(Folder {
                    shelf: Shelf { pairs },
                    held,
                })
            }
        }
    }
}
