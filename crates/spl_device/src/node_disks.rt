//! The files of one node as its disks.
use crate::file_disk::{Backing, FileDisk};
use crate::folder::{Access, changed, held, is_synced};
use spl_edge::Pair;
use std::alloc::AllocError;
use std::fs::{File, Files, OpenOptions};
use std::io::ErrorKind;

/// How a node starts.
#[derive(Clone, Copy, PartialEq, Eq)]
pub enum Start {
    /// For the first time: its files are made.
    First,
    /// Over the files that it has.
    Again,
}

// The file of a name, which has no bytes where it is missing.
fn found<R: Files<File = File>>(rt: &R, name: &str) -> Backing<File> {
    let mut options = OpenOptions::new();
    options.read(true).write(true);
    match options.open(rt, name) {
        Ok(file) => Backing::File(file),
        Err(error) if error.kind() == ErrorKind::NotFound => Backing::Missing,
        Err(_) => Backing::Failed,
    }
}

fn backing<R: Files<File = File>>(rt: &R, name: &str, start: Start) -> Backing<File> {
    match start {
        Start::First => changed(rt, name),
        Start::Again => found(rt, name),
    }
}

fn pair_of(first: Backing<File>, second: Backing<File>) -> Pair<FileDisk<File>> {
    Pair {
        first: FileDisk::new(first),
        second: FileDisk::new(second),
    }
}

// The two disks. Where one file alone is missing, it may be the one that counted, so that both disks fail.
fn whole_pair(first: Backing<File>, second: Backing<File>) -> Pair<FileDisk<File>> {
    match (first, second) {
        (Backing::Missing, Backing::File(_)) => pair_of(Backing::Failed, Backing::Failed),
        (Backing::File(_), Backing::Missing) => pair_of(Backing::Failed, Backing::Failed),
        (first, second) => pair_of(first, second),
    }
}

/// The disks of one node, and the folder that has their files. No other process changes them as long as this is kept.
#[derive(Drop)]
pub struct NodeDisks {
    pub pair: Pair<FileDisk<File>>,
    held: Option<File>,
}

impl NodeDisks {
    // Disks that fail at each call.
    fn failed(held: Option<File>) -> NodeDisks {
        NodeDisks {
            pair: pair_of(Backing::Failed, Backing::Failed),
            held,
        }
    }

    /// Of the node at position 7 the disks are the files `d07a` and `d07b` in the folder of this name, which are made where
    /// they are missing for a first start alone, and never cut. They fail at each call where a file can't be opened, where
    /// one alone is missing, where the folder can't be opened or another process uses it, and where a first start can't sync
    /// the folder, by which the names of its files last. Each file is synced before it is read: where that fails, its disk
    /// fails at each call. An error comes where memory runs out.
    pub fn open<R>(
        rt: &R,
        name: &String,
        position: u8,
        start: Start,
    ) -> Result<NodeDisks, AllocError>
    where
        R: Files<File = File> + AllocGlobal,
    {
        let Some(folder) = held(rt, name, Access::Change) else {
            return Ok(NodeDisks::failed(None));
        };
        let first = format!(in rt.alloc(); "{name}/d{position:02}a")?;
        let second = format!(in rt.alloc(); "{name}/d{position:02}b")?;
        let first = backing(rt, first.as_str(), start);
        let second = backing(rt, second.as_str(), start);
        if start == Start::First && !is_synced(&folder, Access::Change) {
            return Ok(NodeDisks::failed(Some(folder)));
        }
        let mut pair = whole_pair(first, second);
        pair.first.settle();
        pair.second.settle();
        Ok(NodeDisks {
            pair,
            held: Some(folder),
        })
    }
}
