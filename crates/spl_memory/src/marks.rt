//! The changes of a disk in memory, each with what it took away.
ghost use Rattle.std.specs.Prelude.{◌≡◌, ◌≤◌, ◌+◌, ◌∷◌, [], length, take, OnOk, OnErr};
ghost use Rattle.spl_memory.specs.Marks.{was, range_of};
ghost use Rattle.spl_edge.specs.Devices.{patched};

use crate::patch::patch;
use spl_edge::{Arming, Fill};
use std::alloc::AllocError;

/// A write over bytes that were there: those bytes, and the length before.
#[derive(Drop)]
pub struct Over {
    pub at: usize,
    pub count: usize,
    pub old: Vec<u8>,
    pub len: usize,
}

/// A cut, and the bytes from there on.
#[derive(Drop)]
pub struct Rest {
    pub at: usize,
    pub old: Vec<u8>,
}

/// A pick: how many first bytes it left as they were, and the bytes after those.
#[derive(Drop)]
pub struct Pick {
    pub fill: Fill,
    pub arming: Arming,
    pub faults: u64,
    pub same: usize,
    pub old: Vec<u8>,
}

/// A change, and what it took away. The frequent ones are kept small: a write at the end, which took nothing, and one
/// of a single byte.
#[derive(Drop)]
pub enum Kind {
    Appended { count: u32, at: usize },
    Turned { old: u8, at: usize },
    Wrote(Box<Over>),
    Cut(Box<Rest>),
    Synced,
    Picked(Box<Pick>),
}

/// A change, and the moment after it.
#[derive(Drop)]
pub struct Mark {
    pub moment: u64,
    pub kind: Kind,
}

const _: () = prove!(size_of::<Mark>() == 24);

impl Mark {
    /// The offset and the number of the bytes that were written; a cut wrote none.
    pub(crate) fn range(&self) -> (usize, usize)
        ensures { result ≡ range_of self.now }
    {
        match &self.kind {
            Kind::Appended { count, at } => (*at, *count as usize),
            Kind::Turned { at, .. } => (*at, 1),
            Kind::Wrote(over) => (over.at, over.count),
            Kind::Cut(rest) => (rest.at, 0),
            Kind::Synced => (0, 0),
            Kind::Picked(_) => (0, 0),
        }
    }
}

/// These bytes at an offset, and no more than so many.
fn put_back(bytes: &mut Vec<u8>, at: usize, old: &[u8], len: usize) -> Result<(), AllocError>
    ensures { OnOk result (bytes.new.items ≡ take len (patched bytes.old.items at old.now)) }
{
    let from = at.min(bytes.len());
    patch(bytes, from, old)?;
    bytes.truncate(len);
    Ok(())
}

/// The bytes from before a change.
pub(crate) fn undo(bytes: &mut Vec<u8>, kind: &Kind) -> Result<(), AllocError>
    ensures { OnOk result (bytes.new.items ≡ was kind.now bytes.old.items) }
{
    match kind {
        Kind::Appended { at, .. } => {
            bytes.truncate(*at);
            Ok(())
        }
        Kind::Turned { old, at } => {
            let from = (*at).min(bytes.len());
            patch(bytes, from, &[*old])
        }
        Kind::Wrote(over) => put_back(bytes, over.at, &over.old, over.len),
        Kind::Cut(rest) => bytes.extend_from_slice(&rest.old),
        Kind::Synced => Ok(()),
        Kind::Picked(pick) => {
            bytes.truncate(pick.same);
            bytes.extend_from_slice(&pick.old)
        }
    }
}
