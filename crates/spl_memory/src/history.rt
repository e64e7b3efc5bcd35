//! Bytes, and the changes that made them.
ghost use Rattle.std.specs.Prelude.{◌≡◌, ◌<◌, ◌≤◌, ◌∷◌, [], length, vec_len, take, map, OnOk, OnErr, IfOk};
ghost use Rattle.spl_memory.specs.{Changes.{Wrote, Cut}, Marks.{marks_undone, range_of}, Replay.{filled_in, Pushed}};
ghost use Rattle.spl_edge.specs.Devices.{Image, patched, after_sync, settled_at, filled, painted, picked_bytes, picked_of};

use crate::marks::{Kind, Mark, Over, Pick, Rest, undo};
use crate::patch::patch;
use spl_edge::{Arming, Fill};
use std::alloc::{AllocError, Global};

/// Bytes, the changes that made them, the oldest first, and how many changes there were at the last sync or pick.
/// Each byte is kept once: what was held before a change is what is held after it, and what the change took away.
#[derive(Drop)]
pub struct History {
    alloc: Global,
    bytes: Vec<u8>,
    marks: Vec<Mark>,
    since: usize,
    ghost within: { since ≤ vec_len marks },
}

/// How many first bytes are the same in both.
fn common_first(a: &[u8], b: &[u8]) -> usize
    ensures within { result ≤ length a.now }
    ensures same { take result a.now ≡ take result b.now }
{
    let most = a.len().min(b.len());
    let mut same = 0;
    while same < most && a[same] == b[same] {
        same += 1;
    }
    same
}

/// How many first bytes a pick of this fill leaves as they were. Where nothing was changed these are all.
fn same_first(fill: Fill, marks: &[Mark], bytes: &[u8], filled: &[u8]) -> usize
    requires { filled.now ≡ filled_in fill marks.now bytes.now }
    ensures within { result ≤ length bytes.now }
    ensures same { take result bytes.now ≡ take result filled.now }
{
    if marks.is_empty() {
        return bytes.len();
    }
    common_first(bytes, filled)
}

/// The bytes from before these changes.
fn old_bytes(alloc: Global, bytes: &[u8], marks: &[Mark]) -> Result<Vec<u8>, AllocError>
    ensures { IfOk result (λ old. old.items ≡ marks_undone marks.now bytes.now) }
{
    let mut old = bytes.to_vec(alloc)?;
    let mut left = marks.len();
    while left > 0 {
        left -= 1;
        undo(&mut old, &marks[left].kind)?;
    }
    Ok(old)
}

fn paint_range(bytes: &mut [u8], at: usize, count: usize, byte: u8)
    ensures { bytes.new ≡ painted byte (at, count) bytes.old }
{
    let from = at.min(bytes.len());
    let to = from + count.min(bytes.len() - from);
    bytes[from..to].fill(byte);
}

fn paint(bytes: &mut [u8], marks: &[Mark], byte: u8)
    ensures { bytes.new ≡ filled byte (map range_of marks.now) bytes.old }
{
    for mark in marks {
        let (at, count) = mark.range();
        paint_range(bytes, at, count, byte);
    }
}

/// What a pick of this fill leaves.
fn fill_in(alloc: Global, fill: Fill, marks: &[Mark], bytes: &[u8]) -> Result<Vec<u8>, AllocError>
    ensures { IfOk result (λ filled. filled.items ≡ filled_in fill marks.now bytes.now) }
{
    match fill {
        Fill::Old => old_bytes(alloc, bytes, marks),
        Fill::New => bytes.to_vec(alloc),
        Fill::Byte(byte) => {
            let mut filled = bytes.to_vec(alloc)?;
            paint(&mut filled, marks, byte);
            Ok(filled)
        }
    }
}

impl History {
    ghost use Rattle.spl_memory.specs.Histories.{Gained, IsSameHistory, IsHeldBy, calls_in};

    /// No bytes and no changes; nothing is allocated.
    pub(crate) fn new(alloc: Global) -> History
        ensures { (result.bytes.items ≡ []) × (result.marks.items ≡ []) }
    {
        History {
            alloc,
            bytes: Vec::new(alloc),
            marks: Vec::new(alloc),
            since: 0,
        }
    }

    /// What is held now.
    #[inline(always)]
    pub(crate) fn bytes(&self) -> &[u8]
        ensures { result.now ≡ self.now.bytes.items }
    {
        &self.bytes
    }

    /// Writes bytes at the end. When memory runs out all is as it was, as after each of these calls.
    #[inline(always)]
    fn append(&mut self, moment: u64, at: usize, piece: &[u8]) -> Result<(), AllocError>
        requires end { at ≡ length self.old.bytes.items }
        ensures ok { OnOk result (Gained moment (Wrote at piece.now) (at, length piece.now) self.old self.new) }
        ensures bytes { OnOk result (self.new.bytes.items ≡ patched self.old.bytes.items at piece.now) }
        ensures err { OnErr result (IsSameHistory self.old self.new) }
    {
        if piece.len() > u32::MAX as usize {
            return Err(AllocError);
        }
        let count = piece.len() as u32;
        self.marks.try_reserve(1)?;
        self.bytes.extend_from_slice(piece)?;
        let kind = Kind::Appended { count, at };
        self.marks.push(Mark { moment, kind }).unwrap();
        Ok(())
    }

    /// Writes one byte over another.
    #[inline(always)]
    fn turn(&mut self, moment: u64, at: usize, byte: u8) -> Result<(), AllocError>
        requires within { at < length self.old.bytes.items }
        ensures ok { OnOk result (Gained moment (Wrote at (byte ∷ [])) (at, 1) self.old self.new) }
        ensures bytes { OnOk result (self.new.bytes.items ≡ patched self.old.bytes.items at (byte ∷ [])) }
        ensures err { OnErr result (IsSameHistory self.old self.new) }
    {
        let old = self.bytes[at];
        let kind = Kind::Turned { old, at };
        self.marks.push(Mark { moment, kind })?;
        self.bytes[at] = byte;
        Ok(())
    }

    /// Writes bytes over others, and past the end.
    #[inline(never)]
    fn overwrite(&mut self, moment: u64, at: usize, piece: &[u8]) -> Result<(), AllocError>
        requires within { at ≤ length self.old.bytes.items }
        ensures ok { OnOk result (Gained moment (Wrote at piece.now) (at, length piece.now) self.old self.new) }
        ensures bytes { OnOk result (self.new.bytes.items ≡ patched self.old.bytes.items at piece.now) }
        ensures err { OnErr result (IsSameHistory self.old self.new) }
    {
        let len = self.bytes.len();
        let over = piece.len().min(len - at);
        let old = self.bytes[at..at + over].to_vec(self.alloc)?;
        let count = piece.len();
        let taken = Over {
            at,
            count,
            old,
            len,
        };
        let kind = Kind::Wrote(Box::new(self.alloc, taken)?);
        self.marks.try_reserve(1)?;
        patch(&mut self.bytes, at, piece)?;
        self.marks.push(Mark { moment, kind }).unwrap();
        Ok(())
    }

    /// Writes bytes at an offset.
    #[inline(always)]
    pub(crate) fn write(&mut self, moment: u64, at: usize, piece: &[u8]) -> Result<(), AllocError>
        requires within { at ≤ length self.old.bytes.items }
        ensures ok { OnOk result (Gained moment (Wrote at piece.now) (at, length piece.now) self.old self.new) }
        ensures bytes { OnOk result (self.new.bytes.items ≡ patched self.old.bytes.items at piece.now) }
        ensures err { OnErr result (IsSameHistory self.old self.new) }
    {
        if at == self.bytes.len() {
            return self.append(moment, at, piece);
        }
        match piece {
            [byte] => self.turn(moment, at, *byte),
            _ => self.overwrite(moment, at, piece),
        }
    }

    /// Cuts to a length.
    #[inline(never)]
    pub(crate) fn cut(&mut self, moment: u64, at: usize) -> Result<(), AllocError>
        requires within { at ≤ length self.old.bytes.items }
        ensures ok { OnOk result (Gained moment (Cut at) (at, 0) self.old self.new) }
        ensures bytes { OnOk result (self.new.bytes.items ≡ take at self.old.bytes.items) }
        ensures err { OnErr result (IsSameHistory self.old self.new) }
    {
        let old = self.bytes[at..].to_vec(self.alloc)?;
        let kind = Kind::Cut(Box::new(self.alloc, Rest { at, old })?);
        self.marks.push(Mark { moment, kind })?;
        self.bytes.truncate(at);
        Ok(())
    }

    /// Makes what is held now what a stop leaves.
    #[inline(always)]
    pub(crate) fn sync(&mut self, moment: u64) -> Result<(), AllocError>
        ensures calls { OnOk result (Pushed moment after_sync (λ i. []) (calls_in self.old) (calls_in self.new)) }
        ensures err { OnErr result (IsSameHistory self.old self.new) }
        ensures held { OnOk result ((i : Image) → IsHeldBy i self.old → IsHeldBy i self.new) }
    {
        let kind = Kind::Synced;
        self.marks.push(Mark { moment, kind })?;
        self.since = self.marks.len();
        Ok(())
    }

    /// Holds from now on what this fill makes of the changes since the last sync or pick.
    #[inline(never)]
    pub(crate) fn pick(
        &mut self,
        alloc: Global,
        moment: u64,
        fill: Fill,
        arming: Arming,
        faults: u64,
    ) -> Result<(), AllocError>
        ensures calls { OnOk result (Pushed moment (λ i. settled_at (picked_bytes fill i)) (λ i. picked_of fill arming faults i ∷ [])
            (calls_in self.old) (calls_in self.new)) }
        ensures err { OnErr result (IsSameHistory self.old self.new) }
        ensures held { OnOk result ((i : Image) → IsHeldBy i self.old → IsHeldBy i self.new) }
    {
        let filled = fill_in(alloc, fill, &self.marks[self.since..], &self.bytes)?;
        let same = same_first(fill, &self.marks[self.since..], &self.bytes, &filled);
        let old = self.bytes[same..].to_vec(alloc)?;
        let pick = Pick {
            fill,
            arming,
            faults,
            same,
            old,
        };
        let kind = Kind::Picked(Box::new(alloc, pick)?);
        self.marks.push(Mark { moment, kind })?;
        self.bytes = filled;
        self.since = self.marks.len();
        Ok(())
    }
}
