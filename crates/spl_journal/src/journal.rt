//! A journal on a disk.
ghost use Rattle.std.specs.Prelude.{◌≡◌, ◌≤◌, ◌<◌, ◌+◌, ◌^◌, ◌++◌, ◌∷◌, [], ℕ, true, false, Some, Ok, length, OnOk, OnErr, IfSome, IsSome, IsOk, IsErrOf};
ghost use Rattle.spl_edge.specs.Devices.{Rose, Image, image_now, Onward};
ghost use Rattle.spl_journal.specs.{Gate.{LeavesSince, ByCalls, opened}, Records.{blocks, following, form_number, records, records_of, sized, IsGood}};
ghost use Rattle.spl_journal.specs.Records.{AreGood, IsBeforeOrAfter, IsBeforeOrAll, SameHead};

use crate::bytes::sized;
use crate::filling::filling;
use crate::gate::open_gate;
use crate::journal_form::WRITTEN;
use crate::{Form, JournalFault, Records, fault_of};
use spl_edge::Disk;
use std::alloc::Global;
use std::marker::PhantomData;

/// How many bytes a journal may have above twice its base, before a checkpoint is made.
pub const SLACK: u64 = 65_536;

/// The place where the records of a disk end, and how many bytes they have. It keeps no record.
#[derive(Drop)]
pub struct Journal<R> {
    /// The closed gate after the records.
    pub(crate) end: u64,
    pub(crate) base: u64,
    pub(crate) epoch: u64,
    /// How many bytes the disk has.
    pub(crate) extent: u64,
    pub(crate) halted: bool,
    /// What the last append wrote; the next one takes its memory.
    pub(crate) piece: Option<Vec<u8>>,
    pub(crate) of: PhantomData<R>,
    ghost small: { end < 2 ^ 63 },
    ghost low: { base < 2 ^ 63 },
    ghost short: { extent < 2 ^ 63 },
}

impl<R: Form> Journal<R> {
    ghost use Rattle.spl_journal.specs.Journals.{end_of, len_of, base_of, epoch_of, extent_of, is_halted, has_room, Stands};

    /// How many bytes the journal has: the offset after the closed gate.
    pub fn len(&self) -> u64
        ensures { result ≡ len_of self.now }
    {
        self.end + 1
    }

    /// The length from which its growth is counted: 18, or that at its checkpoint.
    pub fn base(&self) -> u64
        ensures { result ≡ base_of self.now }
    {
        self.base
    }

    /// Its epoch.
    pub fn epoch(&self) -> u64
        ensures { result ≡ epoch_of self.now }
    {
        self.epoch
    }

    /// The number of the form in which it is written: the one in which journals are made.
    pub fn form(&self) -> u8
        ensures { (i : Image) → Stands R.is_record self.now i → form_number i.bytes ≡ Some result }
    {
        WRITTEN.number
    }

    /// How many bytes its disk has.
    pub fn extent(&self) -> u64
        ensures { result ≡ extent_of self.now }
    {
        self.extent
    }

    /// Whether a call of it failed, so that the disk has to be read again.
    pub fn halted(&self) -> bool
        ensures { result ≡ is_halted self.now }
    {
        self.halted
    }

    /// Whether it has at most twice its base and `SLACK` bytes.
    pub fn room(&self) -> bool
        ensures { result ≡ has_room self.now }
    {
        (self.end + 1).saturating_sub(self.base) <= self.base + SLACK
    }

    /// Adds a record by four calls of the disk, once all memory is taken. After an error it is halted.
    pub fn append<D: Disk>(
        &mut self,
        alloc: Global,
        disk: &mut D,
        bytes: &[u8],
    ) -> Result<(), JournalFault>
        requires running { is_halted self.old ≡ false }
        requires good { IsGood R.is_record bytes.now }
        requires stands { IfSome (image_now (D.view disk.old)) (Stands R.is_record self.old) }

        ensures stands { OnOk result (IfSome (image_now (D.view disk.new)) (Stands R.is_record self.new)) }
        ensures records { OnOk result (IfSome (image_now (D.view disk.old)) (λ i.
            IfSome (image_now (D.view disk.new)) (λ j. records R.is_record j.bytes ≡ Ok (records_of R.is_record i.bytes ++ bytes.now ∷ [])))) }
        ensures tells { OnOk result (IfSome (image_now (D.view disk.old)) (λ i. IsSome (image_now (D.view disk.new)))) }
        ensures four { OnOk result ((D.view disk.new).moment ≡ (D.view disk.old).moment + 4) }

        // A stop at any moment of the call leaves the records from before it, or those and the new one.
        ensures any_moment { IfSome (image_now (D.view disk.old)) (λ i.
            LeavesSince (D.view disk.old) (D.view disk.new) (IsBeforeOrAfter R.is_record (records_of R.is_record i.bytes) bytes.now)) }
        ensures head { IfSome (image_now (D.view disk.old)) (λ i.
            LeavesSince (D.view disk.old) (D.view disk.new) (SameHead i.bytes)) }
        ensures by_calls { ByCalls 4 (D.view disk.old) (D.view disk.new) (opened (end_of self.old) (sized bytes.now)) (IsOk result)
            (IsErrOf result JournalFault.Disk) }
        ensures onward { Onward (D.view disk.old) (D.view disk.new) }
        ensures failed { IsErrOf result JournalFault.Disk → Rose (D.view disk.old).faults (D.view disk.new).faults }
        ensures not { (at : ℕ) → IsErrOf result (JournalFault.NotAJournal at) → ⊥ }
        ensures halted { OnErr result (is_halted self.new ≡ true) }
        ensures running { OnOk result (is_halted self.new ≡ false) }
        ensures len { OnOk result (len_of self.new ≡ len_of self.old + 5 + length bytes.now) }
        ensures same { (base_of self.new ≡ base_of self.old) × (epoch_of self.new ≡ epoch_of self.old) }
    {
        let gate = self.end;
        self.halted = true;
        let last = self.piece.take();
        let Ok(piece) = sized(alloc, last, bytes) else {
            return Err(JournalFault::NoMemory);
        };
        if let Err(fault) = open_gate(disk, gate, &piece) {
            return Err(fault_of(fault));
        }
        self.end = gate + 5 + bytes.len() as u64;
        self.extent = self.extent.max(self.end + 1);
        self.piece = Some(piece);
        self.halted = false;
        Ok(())
    }

    /// Adds records, one or more, by four calls of the disk, once all memory is taken: all of them are written with their
    /// gates, of which only the one before the first is closed and is opened once the rest is synced. After an error it is
    /// halted.
    pub fn append_all<D: Disk>(
        &mut self,
        alloc: Global,
        disk: &mut D,
        contents: &Records,
    ) -> Result<(), JournalFault>
        requires running { is_halted self.old ≡ false }
        requires some { 0 < length contents.now }
        requires good { AreGood R.is_record contents.now }
        requires stands { IfSome (image_now (D.view disk.old)) (Stands R.is_record self.old) }

        ensures stands { OnOk result (IfSome (image_now (D.view disk.new)) (Stands R.is_record self.new)) }
        ensures records { OnOk result (IfSome (image_now (D.view disk.old)) (λ i.
            IfSome (image_now (D.view disk.new)) (λ j. records R.is_record j.bytes ≡ Ok (records_of R.is_record i.bytes ++ contents.now)))) }
        ensures tells { OnOk result (IfSome (image_now (D.view disk.old)) (λ i. IsSome (image_now (D.view disk.new)))) }
        ensures four { OnOk result ((D.view disk.new).moment ≡ (D.view disk.old).moment + 4) }

        // A stop at any moment of the call leaves the records from before it, or those and all of the new ones.
        ensures any_moment { IfSome (image_now (D.view disk.old)) (λ i.
            LeavesSince (D.view disk.old) (D.view disk.new) (IsBeforeOrAll R.is_record (records_of R.is_record i.bytes) contents.now)) }
        ensures head { IfSome (image_now (D.view disk.old)) (λ i.
            LeavesSince (D.view disk.old) (D.view disk.new) (SameHead i.bytes)) }
        ensures by_calls { ByCalls 4 (D.view disk.old) (D.view disk.new) (opened (end_of self.old) (following contents.now)) (IsOk result)
            (IsErrOf result JournalFault.Disk) }
        ensures onward { Onward (D.view disk.old) (D.view disk.new) }
        ensures failed { IsErrOf result JournalFault.Disk → Rose (D.view disk.old).faults (D.view disk.new).faults }
        ensures not { (at : ℕ) → IsErrOf result (JournalFault.NotAJournal at) → ⊥ }
        ensures halted { OnErr result (is_halted self.new ≡ true) }
        ensures running { OnOk result (is_halted self.new ≡ false) }
        ensures len { OnOk result (len_of self.new ≡ len_of self.old + length (blocks contents.now)) }
        ensures same { (base_of self.new ≡ base_of self.old) × (epoch_of self.new ≡ epoch_of self.old) }
    {
        let gate = self.end;
        self.halted = true;
        let Ok(piece) = filling::<R>(alloc, contents.as_slice()) else {
            return Err(JournalFault::NoMemory);
        };
        if let Err(fault) = open_gate(disk, gate, &piece[1..]) {
            return Err(fault_of(fault));
        }
        self.end = gate + (piece.len() - 1) as u64;
        self.extent = self.extent.max(self.end + 1);
        self.halted = false;
        Ok(())
    }
}
