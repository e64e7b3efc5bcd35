//! A journal that is read, one record after another.
ghost use Rattle.std.specs.Prelude.{◌≡◌, ◌≤◌, ◌<◌, ◌+◌, ◌-◌, ◌^◌, ◌++◌, ◌∷◌, [], ℕ, true, false, Ok, Err, Some, length, OnErr, IfOk, IfSome, IfNone, IsErrOf};
ghost use Rattle.spl_edge.specs.Devices.{Rose, Image, IsSettled, image_now, Onward};
ghost use Rattle.spl_journal.specs.{Reads.Stays, Records.{records, head_fault, is_last, is_older, IsRecord}};

use crate::journal_form::JournalForm;
use crate::read::{read_head, read_next};
use crate::{Form, Journal, JournalFault, fault_of};
use spl_edge::Disk;
use std::alloc::Global;
use std::marker::PhantomData;

/// How far the journal of a disk was read. It keeps no record.
#[derive(Drop)]
pub struct Walk<R> {
    /// The gate after the records that it has given.
    at: u64,
    /// How many bytes the disk has.
    extent: u64,
    epoch: u64,
    form: JournalForm,
    ended: bool,
    of: PhantomData<R>,
    ghost within: { at < extent },
    ghost small: { extent < 2 ^ 63 },
    ghost next: { ended ≡ true → is_last form epoch ≡ false },
}

impl<R: Form> Journal<R> {
    ghost use Rattle.spl_journal.specs.Journals.{Walks, given_by};

    /// Begins to read the journal of a disk. It isn't one where fewer than 18 bytes or a head of no form stand there, or its
    /// gate is closed.
    pub fn walk<D: Disk>(disk: &mut D) -> Result<Walk<R>, JournalFault>
        requires settled { IfSome (image_now (D.view disk.old)) IsSettled }
        ensures walks { IfOk result (λ w. IfSome (image_now (D.view disk.old)) (Walks R.is_record w)) }
        ensures start { IfOk result (λ w. IfSome (image_now (D.view disk.old)) (λ i. given_by R.is_record w i.bytes ≡ [])) }
        ensures not { (at : ℕ) → IsErrOf result (JournalFault.NotAJournal at)
            → IfSome (image_now (D.view disk.old)) (λ i. head_fault i.bytes ≡ Some at) }
        ensures stays { Stays (D.view disk.old) (D.view disk.new) }
        ensures failed { IsErrOf result JournalFault.Disk → Rose (D.view disk.old).faults (D.view disk.new).faults }
        ensures onward { Onward (D.view disk.old) (D.view disk.new) }
    {
        let (epoch, form) = match read_head(disk) {
            Ok(head) => head,
            Err(fault) => return Err(fault),
        };
        let extent = match disk.len() {
            Ok(len) => len,
            Err(fault) => return Err(fault_of(fault)),
        };
        if extent < 18 {
            return Err(JournalFault::NotAJournal { at: 0 });
        }
        Ok(Walk {
            at: 17,
            extent,
            epoch,
            form,
            ended: false,
            of: PhantomData,
        })
    }
}

impl<R: Form> Walk<R> {
    ghost use Rattle.spl_journal.specs.Journals.{Walks, Stands, given_by, has_ended, left_of, epoch_walked, extent_walked, form_walked, longest_walked};
    ghost use Rattle.spl_journal.specs.Journals.{number_walked, base_of, epoch_of, extent_of, is_halted};

    /// The epoch of the journal that it reads.
    pub fn epoch(&self) -> u64
        ensures { result ≡ epoch_walked self.now }
    {
        self.epoch
    }

    /// How many bytes the disk has.
    pub fn extent(&self) -> u64
        ensures { result ≡ extent_walked self.now }
    {
        self.extent
    }

    /// The number of the form in which the journal is written.
    pub fn form(&self) -> u8
        ensures { result ≡ number_walked self.now }
    {
        self.form.number
    }

    /// Whether that form comes before the one in which journals are made. Once `next` has answered None, the epoch of such a
    /// journal isn't the last one.
    pub fn is_older(&self) -> bool
        ensures older { result ≡ is_older (form_walked self.now) }
        ensures last { has_ended self.now ≡ true → is_last (form_walked self.now) (epoch_walked self.now) ≡ false }
    {
        self.form.is_older()
    }

    /// The epoch with which a journal of an older form is written again, once `next` has answered None.
    pub fn next_epoch(&self) -> u64
        requires ended { has_ended self.now ≡ true }
        requires form { is_older (form_walked self.now) ≡ true }
        ensures next { result ≡ epoch_walked self.now + 1 }
        ensures last { is_last (form_walked self.now) (epoch_walked self.now) ≡ false }
    {
        self.epoch + 1
    }

    /// The next record, or None after the last one. A journal of an older form that has the last epoch is none, at the
    /// place of its epoch. After an error the walk is as it was.
    pub fn next<D: Disk>(
        &mut self,
        alloc: Global,
        disk: &mut D,
    ) -> Result<Option<R::Read>, JournalFault>
        requires walks { IfSome (image_now (D.view disk.old)) (Walks R.is_record self.old) }
        ensures walks { IfSome (image_now (D.view disk.old)) (Walks R.is_record self.new) }
        ensures good { IfOk result (λ found. IfSome found (λ r. IsRecord (longest_walked self.old) R.is_record (R.bytes_of r))) }
        ensures next { IfOk result (λ found. IfSome found (λ r. IfSome (image_now (D.view disk.old)) (λ i.
            given_by R.is_record self.new i.bytes ≡ given_by R.is_record self.old i.bytes ++ R.bytes_of r ∷ []))) }
        ensures shorter { IfOk result (λ found. IfSome found (λ r. left_of self.new < left_of self.old)) }
        ensures none { IfOk result (λ found. IfNone found (IfSome (image_now (D.view disk.old)) (λ i.
            records R.is_record i.bytes ≡ Ok (given_by R.is_record self.old i.bytes)))) }
        ensures ended { IfOk result (λ found. IfNone found (has_ended self.new ≡ true)) }
        ensures not { (at : ℕ) → IsErrOf result (JournalFault.NotAJournal at)
            → IfSome (image_now (D.view disk.old)) (λ i. records R.is_record i.bytes ≡ Err at) }
        ensures unmoved { OnErr result (self.new ≡ self.old) }
        ensures same { (epoch_walked self.new ≡ epoch_walked self.old) × (extent_walked self.new ≡ extent_walked self.old)
            × (form_walked self.new ≡ form_walked self.old) }
        ensures stays { Stays (D.view disk.old) (D.view disk.new) }
        ensures failed { IsErrOf result JournalFault.Disk → Rose (D.view disk.old).faults (D.view disk.new).faults }
        ensures onward { Onward (D.view disk.old) (D.view disk.new) }
    {
        if self.form.is_last(self.epoch) {
            return Err(JournalFault::NotAJournal { at: 8 });
        }
        let at = self.at;
        let found = match read_next::<R, D>(alloc, disk, at, self.form.longest) {
            Ok(found) => found,
            Err(fault) => return Err(fault),
        };
        let Some((record, size)) = found else {
            self.ended = true;
            return Ok(None);
        };
        let after = at + 5 + size;
        if self.extent <= after {
            return Err(JournalFault::NotAJournal { at });
        }
        self.at = after;
        self.ended = false;
        Ok(Some(record))
    }

    /// The journal that was read, once `next` has answered None. It is written in the form in which journals are made.
    pub fn finish(self) -> Journal<R>
        requires ended { has_ended self ≡ true }
        requires form { is_older (form_walked self) ≡ false }
        ensures stands { (i : Image) → Walks R.is_record self i → Stands R.is_record result i }
        ensures same { (epoch_of result ≡ epoch_walked self) × (extent_of result ≡ extent_walked self) }
        ensures base { base_of result ≡ 18 }
        ensures running { is_halted result ≡ false }
    {
        Journal {
            end: self.at,
            base: 18,
            epoch: self.epoch,
            extent: self.extent,
            halted: false,
            piece: None,
            of: PhantomData,
        }
    }
}
