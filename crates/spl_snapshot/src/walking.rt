//! The journal that counts of two disks, read one record after another.
ghost use Rattle.std.specs.Prelude.{◌≡◌, ◌≤◌, ◌<◌, ◌++◌, ◌∷◌, [], ℕ, true, false, Ok, Err, Option, OnErr, IfOk, IfSome, IfNone, IsErrOf};
ghost use Rattle.spl_edge.specs.Devices.{Image, IsSettled, image_now, pair_view};
ghost use Rattle.spl_journal.specs.{Journals.{has_ended, left_of, longest_walked}, Records.IsRecord};
ghost use Rattle.spl_snapshot.specs.{Counting.{IfBoth, pair_records, HaveRecords, PairOnward, PairStays, HasRisen, IfPairTells}, Pairs.PairWalks};
ghost use Rattle.spl_snapshot.specs.Pairs.{pair_given, walk_in, PairWalksOn};

use crate::choice::{choose, look};
use spl_edge::{Disk, Pair};
use spl_journal::{Form, JournalFault, Walk};
use std::alloc::Global;

/// How far the journal that counts was read, and the length of the other disk. It keeps no record.
#[derive(Drop)]
pub struct PairWalk<R> {
    pub(crate) walk: Walk<R>,
    /// Whether the second disk counts.
    pub(crate) second: bool,
    /// How many bytes the other disk has.
    pub(crate) other: u64,
}

/// Begins to read the journal that counts. Where neither disk is open, it isn't a journal at the place where the first
/// isn't.
pub fn walk_pair<R: Form, D: Disk>(disks: &mut Pair<D>) -> Result<PairWalk<R>, JournalFault>
    requires first { IfSome (image_now (D.view disks.old.first)) IsSettled }
    requires second { IfSome (image_now (D.view disks.old.second)) IsSettled }
    ensures walks { IfOk result (λ w. PairWalksOn R.is_record w (pair_view D.view disks.old)) }
    ensures start { IfOk result (λ w. IfPairTells (pair_view D.view disks.old)
        (λ i j. pair_given R.is_record w i.bytes j.bytes ≡ [])) }
    ensures not { (at : ℕ) → IsErrOf result (JournalFault.NotAJournal at)
        → IfPairTells (pair_view D.view disks.old)
        (λ i j. pair_records R.is_record i.bytes j.bytes ≡ Err at) }
    ensures stays { PairStays (pair_view D.view disks.old) (pair_view D.view disks.new) }
    ensures failed { IsErrOf result JournalFault.Disk → HasRisen (pair_view D.view disks.old) (pair_view D.view disks.new) }
    ensures onward { PairOnward (pair_view D.view disks.old) (pair_view D.view disks.new) }
{
    let first = match look::<R, D>(&mut disks.first) {
        Ok(found) => found,
        Err(fault) => return Err(fault),
    };
    let second = match look::<R, D>(&mut disks.second) {
        Ok(found) => found,
        Err(fault) => return Err(fault),
    };
    match choose(first, second) {
        Ok(walk) => Ok(walk),
        Err(fault) => Err(fault),
    }
}

impl<R: Form> PairWalk<R> {
    /// The next record, or None after the last one. After an error the walk is as it was.
    pub fn next<D: Disk>(
        &mut self,
        alloc: Global,
        disks: &mut Pair<D>,
    ) -> Result<Option<R::Read>, JournalFault>
        requires walks { PairWalksOn R.is_record self.old (pair_view D.view disks.old) }
        ensures walks { PairWalksOn R.is_record self.new (pair_view D.view disks.old) }
        ensures good { IfOk result (λ found. IfSome found (λ r. IsRecord (longest_walked (walk_in self.old)) R.is_record (R.bytes_of r))) }
        ensures next { IfOk result (λ found. IfSome found (λ r. IfPairTells (pair_view D.view disks.old) (λ i j.
            pair_given R.is_record self.new i.bytes j.bytes ≡ pair_given R.is_record self.old i.bytes j.bytes ++ R.bytes_of r ∷ []))) }
        ensures shorter { IfOk result (λ found. IfSome found (λ r. left_of (walk_in self.new) < left_of (walk_in self.old))) }
        ensures none { IfOk result (λ found. IfNone found (IfPairTells (pair_view D.view disks.old) (λ i j.
            HaveRecords R.is_record (pair_given R.is_record self.old i.bytes j.bytes) i.bytes j.bytes))) }
        ensures ended { IfOk result (λ found. IfNone found (has_ended (walk_in self.new) ≡ true)) }
        ensures not { (at : ℕ) → IsErrOf result (JournalFault.NotAJournal at)
            → IfPairTells (pair_view D.view disks.old)
            (λ i j. pair_records R.is_record i.bytes j.bytes ≡ Err at) }
        ensures unmoved { OnErr result (self.new ≡ self.old) }
        ensures stays { PairStays (pair_view D.view disks.old) (pair_view D.view disks.new) }
        ensures failed { IsErrOf result JournalFault.Disk → HasRisen (pair_view D.view disks.old) (pair_view D.view disks.new) }
        ensures onward { PairOnward (pair_view D.view disks.old) (pair_view D.view disks.new) }
    {
        if self.second {
            return self.walk.next(alloc, &mut disks.second);
        }
        self.walk.next(alloc, &mut disks.first)
    }
}
