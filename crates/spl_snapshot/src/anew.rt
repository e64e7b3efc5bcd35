//! A journal written again on a disk that doesn't count.
ghost use Rattle.std.specs.Prelude.{◌≡◌, ◌≤◌, ◌<◌, ◌+◌, ℕ, Ok, false, not, length, IsTrue, OnOk, IfOk, IfSome, IsErrOf};
ghost use Rattle.spl_edge.specs.{Devices.{fails_at, Onward, Rose, MayLeave, picked_bytes, image_now, pair_view}, declared.fill.Fill.Fill};
ghost use Rattle.spl_journal.specs.{Clear.IsAtRest, Gate.LeavesSince, Journals.{Stands, len_of, base_of, epoch_of, extent_of, is_halted}, Records.blocks};
ghost use Rattle.spl_journal.specs.Records.{records, AreGood};
ghost use Rattle.spl_snapshot.specs.Counting.{chosen, second_counts, pair_records_of, HaveRecords, HaveEither, IfPairTells, counting_disk, other_disk};
ghost use Rattle.spl_snapshot.specs.{Counting.{counting_image, other_image, IfBoth, PairLeaves, PairOnward, PairTellsAs, TellsAs}, Anew.IsBelow};
ghost use Rattle.spl_snapshot.specs.{Anew.IsSameOrAnew, Stopped.{IsShutOrSame, PairPicksCount, StopsShut}};

use spl_edge::{Disk, Pair};
use spl_journal::{Form, Journal, JournalFault, Records, clear, fill, heads_are_opened_last};
use std::alloc::Global;

/// Writes a journal of these records over a disk, by eight calls.
pub(crate) fn write_anew<R: Form, D: Disk>(
    alloc: Global,
    disk: &mut D,
    len: u64,
    epoch: u64,
    contents: &Records,
) -> Result<Journal<R>, JournalFault>
    requires rest { IfSome (image_now (D.view disk.old)) (IsAtRest len) }
    requires good { AreGood R.is_record contents.now }
    ensures stands { IfOk result (λ j. IfSome (image_now (D.view disk.new)) (Stands R.is_record j)) }
    ensures records { OnOk result (IfSome (image_now (D.view disk.new)) (λ i. records R.is_record i.bytes ≡ Ok contents.now)) }
    ensures len { IfOk result (λ j. (len_of j ≡ 18 + length (blocks contents.now)) × (base_of j ≡ len_of j) × (extent_of j ≡ len_of j)) }
    ensures fresh { IfOk result (λ j. (epoch_of j ≡ epoch) × (is_halted j ≡ false)) }
    ensures eight { OnOk result ((D.view disk.new).moment ≡ (D.view disk.old).moment + 8) }
    ensures passed { OnOk result ((n : ℕ) → n < 8 → IsTrue (fails_at (D.view disk.old).armed ((D.view disk.old).moment + n)) → ⊥) }
    ensures any_moment { IfSome (image_now (D.view disk.old)) (λ i.
        LeavesSince (D.view disk.old) (D.view disk.new) (IsSameOrAnew R.is_record epoch contents.now i.bytes)) }
    // Where it stops at a call after which a fill doesn't leave the head open, that fill picks a head that isn't, or the one from before.
    ensures shut { IsErrOf result JournalFault.Disk → (fill : Fill) → StopsShut fill (D.view disk.old).armed (D.view disk.old).moment
        → IfSome (image_now (D.view disk.old)) (λ i. IfSome (image_now (D.view disk.new)) (λ j.
        MayLeave j (picked_bytes fill j) → IsShutOrSame i.bytes (picked_bytes fill j))) }
    ensures told { OnOk result (TellsAs (image_now (D.view disk.old)) (image_now (D.view disk.new))) }
    ensures onward { Onward (D.view disk.old) (D.view disk.new) }
    ensures failed { IsErrOf result JournalFault.Disk → Rose (D.view disk.old).faults (D.view disk.new).faults }
    ensures not { (at : ℕ) → IsErrOf result (JournalFault.NotAJournal at) → ⊥ }
{
    let cleared = match clear(disk, len, epoch) {
        Ok(cleared) => cleared,
        Err(fault) => return Err(fault),
    };
    heads_are_opened_last();
    match fill::<R, D>(alloc, cleared, disk, contents) {
        Ok(journal) => Ok(journal),
        Err(fault) => Err(fault),
    }
}

/// Writes a journal of these records and this epoch over the one of two disks that doesn't count, by eight calls. The other,
/// which is the second where this is true, has a journal of a lower epoch.
pub(crate) fn write_other<R: Form, D: Disk>(
    alloc: Global,
    disks: &mut Pair<D>,
    second: bool,
    len: u64,
    epoch: u64,
    contents: &Records,
) -> Result<Journal<R>, JournalFault>
    requires below { IfSome (counting_image second (pair_view D.view disks.old)) (IsBelow R.is_record epoch) }
    requires rest { IfSome (other_image second (pair_view D.view disks.old)) (IsAtRest len) }
    requires counts { IfPairTells (pair_view D.view disks.old) (λ i j.
        second_counts i.bytes j.bytes ≡ second) }
    requires good { AreGood R.is_record contents.now }
    ensures stands { IfOk result (λ j. IfSome (counting_image (not second) (pair_view D.view disks.new))
        (Stands R.is_record j)) }
    ensures counts { OnOk result (IfPairTells (pair_view D.view disks.new) (λ i j.
        second_counts i.bytes j.bytes ≡ not second)) }

    // A stop at any moment of the call leaves the records from before it or those handed in; after Ok those handed in.
    ensures any_moment { IfPairTells (pair_view D.view disks.old) (λ i j.
        PairLeaves (pair_view D.view disks.old) (pair_view D.view disks.new)
        (HaveEither R.is_record (pair_records_of R.is_record i.bytes j.bytes) contents.now)) }
    ensures after { OnOk result (PairLeaves (pair_view D.view disks.new) (pair_view D.view disks.new) (HaveRecords R.is_record contents.now)) }

    // Where it stops at a call after which a fill doesn't leave the new head open, the disk that counted counts in what that fill picks.
    ensures shut { IsErrOf result JournalFault.Disk → (fill : Fill)
        → StopsShut fill (D.view (other_disk second disks.old)).armed (D.view (other_disk second disks.old)).moment
        → PairPicksCount (pair_view D.view disks.old) (pair_view D.view disks.new) fill second }
    ensures told { OnOk result (PairTellsAs (pair_view D.view disks.old) (pair_view D.view disks.new)) }
    ensures counting { counting_disk second disks.new ≡ counting_disk second disks.old }
    ensures eight { OnOk result ((D.view (other_disk second disks.new)).moment
        ≡ (D.view (other_disk second disks.old)).moment + 8) }
    ensures passed { OnOk result ((n : ℕ) → n < 8 → IsTrue (fails_at (D.view (other_disk second disks.old)).armed
        ((D.view (other_disk second disks.old)).moment + n)) → ⊥) }
    ensures len { IfOk result (λ j. (len_of j ≡ 18 + length (blocks contents.now)) × (base_of j ≡ len_of j)) }
    ensures fresh { IfOk result (λ j. (epoch_of j ≡ epoch) × (is_halted j ≡ false)) }
    ensures not { (at : ℕ) → IsErrOf result (JournalFault.NotAJournal at) → ⊥ }
    ensures failed { IsErrOf result JournalFault.Disk → Rose (D.view (counting_disk (not second) disks.old)).faults
        (D.view (counting_disk (not second) disks.new)).faults }
    ensures onward { PairOnward (pair_view D.view disks.old) (pair_view D.view disks.new) }
{
    if second {
        return match write_anew(alloc, &mut disks.first, len, epoch, contents) {
            Ok(journal) => Ok(journal),
            Err(fault) => Err(fault),
        };
    }
    match write_anew(alloc, &mut disks.second, len, epoch, contents) {
        Ok(journal) => Ok(journal),
        Err(fault) => Err(fault),
    }
}
