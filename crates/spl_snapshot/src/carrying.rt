//! A pairing of what was read: the journal that counts as it stands, or written again where its form is an older one.
ghost use Rattle.std.specs.Prelude.{◌≡◌, ◌+◌, ◌≤◌, ◌<◌, ◌^◌, ℕ, true, false, not, length, if◌then◌else◌, OnOk, IfOk, IsOk, IsErrOf, Option};
ghost use Rattle.spl_edge.specs.Devices.{Image, image_now, pair_view};
ghost use Rattle.spl_journal.specs.{Journals.{base_of, epoch_of, has_ended, epoch_walked, form_walked}, Records.{blocks, is_older, AreGood}};
ghost use Rattle.spl_snapshot.specs.Counting.{chosen, pair_records_of, HaveEither, HasRisen, IfBoth, PairLeaves, PairOnward, PairTellsAs, IfPairTells};
ghost use Rattle.spl_snapshot.specs.{Counting.counting_disk, Pairs.{PairStands, PairWalks, is_halted, is_second, journal_in, walk_in, walks_second}};
ghost use Rattle.spl_snapshot.specs.Pairs.{PairStandsOn, PairWalksOn};

use crate::anew::write_other;
use crate::{Packed, PairWalk, Pairing};
use spl_edge::{Disk, Pair};
use spl_journal::{Form, JournalFault, Records};
use std::alloc::Global;

impl<R: Form> PairWalk<R> {
    /// The pairing of a journal that is written as journals are made.
    fn into_pairing(self) -> Pairing<R>
        requires ended { has_ended (walk_in self) ≡ true }
        requires form { is_older (form_walked (walk_in self)) ≡ false }
        ensures stands { (first second : Option Image) → PairWalks R.is_record self first second → PairStands R.is_record result first second }
        ensures same { (is_second result ≡ walks_second self) × (epoch_of (journal_in result) ≡ epoch_walked (walk_in self)) }
        ensures base { base_of (journal_in result) ≡ 18 }
        ensures running { is_halted result ≡ false }
    {
        Pairing {
            journal: self.walk.finish(),
            second: self.second,
            other: self.other,
            halted: false,
        }
    }

    /// The pairing of a journal of an older form, which is written again on the other disk, with these records and the next
    /// epoch, by eight calls.
    fn carry_over<D: Disk>(
        self,
        alloc: Global,
        disks: &mut Pair<D>,
        contents: &Records,
    ) -> Result<Pairing<R>, JournalFault>
        requires ended { has_ended (walk_in self) ≡ true }
        requires form { is_older (form_walked (walk_in self)) ≡ true }
        requires good { AreGood R.is_record contents.now }
        requires walks { PairWalksOn R.is_record self (pair_view D.view disks.old) }
        ensures stands { IfOk result (λ p. PairStandsOn R.is_record p (pair_view D.view disks.new)) }
        ensures any_moment { IfPairTells (pair_view D.view disks.old) (λ i j.
            PairLeaves (pair_view D.view disks.old) (pair_view D.view disks.new)
            (HaveEither R.is_record (pair_records_of R.is_record i.bytes j.bytes) contents.now)) }
        ensures counting { counting_disk (walks_second self) disks.new ≡ counting_disk (walks_second self) disks.old }
        ensures turned { IfOk result (λ p. (is_second p ≡ not (walks_second self)) × (epoch_of (journal_in p) ≡ epoch_walked (walk_in self) + 1)) }
        ensures base { IfOk result (λ p. base_of (journal_in p) ≡ 18 + length (blocks contents.now)) }
        ensures running { IfOk result (λ p. is_halted p ≡ false) }
        ensures told { OnOk result (PairTellsAs (pair_view D.view disks.old) (pair_view D.view disks.new)) }
        ensures not { (at : ℕ) → IsErrOf result (JournalFault.NotAJournal at) → ⊥ }
        ensures failed { IsErrOf result JournalFault.Disk → HasRisen (pair_view D.view disks.old) (pair_view D.view disks.new) }
        ensures onward { PairOnward (pair_view D.view disks.old) (pair_view D.view disks.new) }
    {
        let epoch = self.walk.next_epoch();
        match write_other(alloc, disks, self.second, self.other, epoch, contents) {
            Ok(journal) => Ok(Pairing {
                journal,
                second: !self.second,
                other: self.walk.extent(),
                halted: false,
            }),
            Err(fault) => Err(fault),
        }
    }

    /// The pairing that was read, once `next` has answered None. A journal that is written as journals are made is taken as it
    /// stands, without a call. One of an older form is written again on the other disk, with the records that `state` packs
    /// into and the next epoch, by eight calls, and that disk counts from then on.
    pub fn finish<P: Packed, D: Disk>(
        self,
        alloc: Global,
        disks: &mut Pair<D>,
        state: &P,
    ) -> Result<Pairing<R>, JournalFault>
        requires ended { has_ended (walk_in self) ≡ true }
        requires packed { AreGood R.is_record (P.packed state.now) }
        requires walks { PairWalksOn R.is_record self (pair_view D.view disks.old) }
        ensures stands { IfOk result (λ p. PairStandsOn R.is_record p (pair_view D.view disks.new)) }

        // A stop at any moment of the call leaves the records that were read, or the packed ones.
        ensures any_moment { IfPairTells (pair_view D.view disks.old) (λ i j.
            PairLeaves (pair_view D.view disks.old) (pair_view D.view disks.new)
            (HaveEither R.is_record (pair_records_of R.is_record i.bytes j.bytes) (P.packed state.now))) }

        // The disk that counted is as it was, and so is the other where nothing is written again.
        ensures counting { counting_disk (walks_second self) disks.new ≡ counting_disk (walks_second self) disks.old }
        ensures written { is_older (form_walked (walk_in self)) ≡ false → disks.new ≡ disks.old }
        ensures taken { is_older (form_walked (walk_in self)) ≡ false → IsOk result }
        ensures same { is_older (form_walked (walk_in self)) ≡ false
            → IfOk result (λ p. (is_second p ≡ walks_second self) × (epoch_of (journal_in p) ≡ epoch_walked (walk_in self))) }
        ensures turned { is_older (form_walked (walk_in self)) ≡ true
            → IfOk result (λ p. (is_second p ≡ not (walks_second self)) × (epoch_of (journal_in p) ≡ epoch_walked (walk_in self) + 1)) }
        ensures base { IfOk result (λ p. base_of (journal_in p)
            ≡ (if is_older (form_walked (walk_in self)) then 18 + length (blocks (P.packed state.now)) else 18)) }
        ensures running { IfOk result (λ p. is_halted p ≡ false) }
        ensures told { OnOk result (PairTellsAs (pair_view D.view disks.old) (pair_view D.view disks.new)) }
        ensures not { (at : ℕ) → IsErrOf result (JournalFault.NotAJournal at) → ⊥ }
        ensures failed { IsErrOf result JournalFault.Disk → HasRisen (pair_view D.view disks.old) (pair_view D.view disks.new) }
        ensures onward { PairOnward (pair_view D.view disks.old) (pair_view D.view disks.new) }
    {
        if !self.walk.is_older() {
            return Ok(self.into_pairing());
        }
        let Ok(contents) = state.pack(alloc) else {
            return Err(JournalFault::NoMemory);
        };
        self.carry_over(alloc, disks, &contents)
    }
}
