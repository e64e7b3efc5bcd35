//! The journals of two disks, of which one counts.
ghost use Rattle.std.specs.Prelude.{◌≡◌, ◌≤◌, ◌<◌, ◌+◌, ◌-◌, ◌^◌, ◌++◌, ◌∷◌, [], ℕ, true, false, not, length, Option, Some, IsTrue, OnOk, OnErr, IfOk};
ghost use Rattle.std.specs.Prelude.{IfSome, IsOk, IsErrOf};
ghost use Rattle.spl_edge.specs.{Devices.{fails_at, Onward, Rose, Image, image_now, pair_view}, declared.fill.Fill.Fill};
ghost use Rattle.spl_journal.specs.{Gate.{ByCalls, opened}, Journals.{end_of, len_of, base_of, epoch_of, has_room}, Records.{IsBlank, blocks, following}};
ghost use Rattle.spl_journal.specs.Records.{form_number, sized, IsGood, AreGood};
ghost use Rattle.spl_snapshot.specs.Calls.{CallsCounting, CallsOther, CountingRose, Ends, HasGrown, HasTurned, LeavesAppended, LeavesRewritten};
ghost use Rattle.spl_snapshot.specs.{Counting.{chosen, HaveRecords, IfPairTells, TellsAs}, Pairs.{PairStands, is_second, journal_in, is_halted}};
ghost use Rattle.spl_snapshot.specs.Pairs.{PairStandsOn};

use crate::anew::write_other;
use spl_edge::{Disk, Pair};
use spl_journal::{Form, Journal, JournalFault, Records, format};
use std::alloc::Global;

/// The journal on the disk that counts, and the length of the other. It keeps no record.
#[derive(Drop)]
pub struct Pairing<R> {
    pub(crate) journal: Journal<R>,
    /// Whether the second disk counts.
    pub(crate) second: bool,
    /// How many bytes the other disk has.
    pub(crate) other: u64,
    pub(crate) halted: bool,
}

/// Makes a journal of epoch 1 on the first of two blank disks, by four calls.
pub fn format_pair<R: Form, D: Disk>(
    alloc: Global,
    disks: &mut Pair<D>,
) -> Result<Pairing<R>, JournalFault>
    requires first { IfSome (image_now (D.view disks.old.first)) IsBlank }
    requires second { IfSome (image_now (D.view disks.old.second)) IsBlank }
    ensures stands { IfOk result (λ p. PairStandsOn R.is_record p (pair_view D.view disks.new)) }
    ensures empty { OnOk result (IfPairTells (pair_view D.view disks.new)
        (λ i j. HaveRecords R.is_record [] i.bytes j.bytes)) }
    ensures fresh { IfOk result (λ p. (is_second p ≡ false) × (is_halted p ≡ false) × (epoch_of (journal_in p) ≡ 1) × (len_of (journal_in p) ≡ 18)
        × (base_of (journal_in p) ≡ 18)) }
    ensures told_first { OnOk result (TellsAs (image_now (D.view disks.old.first)) (image_now (D.view disks.new.first))) }
    ensures not { (at : ℕ) → IsErrOf result (JournalFault.NotAJournal at) → ⊥ }
    ensures failed { IsErrOf result JournalFault.Disk → Rose (D.view disks.old.first).faults (D.view disks.new.first).faults }
    ensures on_first { Onward (D.view disks.old.first) (D.view disks.new.first) }
    ensures second { disks.new.second ≡ disks.old.second }
{
    let journal = match format::<R, D>(alloc, &mut disks.first, 1) {
        Ok(journal) => journal,
        Err(fault) => return Err(fault),
    };
    Ok(Pairing {
        journal,
        second: false,
        other: 0,
        halted: false,
    })
}

impl<R: Form> Pairing<R> {
    /// 0 where the journal on the first disk counts, and 1 where that on the second does.
    pub fn counting(&self) -> u8
        ensures { result ≡ chosen (is_second self.now) 0 1 }
    {
        if self.second { 1 } else { 0 }
    }

    /// The epoch of the journal that counts.
    pub fn epoch(&self) -> u64
        ensures { result ≡ epoch_of (journal_in self.now) }
    {
        self.journal.epoch()
    }

    /// The number of the form in which it is written.
    pub fn form(&self) -> u8
        ensures { (first second : Option Image) → PairStands R.is_record self.now first second
            → IfSome (chosen (is_second self.now) first second) (λ i. form_number i.bytes ≡ Some result) }
    {
        self.journal.form()
    }

    /// How many bytes it has.
    pub fn len(&self) -> u64
        ensures { result ≡ len_of (journal_in self.now) }
    {
        self.journal.len()
    }

    /// The length from which its growth is counted.
    pub fn base(&self) -> u64
        ensures { result ≡ base_of (journal_in self.now) }
    {
        self.journal.base()
    }

    /// Whether it has at most twice its base and `SLACK` bytes.
    pub fn room(&self) -> bool
        ensures { result ≡ has_room (journal_in self.now) }
    {
        self.journal.room()
    }

    /// Whether a call failed, so that the disks have to be read again.
    pub fn halted(&self) -> bool
        ensures { result ≡ is_halted self.now }
    {
        self.halted
    }

    /// Adds a record to the journal that counts, by four calls of its disk. After an error it is halted.
    pub fn append<D: Disk>(
        &mut self,
        alloc: Global,
        disks: &mut Pair<D>,
        bytes: &[u8],
    ) -> Result<(), JournalFault>
        requires running { is_halted self.old ≡ false }
        requires good { IsGood R.is_record bytes.now }
        requires stands { PairStandsOn R.is_record self.old (pair_view D.view disks.old) }

        // A stop at any moment of the call leaves the records from before it, or those and the new one; after Ok those and
        // the new one.
        ensures leaves { LeavesAppended R.is_record (bytes.now ∷ []) result self.old self.new (pair_view D.view disks.old) (pair_view D.view disks.new) }
        ensures calls { CallsCounting D.view (sized bytes.now) result self.old disks.old disks.new }
        ensures grown { HasGrown (len_of (journal_in self.old) + 5 + length bytes.now) result self.old self.new }
        ensures ends { Ends result (is_halted self.new) (CountingRose D.view (is_second self.old) disks.old disks.new)
            (pair_view D.view disks.old) (pair_view D.view disks.new) }
    {
        self.halted = true;
        if self.second {
            if let Err(fault) = self.journal.append(alloc, &mut disks.second, bytes) {
                return Err(fault);
            }
            self.halted = false;
            return Ok(());
        }
        if let Err(fault) = self.journal.append(alloc, &mut disks.first, bytes) {
            return Err(fault);
        }
        self.halted = false;
        Ok(())
    }

    /// Adds records, one or more, to the journal that counts, by four calls of its disk: all of them or none. After an error it
    /// is halted.
    pub fn append_all<D: Disk>(
        &mut self,
        alloc: Global,
        disks: &mut Pair<D>,
        more: &Records,
    ) -> Result<(), JournalFault>
        requires running { is_halted self.old ≡ false }
        requires some { 0 < length more.now }
        requires good { AreGood R.is_record more.now }
        requires stands { PairStandsOn R.is_record self.old (pair_view D.view disks.old) }

        // A stop at any moment of the call leaves the records from before it, or those and all of the new ones; after Ok
        // those and all of the new ones.
        ensures leaves { LeavesAppended R.is_record more.now result self.old self.new (pair_view D.view disks.old) (pair_view D.view disks.new) }
        ensures calls { CallsCounting D.view (following more.now) result self.old disks.old disks.new }
        ensures grown { HasGrown (len_of (journal_in self.old) + length (blocks more.now)) result self.old self.new }
        ensures ends { Ends result (is_halted self.new) (CountingRose D.view (is_second self.old) disks.old disks.new)
            (pair_view D.view disks.old) (pair_view D.view disks.new) }
    {
        self.halted = true;
        if self.second {
            if let Err(fault) = self.journal.append_all(alloc, &mut disks.second, more) {
                return Err(fault);
            }
            self.halted = false;
            return Ok(());
        }
        if let Err(fault) = self.journal.append_all(alloc, &mut disks.first, more) {
            return Err(fault);
        }
        self.halted = false;
        Ok(())
    }

    /// Counts another journal from now on, on the other disk.
    fn take_over(&mut self, journal: Journal<R>)
        ensures journal { journal_in self.new ≡ journal }
        ensures turned { is_second self.new ≡ not (is_second self.old) }
        ensures other { self.new.other ≡ (journal_in self.old).extent }
        ensures running { is_halted self.new ≡ false }
    {
        self.other = self.journal.extent();
        self.journal = journal;
        self.second = !self.second;
        self.halted = false;
    }

    /// Writes these records again on the other disk, which counts from then on, by eight calls. After an error it is halted.
    pub fn checkpoint<D: Disk>(
        &mut self,
        alloc: Global,
        disks: &mut Pair<D>,
        contents: &Records,
    ) -> Result<(), JournalFault>
        requires running { is_halted self.old ≡ false }
        requires epoch { epoch_of (journal_in self.old) < 2 ^ 64 - 1 }
        requires good { AreGood R.is_record contents.now }
        requires stands { PairStandsOn R.is_record self.old (pair_view D.view disks.old) }

        // A stop at any moment of the call leaves the records from before it or those handed in; after Ok those handed in.
        ensures leaves { LeavesRewritten R.is_record contents.now result self.new (pair_view D.view disks.old) (pair_view D.view disks.new) }
        ensures calls { CallsOther D.view result self.old disks.old disks.new }
        ensures turns { HasTurned contents.now result self.old self.new }
        ensures ends { Ends result (is_halted self.new) (CountingRose D.view (not (is_second self.old)) disks.old disks.new)
            (pair_view D.view disks.old) (pair_view D.view disks.new) }
    {
        self.halted = true;
        let epoch = self.journal.epoch() + 1;
        let journal = match write_other(alloc, disks, self.second, self.other, epoch, contents) {
            Ok(journal) => journal,
            Err(fault) => return Err(fault),
        };
        self.take_over(journal);
        Ok(())
    }
}
