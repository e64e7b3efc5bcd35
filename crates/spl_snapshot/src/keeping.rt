//! A record that is kept, with a checkpoint where there is no room for more.
ghost use Rattle.std.specs.Prelude.{◌≡◌, ◌⊎◌, ◌≤◌, ◌<◌, ◌+◌, ◌-◌, ◌*◌, ◌^◌, ◌++◌, ◌∷◌, [], List, ℕ, true, false, not, ⊤, length, IsTrue, OnOk, OnErr, IfOk};
ghost use Rattle.std.specs.Prelude.{IsOk, IsErrOf};
ghost use Rattle.spl_edge.specs.Devices.{image_now, pair_view};
ghost use Rattle.spl_journal.specs.{Journals.len_of, Records.{blocks, following, sized, IsGood, AreGood}};
ghost use Rattle.spl_snapshot.specs.{Calls.{CallsToKeep, Ends, IsBounded, LeavesKept}, Counting.HasRisen, Pairs.{PairStandsOn, is_halted, is_second}};
ghost use Rattle.spl_snapshot.specs.Pairs.{journal_in};

use crate::Pairing;
use spl_edge::{Disk, Pair};
use spl_journal::{Form, JournalFault, Records};
use std::alloc::{AllocError, Global};

/// What packs into records.
pub trait Packed {
    ghost packed: { Self → List (List ℕ) };

    /// Its records. The only error is that memory ran out.
    fn pack(&self, alloc: Global) -> Result<Records, AllocError>
        ensures { IfOk result (λ records. records ≡ packed self.now) };
}

impl<R: Form> Pairing<R> {
    /// Adds a record, and where that leaves no room writes again what packs into the records of now. After an error it is
    /// halted.
    pub fn keep<P: Packed, D: Disk>(
        &mut self,
        alloc: Global,
        disks: &mut Pair<D>,
        bytes: &[u8],
        state: &P,
    ) -> Result<(), JournalFault>
        requires running { is_halted self.old ≡ false }
        requires good { IsGood R.is_record bytes.now }
        requires packed { AreGood R.is_record (P.packed state.now) }
        requires stands { PairStandsOn R.is_record self.old (pair_view D.view disks.old) }

        // A stop at any moment leaves the records from before it, those and the new ones, or the packed ones; after Ok one
        // of the last two.
        ensures leaves { LeavesKept R.is_record (bytes.now ∷ []) (P.packed state.now) result self.old self.new
            (pair_view D.view disks.old) (pair_view D.view disks.new) }
        ensures calls { CallsToKeep R.is_record (bytes.now ∷ []) (P.packed state.now) (sized bytes.now) (len_of (journal_in self.old) + 5 + length bytes.now)
            D.view result self.old self.new disks.old disks.new }
        ensures bound { IsBounded (P.packed state.now) result self.old self.new }
        ensures ends { Ends result (is_halted self.new) (HasRisen (pair_view D.view disks.old) (pair_view D.view disks.new))
            (pair_view D.view disks.old) (pair_view D.view disks.new) }
    {
        if let Err(fault) = self.append(alloc, disks, bytes) {
            return Err(fault);
        }
        if self.room() || self.epoch() == u64::MAX {
            return Ok(());
        }
        let Ok(contents) = state.pack(alloc) else {
            self.halted = true;
            return Err(JournalFault::NoMemory);
        };
        if let Err(fault) = self.checkpoint(alloc, disks, &contents) {
            return Err(fault);
        }
        Ok(())
    }

    /// Adds records, one or more, by one append, and where that leaves no room writes again what packs into the records of now.
    /// The append comes first, however long the records are, since what packs is what they lead to. After an error it is halted.
    pub fn keep_all<P: Packed, D: Disk>(
        &mut self,
        alloc: Global,
        disks: &mut Pair<D>,
        more: &Records,
        state: &P,
    ) -> Result<(), JournalFault>
        requires running { is_halted self.old ≡ false }
        requires some { 0 < length more.now }
        requires good { AreGood R.is_record more.now }
        requires packed { AreGood R.is_record (P.packed state.now) }
        requires stands { PairStandsOn R.is_record self.old (pair_view D.view disks.old) }

        // A stop at any moment leaves the records from before it, those and the new ones, or the packed ones; after Ok one
        // of the last two.
        ensures leaves { LeavesKept R.is_record more.now (P.packed state.now) result self.old self.new
            (pair_view D.view disks.old) (pair_view D.view disks.new) }
        ensures calls { CallsToKeep R.is_record more.now (P.packed state.now) (following more.now) (len_of (journal_in self.old) + length (blocks more.now))
            D.view result self.old self.new disks.old disks.new }
        ensures bound { IsBounded (P.packed state.now) result self.old self.new }
        ensures ends { Ends result (is_halted self.new) (HasRisen (pair_view D.view disks.old) (pair_view D.view disks.new))
            (pair_view D.view disks.old) (pair_view D.view disks.new) }
    {
        if let Err(fault) = self.append_all(alloc, disks, more) {
            return Err(fault);
        }
        if self.room() || self.epoch() == u64::MAX {
            return Ok(());
        }
        let Ok(contents) = state.pack(alloc) else {
            self.halted = true;
            return Err(JournalFault::NoMemory);
        };
        if let Err(fault) = self.checkpoint(alloc, disks, &contents) {
            return Err(fault);
        }
        Ok(())
    }
}
