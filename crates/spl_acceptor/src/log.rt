//! The records of a process over its disk.
ghost use Rattle.std.specs.Prelude.{◌≡◌, ◌≤◌, ◌++◌, ◌∷◌, [], ℕ, List, true, false, None, Ok, Err, IsTrue, OnOk, IfOk, IfSome, IsErrOf};
ghost use Rattle.spl_edge.specs.Devices.{Onward, Rose, IsSettled, image_now};
ghost use Rattle.spl_journal.specs.{Gate.LeavesSince, Journals.{Walks, form_walked, given_by, has_ended}, Records.{IsBlank, is_older}, Reads.Stays};
ghost use Rattle.spl_acceptor.specs.{Forms.paxos_record_form, Logs.{is_paxos_record, records_read, records_on, paxos_records, one_or_none, IsKeptOrNot}};
ghost use Rattle.spl_acceptor.specs.{Logs.{JournalMakes, TellsAs, is_log_halted, LogStands}, Records.{is_own, MakeRounds}};
ghost use Rattle.spl_acceptor.specs.declared.record.PaxosRecord.{PaxosRecord};

use crate::log_form::FoundRecord;
use crate::record::is_own;
use crate::{Keeps, PaxosForm, PaxosRecord};
use spl_edge::Disk;
use spl_journal::{Journal, JournalFault, Walk, format};
use std::alloc::{AllocError, Global};

/// The journal of a process's records. It keeps no record in memory.
#[derive(Drop)]
pub struct PaxosLog {
    pub(crate) journal: Journal<PaxosForm>,
}

/// Replays a record if it is of one of so many members.
fn replay_own<K: Keeps>(
    alloc: Global,
    members: u8,
    rounds: &mut K,
    change: &PaxosRecord,
) -> Result<(), AllocError>
    ensures { OnOk result ((xs : List PaxosRecord) → MakeRounds K.with K.first members (K.kept rounds.old) xs
        → MakeRounds K.with K.first members (K.kept rounds.new) (xs ++ change.now ∷ [])) }
{
    if is_own(members, change) {
        rounds.replay(alloc, change)
    } else {
        Ok(())
    }
}

/// Reads the rest of a journal, and replays its records, each as it comes.
fn read_records<D: Disk, K: Keeps>(
    alloc: Global,
    disk: &mut D,
    members: u8,
    walk: &mut Walk<PaxosForm>,
    rounds: &mut K,
) -> Result<(), JournalFault>
    requires walks { IfSome (image_now (D.view disk.old)) (Walks is_paxos_record walk.old) }
    requires form { is_older (form_walked walk.old) ≡ false }
    requires made { IfSome (image_now (D.view disk.old)) (λ i.
        MakeRounds K.with K.first members (K.kept rounds.old) (records_read (given_by is_paxos_record walk.old i.bytes))) }
    ensures walks { OnOk result (IfSome (image_now (D.view disk.old)) (Walks is_paxos_record walk.new)) }
    ensures ended { OnOk result (has_ended walk.new ≡ true) }
    ensures form { is_older (form_walked walk.new) ≡ false }
    ensures read { OnOk result (IfSome (image_now (D.view disk.old)) (λ i.
        JournalMakes (MakeRounds K.with K.first members (K.kept rounds.new)) i.bytes)) }
    ensures not { (at : ℕ) → IsErrOf result (JournalFault.NotAJournal at) → IfSome (image_now (D.view disk.old)) (λ i. records_on i.bytes ≡ Err at) }
    ensures failed { IsErrOf result JournalFault.Disk → Rose (D.view disk.old).faults (D.view disk.new).faults }
    ensures stays { Stays (D.view disk.old) (D.view disk.new) }
    ensures onward { Onward (D.view disk.old) (D.view disk.new) }
{
    'records: while let Some(found) = walk.next(alloc, disk)? {
        let FoundRecord { item: change } = found;
        replay_own(alloc, members, rounds, &change)?;
    }
    Ok(())
}

impl PaxosLog {
    /// A log without records; its journal is made on a blank disk, by four calls.
    pub fn create<D: Disk>(alloc: Global, disk: &mut D) -> Result<PaxosLog, JournalFault>
        requires blank { IfSome (image_now (D.view disk.old)) IsBlank }
        ensures stands { IfOk result (λ l. IfSome (image_now (D.view disk.new)) (LogStands l)) }
        ensures empty { OnOk result (IfSome (image_now (D.view disk.new)) (λ i. records_on i.bytes ≡ Ok [])) }
        ensures told { OnOk result (TellsAs (image_now (D.view disk.old)) (image_now (D.view disk.new))) }
        ensures running { IfOk result (λ l. is_log_halted l ≡ false) }
        ensures not { (at : ℕ) → IsErrOf result (JournalFault.NotAJournal at) → ⊥ }
        ensures failed { IsErrOf result JournalFault.Disk → Rose (D.view disk.old).faults (D.view disk.new).faults }
        ensures onward { Onward (D.view disk.old) (D.view disk.new) }
    {
        match format::<PaxosForm, D>(alloc, disk, 1) {
            Ok(journal) => Ok(PaxosLog { journal }),
            Err(fault) => Err(fault),
        }
    }

    /// The log of a disk on which nothing is pending. Each of its records that is of one of so many members is replayed
    /// as it is read, and none is kept. The disk is no log at the place that the fault reports, which is 0 for a journal of
    /// an older form.
    pub fn open<D: Disk, K: Keeps>(
        alloc: Global,
        disk: &mut D,
        members: u8,
        rounds: &mut K,
    ) -> Result<PaxosLog, JournalFault>
        requires settled { IfSome (image_now (D.view disk.old)) IsSettled }
        requires new { (r : ℕ) → K.kept rounds.old r ≡ K.first }
        ensures stands { IfOk result (λ l. IfSome (image_now (D.view disk.new)) (LogStands l)) }
        ensures read { OnOk result (IfSome (image_now (D.view disk.new)) (λ i.
            JournalMakes (MakeRounds K.with K.first members (K.kept rounds.new)) i.bytes)) }
        ensures running { IfOk result (λ l. is_log_halted l ≡ false) }
        ensures not { (at : ℕ) → IsErrOf result (JournalFault.NotAJournal at) → IfSome (image_now (D.view disk.old)) (λ i. records_on i.bytes ≡ Err at) }
        ensures failed { IsErrOf result JournalFault.Disk → Rose (D.view disk.old).faults (D.view disk.new).faults }
        ensures stays { Stays (D.view disk.old) (D.view disk.new) }
        ensures onward { Onward (D.view disk.old) (D.view disk.new) }
    {
        let mut walk = Journal::<PaxosForm>::walk(disk)?;
        if walk.is_older() {
            return Err(JournalFault::NotAJournal { at: 0 });
        }
        read_records(alloc, disk, members, &mut walk, rounds)?;
        Ok(PaxosLog {
            journal: walk.finish(),
        })
    }

    /// Whether a call of the journal failed, so that the disk has to be read again.
    pub fn is_halted(&self) -> bool
        ensures { result ≡ is_log_halted self.now }
    {
        self.journal.halted()
    }

    fn append<D: Disk>(
        &mut self,
        alloc: Global,
        disk: &mut D,
        change: &PaxosRecord,
    ) -> Result<(), JournalFault>
        requires running { is_log_halted self.old ≡ false }
        requires bounded { IsTrue (paxos_record_form.bounded change.now) }
        requires stands { IfSome (image_now (D.view disk.old)) (LogStands self.old) }
        ensures stands { OnOk result (IfSome (image_now (D.view disk.new)) (LogStands self.new)) }
        ensures kept { OnOk result (IfSome (image_now (D.view disk.old)) (λ i.
            IfSome (image_now (D.view disk.new)) (λ j. records_on j.bytes ≡ Ok (paxos_records i.bytes ++ change.now ∷ [])))) }
        ensures any_moment { IfSome (image_now (D.view disk.old)) (λ i.
            LeavesSince (D.view disk.old) (D.view disk.new) (IsKeptOrNot (paxos_records i.bytes) (change.now ∷ []))) }
        ensures told { OnOk result (TellsAs (image_now (D.view disk.old)) (image_now (D.view disk.new))) }
        ensures running { OnOk result (is_log_halted self.new ≡ false) }
        ensures not { (at : ℕ) → IsErrOf result (JournalFault.NotAJournal at) → ⊥ }
        ensures failed { IsErrOf result JournalFault.Disk → Rose (D.view disk.old).faults (D.view disk.new).faults }
        ensures onward { Onward (D.view disk.old) (D.view disk.new) }
    {
        let Ok(bytes) = change.write(alloc) else {
            return Err(JournalFault::NoMemory);
        };
        self.journal.append(alloc, disk, bytes.bytes())
    }

    /// Keeps a record, where there is one, by four calls of the disk, once all memory is taken: at Ok it is on the disk.
    /// A stop at any moment leaves the records from before, or these and the new one. After an error the disk has to be
    /// read again.
    pub fn keep<D: Disk>(
        &mut self,
        alloc: Global,
        disk: &mut D,
        change: &Option<PaxosRecord>,
    ) -> Result<(), JournalFault>
        requires running { is_log_halted self.old ≡ false }
        requires bounded { IfSome change.now (λ x. IsTrue (paxos_record_form.bounded x)) }
        requires stands { IfSome (image_now (D.view disk.old)) (LogStands self.old) }
        ensures stands { OnOk result (IfSome (image_now (D.view disk.new)) (LogStands self.new)) }
        ensures kept { OnOk result (IfSome (image_now (D.view disk.old)) (λ i.
            IfSome (image_now (D.view disk.new)) (λ j. records_on j.bytes ≡ Ok (paxos_records i.bytes ++ one_or_none change.now)))) }
        ensures any_moment { IfSome (image_now (D.view disk.old)) (λ i.
            LeavesSince (D.view disk.old) (D.view disk.new) (IsKeptOrNot (paxos_records i.bytes) (one_or_none change.now))) }
        ensures none { change.now ≡ None → disk.new ≡ disk.old }
        ensures told { OnOk result (TellsAs (image_now (D.view disk.old)) (image_now (D.view disk.new))) }
        ensures running { OnOk result (is_log_halted self.new ≡ false) }
        ensures not { (at : ℕ) → IsErrOf result (JournalFault.NotAJournal at) → ⊥ }
        ensures failed { IsErrOf result JournalFault.Disk → Rose (D.view disk.old).faults (D.view disk.new).faults }
        ensures onward { Onward (D.view disk.old) (D.view disk.new) }
    {
        match change {
            None => Ok(()),
            Some(change) => self.append(alloc, disk, change),
        }
    }
}
