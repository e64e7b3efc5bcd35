//! A process of one kind over its disk.
ghost use Rattle.std.specs.Prelude.{◌≤◌};

use crate::rounds::round_of;
use crate::{AcceptorRounds, Group, Keeps, Name, PaxosLog, PaxosMsg, Stepped};
use spl_agree::Round;
use spl_edge::Disk;
use spl_journal::JournalFault;
use std::alloc::{AllocError, Global};

/// A process of a run: its number among those of its kind, what it keeps of all rounds, in memory, and the journal that
/// makes the durable part again.
#[derive(Drop)]
pub struct PaxosProcess<K> {
    pub(crate) here: u8,
    pub(crate) group: Group,
    pub(crate) rounds: K,
    pub(crate) log: PaxosLog,
    pub(crate) halted: bool,
    ghost small: { group.members ≤ 8 },
    ghost few: { group.faults ≤ 2 },
}

/// An acceptor of a run.
pub type PaxosAcceptor = PaxosProcess<AcceptorRounds>;

impl<K: Keeps> PaxosProcess<K> {
    ghost use Rattle.std.specs.Prelude.{◌≡◌, ℕ, true, false, Err, OnOk, OnErr, IfOk, IfSome, IsErrOf};
    ghost use Rattle.spl_edge.specs.Devices.{Onward, Rose, IsSettled, image_now};
    ghost use Rattle.spl_journal.specs.{Records.IsBlank, Reads.Stays};
    ghost use Rattle.spl_acceptor.specs.{Keeping.{has_halted, IsSameProcess, ProcessKeeps}, Logs.{records_on, JournalMakes, TellsAs}};
    ghost use Rattle.spl_acceptor.specs.{Records.{MakeRounds, MakeDurable}, Rows.PaxosPlan, Steps.{WritesIn, CarriesOut}, Worlds.round_of};

    /// A process that keeps nothing; its journal is made on a blank disk, by four calls.
    pub fn create<D: Disk>(
        alloc: Global,
        disk: &mut D,
        here: u8,
        group: Group,
    ) -> Result<PaxosProcess<K>, JournalFault>
        requires members { group.members ≤ 8 }
        requires faults { group.faults ≤ 2 }
        requires blank { IfSome (image_now (D.view disk.old)) IsBlank }
        ensures here { IfOk result (λ p. p.here ≡ here) }
        ensures group { IfOk result (λ p. p.group ≡ group) }
        ensures none { IfOk result (λ p. (r : ℕ) → K.kept p.rounds r ≡ K.first) }
        ensures running { IfOk result (λ p. has_halted p ≡ false) }
        ensures stands { IfOk result (λ p. IfSome (image_now (D.view disk.new)) (ProcessKeeps (MakeDurable K.with K.stopped K.first) K.kept p)) }
        ensures told { OnOk result (TellsAs (image_now (D.view disk.old)) (image_now (D.view disk.new))) }
        ensures not { (at : ℕ) → IsErrOf result (JournalFault.NotAJournal at) → ⊥ }
        ensures failed { IsErrOf result JournalFault.Disk → Rose (D.view disk.old).faults (D.view disk.new).faults }
        ensures onward { Onward (D.view disk.old) (D.view disk.new) }
    {
        match PaxosLog::create(alloc, disk) {
            Ok(log) => Ok(PaxosProcess {
                here,
                group,
                rounds: K::new(alloc),
                log,
                halted: false,
            }),
            Err(fault) => Err(fault),
        }
    }

    /// The process that the records of a disk make, on which nothing is pending; it has nothing that a stop forgets.
    /// Records of other processes, and of members that the run hasn't, are passed over. The disk is no journal of records
    /// at the place that the fault reports.
    pub fn open<D: Disk>(
        alloc: Global,
        disk: &mut D,
        here: u8,
        group: Group,
    ) -> Result<PaxosProcess<K>, JournalFault>
        requires members { group.members ≤ 8 }
        requires faults { group.faults ≤ 2 }
        requires settled { IfSome (image_now (D.view disk.old)) IsSettled }
        ensures here { IfOk result (λ p. p.here ≡ here) }
        ensures group { IfOk result (λ p. p.group ≡ group) }
        ensures read { IfOk result (λ p. IfSome (image_now (D.view disk.new)) (λ i.
            JournalMakes (MakeRounds K.with K.first group.members (K.kept p.rounds)) i.bytes)) }
        ensures running { IfOk result (λ p. has_halted p ≡ false) }
        ensures stands { IfOk result (λ p. IfSome (image_now (D.view disk.new)) (ProcessKeeps (MakeDurable K.with K.stopped K.first) K.kept p)) }
        ensures not { (at : ℕ) → IsErrOf result (JournalFault.NotAJournal at) → IfSome (image_now (D.view disk.old)) (λ i. records_on i.bytes ≡ Err at) }
        ensures failed { IsErrOf result JournalFault.Disk → Rose (D.view disk.old).faults (D.view disk.new).faults }
        ensures stays { Stays (D.view disk.old) (D.view disk.new) }
        ensures onward { Onward (D.view disk.old) (D.view disk.new) }
    {
        let mut rounds = K::new(alloc);
        match PaxosLog::open(alloc, disk, group.members, &mut rounds) {
            Ok(log) => Ok(PaxosProcess {
                here,
                group,
                rounds,
                log,
                halted: false,
            }),
            Err(fault) => Err(fault),
        }
    }

    /// Whether a call failed, so that the disk has to be read again.
    pub fn is_halted(&self) -> bool
        ensures { result ≡ has_halted self.now }
    {
        self.halted || self.log.is_halted()
    }

    /// Its number among the processes of its kind.
    pub fn here(&self) -> u8
        ensures { result ≡ self.now.here }
    {
        self.here
    }

    /// How large its run is.
    pub fn group(&self) -> Group
        ensures size { result ≡ self.now.group }
        ensures members { result.members ≤ 8 }
        ensures faults { result.faults ≤ 2 }
    {
        self.group
    }

    /// What it keeps of all rounds.
    pub fn rounds(&self) -> &K
        ensures { result.now ≡ self.now.rounds }
    {
        &self.rounds
    }

    /// Keeps the record of a plan, where it has one, and then carries it out in its round. The record is on the disk
    /// before the messages are handed out: a stop at any moment leaves records that make what was kept before, or what is
    /// kept after it. Where memory ran out for the plan no call of the disk is made. After an error the process is halted.
    pub fn carry_out<D: Disk>(
        &mut self,
        alloc: Global,
        disk: &mut D,
        round: Round,
        plan: Result<K::Plan, AllocError>,
    ) -> Result<Stepped, JournalFault>
        requires running { has_halted self.old ≡ false }
        requires writes { IfOk plan (λ p. WritesIn round self.old.group.members (K.plan_of p)) }
        requires stands { IfSome (image_now (D.view disk.old)) (ProcessKeeps (MakeDurable K.with K.stopped K.first) K.kept self.old) }
        ensures same { IsSameProcess self.old self.new }
        ensures done { (p : PaxosPlan) → IfOk plan (λ q. K.plan_of q ≡ p) →
            CarriesOut (MakeDurable K.with K.stopped K.first self.old.group.members) K.after (K.kept self.old.rounds) (K.kept self.new.rounds)
            round p (D.view disk.old) (D.view disk.new) result }
        ensures stands { OnOk result (IfSome (image_now (D.view disk.new)) (ProcessKeeps (MakeDurable K.with K.stopped K.first) K.kept self.new)) }
        ensures told { OnOk result (TellsAs (image_now (D.view disk.old)) (image_now (D.view disk.new))) }
        ensures halted { OnErr result (has_halted self.new ≡ true) }
        ensures running { OnOk result (has_halted self.new ≡ false) }
        ensures not { (at : ℕ) → IsErrOf result (JournalFault.NotAJournal at) → ⊥ }
        ensures failed { IsErrOf result JournalFault.Disk → Rose (D.view disk.old).faults (D.view disk.new).faults }
        ensures onward { Onward (D.view disk.old) (D.view disk.new) }
    {
        self.halted = true;
        let Ok(plan) = plan else {
            return Err(JournalFault::NoMemory);
        };
        if let Err(fault) = self.log.keep(alloc, disk, K::change(&plan)) {
            return Err(fault);
        }
        match self.rounds.apply(alloc, round, plan) {
            Ok(stepped) => {
                self.halted = false;
                Ok(stepped)
            }
            Err(AllocError) => Err(JournalFault::NoMemory),
        }
    }

    /// What a message gives. Its record, where it has one, is on the disk before the messages are handed out: a stop at
    /// any moment leaves records that make what was kept before the step, or what is kept after it. After an error the
    /// process is halted.
    pub fn step<D: Disk>(
        &mut self,
        alloc: Global,
        disk: &mut D,
        from: Name,
        message: &PaxosMsg,
    ) -> Result<Stepped, JournalFault>
        requires running { has_halted self.old ≡ false }
        requires own { K.may_hear self.old.group.members message.now }
        requires stands { IfSome (image_now (D.view disk.old)) (ProcessKeeps (MakeDurable K.with K.stopped K.first) K.kept self.old) }
        ensures same { IsSameProcess self.old self.new }
        ensures done { CarriesOut (MakeDurable K.with K.stopped K.first self.old.group.members) K.after (K.kept self.old.rounds) (K.kept self.new.rounds)
            (round_of message.now) (K.heard self.old.group (K.kept self.old.rounds (round_of message.now)) from message.now)
            (D.view disk.old) (D.view disk.new) result }
        ensures stands { OnOk result (IfSome (image_now (D.view disk.new)) (ProcessKeeps (MakeDurable K.with K.stopped K.first) K.kept self.new)) }
        ensures told { OnOk result (TellsAs (image_now (D.view disk.old)) (image_now (D.view disk.new))) }
        ensures halted { OnErr result (has_halted self.new ≡ true) }
        ensures running { OnOk result (has_halted self.new ≡ false) }
        ensures not { (at : ℕ) → IsErrOf result (JournalFault.NotAJournal at) → ⊥ }
        ensures failed { IsErrOf result JournalFault.Disk → Rose (D.view disk.old).faults (D.view disk.new).faults }
        ensures onward { Onward (D.view disk.old) (D.view disk.new) }
    {
        let plan = self.rounds.plan(alloc, self.group, from, message);
        self.carry_out(alloc, disk, round_of(message), plan)
    }
}
