//! A process of any kind over its disk.

use spl_acceptor::{ACCEPTOR, Group, MEMBER, Name, PaxosAcceptor, PaxosMsg, Stepped};
use spl_edge::Disk;
use spl_journal::JournalFault;
use spl_paxos::{PaxosLeader, PaxosMember};
use std::alloc::Global;

/// A process of a run that is up.
#[derive(Drop)]
pub enum Process {
    Member(PaxosMember),
    Acceptor(PaxosAcceptor),
    Leader(PaxosLeader),
}

impl Process {
    ghost use Rattle.std.specs.Prelude.{◌≡◌, ◌≤◌, ℕ, true, false, Err, IsTrue, OnOk, OnErr, IfOk, IfSome, IsErrOf};
    ghost use Rattle.spl_edge.specs.Devices.{Onward, Rose, IsSettled, image_now};
    ghost use Rattle.spl_journal.specs.{Records.IsBlank, Reads.Stays};
    ghost use Rattle.spl_acceptor.specs.{Acceptors.orders_own, Logs.{records_on, JournalMakes, TellsAs}, Worlds.{PaxosCommitWorld, first_paxos_world}};
    ghost use Rattle.spl_acceptor.specs.{Worlds.{has_name, round_of}, declared.group.Group.Group};
    ghost use Rattle.spl_paxos_run.specs.States.{states_in, states_stopped, heard_by, MakeStates, states_of, is_process_halted, ProcessStands, IsOfRun};
    ghost use Rattle.spl_paxos_run.specs.States.{ProcessDoes};

    /// The process of this name in a run, which keeps nothing; its journal is made on a blank disk, by four calls.
    pub fn create<D: Disk>(
        alloc: Global,
        disk: &mut D,
        group: Group,
        name: Name,
    ) -> Result<Process, JournalFault>
        requires members { (2 ≤ group.members) × (group.members ≤ 8) }
        requires faults { group.faults ≤ 2 }
        requires named { IsTrue (has_name group name) }
        requires blank { IfSome (image_now (D.view disk.old)) IsBlank }
        ensures run { IfOk result (λ p. IsOfRun group name.number p) }
        ensures states { IfOk result (λ p. states_of p ≡ states_in (first_paxos_world group) name) }
        ensures stands { IfOk result (λ p. IfSome (image_now (D.view disk.new)) (ProcessStands p)) }
        ensures running { IfOk result (λ p. is_process_halted p ≡ false) }
        ensures told { OnOk result (TellsAs (image_now (D.view disk.old)) (image_now (D.view disk.new))) }
        ensures not { (at : ℕ) → IsErrOf result (JournalFault.NotAJournal at) → ⊥ }
        ensures failed { IsErrOf result JournalFault.Disk → Rose (D.view disk.old).faults (D.view disk.new).faults }
        ensures onward { Onward (D.view disk.old) (D.view disk.new) }
    {
        match name.kind {
            MEMBER => match PaxosMember::create(alloc, disk, name.number, group) {
                Ok(member) => Ok(Process::Member(member)),
                Err(fault) => Err(fault),
            },
            ACCEPTOR => match PaxosAcceptor::create(alloc, disk, name.number, group) {
                Ok(acceptor) => Ok(Process::Acceptor(acceptor)),
                Err(fault) => Err(fault),
            },
            _ => match PaxosLeader::create(alloc, disk, name.number, group) {
                Ok(leader) => Ok(Process::Leader(leader)),
                Err(fault) => Err(fault),
            },
        }
    }

    /// The process of this name that the records of a disk make, on which nothing is pending. What a stop forgets is
    /// forgotten. The disk is no journal of records at the place that the fault reports.
    pub fn open<D: Disk>(
        alloc: Global,
        disk: &mut D,
        group: Group,
        name: Name,
    ) -> Result<Process, JournalFault>
        requires members { (2 ≤ group.members) × (group.members ≤ 8) }
        requires faults { group.faults ≤ 2 }
        requires named { IsTrue (has_name group name) }
        requires settled { IfSome (image_now (D.view disk.old)) IsSettled }
        ensures run { IfOk result (λ p. IsOfRun group name.number p) }
        ensures states { IfOk result (λ p. (w : PaxosCommitWorld) → IfSome (image_now (D.view disk.new)) (λ i.
            JournalMakes (MakeStates group.members (states_in w name)) i.bytes → states_of p ≡ states_stopped (states_in w name))) }
        ensures stands { IfOk result (λ p. IfSome (image_now (D.view disk.new)) (ProcessStands p)) }
        ensures running { IfOk result (λ p. is_process_halted p ≡ false) }
        ensures not { (at : ℕ) → IsErrOf result (JournalFault.NotAJournal at) → IfSome (image_now (D.view disk.old)) (λ i. records_on i.bytes ≡ Err at) }
        ensures failed { IsErrOf result JournalFault.Disk → Rose (D.view disk.old).faults (D.view disk.new).faults }
        ensures stays { Stays (D.view disk.old) (D.view disk.new) }
        ensures onward { Onward (D.view disk.old) (D.view disk.new) }
    {
        match name.kind {
            MEMBER => match PaxosMember::open(alloc, disk, name.number, group) {
                Ok(member) => Ok(Process::Member(member)),
                Err(fault) => Err(fault),
            },
            ACCEPTOR => match PaxosAcceptor::open(alloc, disk, name.number, group) {
                Ok(acceptor) => Ok(Process::Acceptor(acceptor)),
                Err(fault) => Err(fault),
            },
            _ => match PaxosLeader::open(alloc, disk, name.number, group) {
                Ok(leader) => Ok(Process::Leader(leader)),
                Err(fault) => Err(fault),
            },
        }
    }

    /// What a message gives. Its record, where it has one, is on the disk before the messages are handed out. After an
    /// error the process is halted.
    pub fn step<D: Disk>(
        &mut self,
        alloc: Global,
        disk: &mut D,
        from: Name,
        message: &PaxosMsg,
    ) -> Result<Stepped, JournalFault>
        requires running { is_process_halted self.old ≡ false }
        requires stands { IfSome (image_now (D.view disk.old)) (ProcessStands self.old) }
        requires own { (g : Group) (here : ℕ) → IsOfRun g here self.old → IsTrue (orders_own g.members message.now) }
        ensures run { (g : Group) (here : ℕ) → IsOfRun g here self.old → IsOfRun g here self.new }
        ensures done { (g : Group) (here : ℕ) → IsOfRun g here self.old →
            ProcessDoes g.members (states_of self.old) (states_of self.new) (round_of message.now)
            (heard_by g (states_of self.old) from message.now) (D.view disk.old) (D.view disk.new) result }
        ensures stands { OnOk result (IfSome (image_now (D.view disk.new)) (ProcessStands self.new)) }
        ensures told { OnOk result (TellsAs (image_now (D.view disk.old)) (image_now (D.view disk.new))) }
        ensures halted { OnErr result (is_process_halted self.new ≡ true) }
        ensures running { OnOk result (is_process_halted self.new ≡ false) }
        ensures not { (at : ℕ) → IsErrOf result (JournalFault.NotAJournal at) → ⊥ }
        ensures failed { IsErrOf result JournalFault.Disk → Rose (D.view disk.old).faults (D.view disk.new).faults }
        ensures onward { Onward (D.view disk.old) (D.view disk.new) }
    {
        match self {
            Process::Member(member) => member.step(alloc, disk, from, message),
            Process::Acceptor(acceptor) => acceptor.step(alloc, disk, from, message),
            Process::Leader(leader) => leader.step(alloc, disk, from, message),
        }
    }
}
