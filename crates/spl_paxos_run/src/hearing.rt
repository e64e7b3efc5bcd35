//! What a process that is up does, as the world says.

use crate::Process;
use spl_acceptor::{Name, PaxosMsg, Stepped};
use spl_agree::Round;
use spl_edge::Disk;
use spl_journal::JournalFault;
use spl_paxos::{lead, vote};
use std::alloc::Global;

impl Process {
    ghost use Rattle.std.specs.Prelude.{◌≡◌, ℕ, true, false, None, IsTrue, OnErr, IfSome, IsErrOf};
    ghost use Rattle.spl_edge.specs.Devices.{Onward, Rose, image_now};
    ghost use Rattle.spl_acceptor.specs.{Acceptors.orders_own, Rows.{member, leader, on_paxos_vote, on_lead}, Worlds.{PaxosCommitWorld, has_name, at_member}};
    ghost use Rattle.spl_acceptor.specs.{Worlds.{at_leader, message_heard, heard_plan}, declared.{group.Group.Group, kind.TheConstants.{MEMBER, LEADER}}};
    ghost use Rattle.spl_acceptor.specs.declared.message.Name.{Name};
    ghost use Rattle.spl_paxos_run.specs.{Seats.{IsProcessUp, ProcessMoves}, States.{states_of, member_state, kind_of, is_process_halted, ProcessStands}};
    ghost use Rattle.spl_paxos_run.specs.States.{IsOfRun};

    /// What a message gives, as `step` has it: of a process that keeps what a world says of its name, the world after the
    /// message says what it keeps then. A stop at any moment leaves what the one or the other says.
    pub fn hear<D: Disk>(
        &mut self,
        alloc: Global,
        disk: &mut D,
        from: Name,
        message: &PaxosMsg,
    ) -> Result<Stepped, JournalFault>
        requires running { is_process_halted self.old ≡ false }
        requires stands { IfSome (image_now (D.view disk.old)) (ProcessStands self.old) }
        requires own { (g : Group) (here : ℕ) → IsOfRun g here self.old → IsTrue (orders_own g.members message.now) }
        ensures moves { (g : Group) (w : PaxosCommitWorld) (n : Name) → IsTrue (has_name g n) → IsProcessUp g w n self.old (image_now (D.view disk.old))
            → ProcessMoves g n (heard_plan g w from n message.now) w (message_heard g w from n message.now)
            self.new (D.view disk.old) (D.view disk.new) result }
        ensures halted { OnErr result (is_process_halted self.new ≡ true) }
        ensures not { (at : ℕ) → IsErrOf result (JournalFault.NotAJournal at) → ⊥ }
        ensures failed { IsErrOf result JournalFault.Disk → Rose (D.view disk.old).faults (D.view disk.new).faults }
        ensures onward { Onward (D.view disk.old) (D.view disk.new) }
    {
        self.step(alloc, disk, from, message)
    }

    /// The vote that a member keeps in a round. None where it keeps none, and of a process that is no member.
    pub fn voted(&self, round: Round) -> Option<bool>
        ensures { result ≡ (member_state (states_of self.now) round).vote }
    {
        match self {
            Process::Member(member) => member.rounds().voted(round),
            _ => None,
        }
    }

    /// The decision that a member keeps in a round. None where it keeps none, and of a process that is no member.
    pub fn decision(&self, round: Round) -> Option<bool>
        ensures { result ≡ (member_state (states_of self.now) round).decision }
    {
        match self {
            Process::Member(member) => member.rounds().decision(round),
            _ => None,
        }
    }

    /// A vote of a member in a round in which it has none: the world after the vote says what the member keeps then. A stop
    /// at any moment leaves what the world before or the one after says. After an error the member is halted.
    pub fn vote<D: Disk>(
        &mut self,
        alloc: Global,
        disk: &mut D,
        round: Round,
        yes: bool,
    ) -> Result<Stepped, JournalFault>
        requires running { is_process_halted self.old ≡ false }
        requires stands { IfSome (image_now (D.view disk.old)) (ProcessStands self.old) }
        requires kind { kind_of (states_of self.old) ≡ MEMBER }
        requires unvoted { (member_state (states_of self.old) round).vote ≡ None }
        ensures moves { (g : Group) (w : PaxosCommitWorld) (i : ℕ) → IsProcessUp g w (member i) self.old (image_now (D.view disk.old))
            → ProcessMoves g (member i) (on_paxos_vote g i round yes) w (at_member w i round (on_paxos_vote g i round yes))
            self.new (D.view disk.old) (D.view disk.new) result }
        ensures halted { OnErr result (is_process_halted self.new ≡ true) }
        ensures not { (at : ℕ) → IsErrOf result (JournalFault.NotAJournal at) → ⊥ }
        ensures failed { IsErrOf result JournalFault.Disk → Rose (D.view disk.old).faults (D.view disk.new).faults }
        ensures onward { Onward (D.view disk.old) (D.view disk.new) }
    {
        match self {
            Process::Member(member) => vote(member, alloc, disk, round, yes),
            _ => unreachable!(),
        }
    }

    /// A turn of a leader in a round: the world after it says what the leader keeps then. A stop at any moment leaves what
    /// the world before or the one after says. After an error the leader is halted.
    pub fn lead<D: Disk>(
        &mut self,
        alloc: Global,
        disk: &mut D,
        round: Round,
    ) -> Result<Stepped, JournalFault>
        requires running { is_process_halted self.old ≡ false }
        requires stands { IfSome (image_now (D.view disk.old)) (ProcessStands self.old) }
        requires kind { kind_of (states_of self.old) ≡ LEADER }
        ensures moves { (g : Group) (w : PaxosCommitWorld) (l : ℕ) → IsProcessUp g w (leader l) self.old (image_now (D.view disk.old))
            → ProcessMoves g (leader l) (on_lead g l (w.leader l round) round) w (at_leader w l round (on_lead g l (w.leader l round) round))
            self.new (D.view disk.old) (D.view disk.new) result }
        ensures halted { OnErr result (is_process_halted self.new ≡ true) }
        ensures not { (at : ℕ) → IsErrOf result (JournalFault.NotAJournal at) → ⊥ }
        ensures failed { IsErrOf result JournalFault.Disk → Rose (D.view disk.old).faults (D.view disk.new).faults }
        ensures onward { Onward (D.view disk.old) (D.view disk.new) }
    {
        match self {
            Process::Leader(leader) => lead(leader, alloc, disk, round),
            _ => unreachable!(),
        }
    }
}
