//! A leader over its disk.
ghost use Rattle.std.specs.Prelude.{◌≡◌, ℕ, true, false, OnOk, OnErr, IfSome, IsErrOf};
ghost use Rattle.spl_edge.specs.Devices.{Onward, Rose, image_now};
ghost use Rattle.spl_acceptor.specs.{Keeping.{has_halted, IsSameProcess, ProcessKeeps}, Logs.TellsAs, Records.MakeLeader, Rows.{on_lead, leader_after}};
ghost use Rattle.spl_acceptor.specs.Steps.{CarriesOut};
ghost use Rattle.spl_paxos.specs.Leaders.{leader_in};

use crate::LeaderRounds;
use spl_acceptor::{PaxosProcess, Stepped};
use spl_agree::Round;
use spl_edge::Disk;
use spl_journal::JournalFault;
use std::alloc::Global;

/// A leader of a run.
pub type PaxosLeader = PaxosProcess<LeaderRounds>;

/// Begins the leader's least ballot above those that it used in a round, if it has one. The ballot is on the disk as used
/// before the messages are handed out. After an error the leader is halted.
pub fn lead<D: Disk>(
    leader: &mut PaxosLeader,
    alloc: Global,
    disk: &mut D,
    round: Round,
) -> Result<Stepped, JournalFault>
    requires running { has_halted leader.old ≡ false }
    requires stands { IfSome (image_now (D.view disk.old)) (ProcessKeeps MakeLeader leader_in leader.old) }
    ensures same { IsSameProcess leader.old leader.new }
    ensures done { CarriesOut (MakeLeader leader.old.group.members) leader_after (leader_in leader.old.rounds) (leader_in leader.new.rounds)
        round (on_lead leader.old.group leader.old.here (leader_in leader.old.rounds round) round) (D.view disk.old) (D.view disk.new) result }
    ensures stands { OnOk result (IfSome (image_now (D.view disk.new)) (ProcessKeeps MakeLeader leader_in leader.new)) }
    ensures told { OnOk result (TellsAs (image_now (D.view disk.old)) (image_now (D.view disk.new))) }
    ensures halted { OnErr result (has_halted leader.new ≡ true) }
    ensures running { OnOk result (has_halted leader.new ≡ false) }
    ensures not { (at : ℕ) → IsErrOf result (JournalFault.NotAJournal at) → ⊥ }
    ensures failed { IsErrOf result JournalFault.Disk → Rose (D.view disk.old).faults (D.view disk.new).faults }
    ensures onward { Onward (D.view disk.old) (D.view disk.new) }
{
    let plan = leader
        .rounds()
        .plan_lead(alloc, leader.group(), leader.here(), round);
    leader.carry_out(alloc, disk, round, plan)
}
