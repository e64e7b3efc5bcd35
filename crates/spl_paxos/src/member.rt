//! A member over its disk.
ghost use Rattle.std.specs.Prelude.{◌≡◌, ℕ, true, false, None, OnOk, OnErr, IfSome, IsErrOf};
ghost use Rattle.spl_edge.specs.Devices.{Onward, Rose, image_now};
ghost use Rattle.spl_acceptor.specs.{Keeping.{has_halted, IsSameProcess, ProcessKeeps}, Logs.TellsAs, Records.MakeMember, Rows.{on_paxos_vote, member_after}};
ghost use Rattle.spl_acceptor.specs.Steps.{CarriesOut};
ghost use Rattle.spl_paxos.specs.Members.{member_in};

use crate::MemberRounds;
use crate::member_row::on_vote;
use spl_acceptor::{PaxosProcess, Stepped};
use spl_agree::Round;
use spl_edge::Disk;
use spl_journal::JournalFault;
use std::alloc::Global;

/// A member of a run.
pub type PaxosMember = PaxosProcess<MemberRounds>;

/// A vote in a round in which the member has none. It is on the disk before the messages are handed out. After an error
/// the member is halted.
pub fn vote<D: Disk>(
    member: &mut PaxosMember,
    alloc: Global,
    disk: &mut D,
    round: Round,
    yes: bool,
) -> Result<Stepped, JournalFault>
    requires unvoted { (member_in member.old.rounds round).vote ≡ None }
    requires running { has_halted member.old ≡ false }
    requires stands { IfSome (image_now (D.view disk.old)) (ProcessKeeps MakeMember member_in member.old) }
    ensures same { IsSameProcess member.old member.new }
    ensures done { CarriesOut (MakeMember member.old.group.members) member_after (member_in member.old.rounds) (member_in member.new.rounds)
        round (on_paxos_vote member.old.group member.old.here round yes) (D.view disk.old) (D.view disk.new) result }
    ensures stands { OnOk result (IfSome (image_now (D.view disk.new)) (ProcessKeeps MakeMember member_in member.new)) }
    ensures told { OnOk result (TellsAs (image_now (D.view disk.old)) (image_now (D.view disk.new))) }
    ensures halted { OnErr result (has_halted member.new ≡ true) }
    ensures running { OnOk result (has_halted member.new ≡ false) }
    ensures not { (at : ℕ) → IsErrOf result (JournalFault.NotAJournal at) → ⊥ }
    ensures failed { IsErrOf result JournalFault.Disk → Rose (D.view disk.old).faults (D.view disk.new).faults }
    ensures onward { Onward (D.view disk.old) (D.view disk.new) }
{
    let plan = on_vote(alloc, member.group(), member.here(), round, yes);
    member.carry_out(alloc, disk, round, plan)
}
