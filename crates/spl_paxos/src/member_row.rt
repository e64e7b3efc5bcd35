//! The rows of a member.
ghost use Rattle.std.specs.Prelude.{◌≡◌, ◌<◌, IfOk};
ghost use Rattle.spl_acceptor.specs.{Processes.VotingMember, Rows.{note_alone, decides, counts, on_accepted, on_paxos_vote, member_row}};
ghost use Rattle.spl_paxos.specs.Plans.{member_plan};

use crate::MemberPlan;
use crate::counted::{are_prepared, is_chosen, is_counted};
use spl_acceptor::{
    ACCEPTOR, Acceptance, Group, Name, PaxosMsg, PaxosNote, PaxosRecord, PaxosSends, push_each,
};
use spl_agree::Round;
use std::alloc::{AllocError, Global};

/// Nothing but a note.
fn noted(alloc: Global, note: PaxosNote) -> MemberPlan
    ensures { member_plan result ≡ note_alone note }
{
    MemberPlan {
        note,
        change: None,
        count: None,
        sends: PaxosSends::new(alloc),
    }
}

fn decides(alloc: Global, round: Round, note: PaxosNote, commit: bool) -> MemberPlan
    ensures { member_plan result ≡ decides round note commit }
{
    MemberPlan {
        note,
        change: Some(PaxosRecord::Decided { round, commit }),
        count: None,
        sends: PaxosSends::new(alloc),
    }
}

fn counts(alloc: Global, heard: Acceptance) -> MemberPlan
    ensures { member_plan result ≡ counts heard }
{
    MemberPlan {
        note: PaxosNote::Counted,
        change: None,
        count: Some(heard),
        sends: PaxosSends::new(alloc),
    }
}

/// What is heard decides the round, or it is counted, or it was counted before.
fn on_accepted(
    alloc: Global,
    group: Group,
    round: Round,
    heard: Acceptance,
    counted: &[Acceptance],
) -> MemberPlan
    requires few { group.faults < 128 }
    ensures { member_plan result ≡ on_accepted group round heard counted.now }
{
    if is_chosen(&heard, counted, group, heard.member, heard.ballot, false) {
        return decides(alloc, round, PaxosNote::Abort, false);
    }
    if are_prepared(&heard, counted, group, group.members) {
        return decides(alloc, round, PaxosNote::Commit, true);
    }
    if is_counted(
        counted,
        heard.acceptor,
        heard.member,
        heard.ballot,
        heard.prepared,
    ) {
        return noted(alloc, PaxosNote::Ignored);
    }
    counts(alloc, heard)
}

/// What a message gives at a member with this decision, which counted these acceptances of the round.
pub(crate) fn member_row(
    alloc: Global,
    group: Group,
    decision: Option<bool>,
    counted: &[Acceptance],
    from: Name,
    message: &PaxosMsg,
) -> MemberPlan
    requires few { group.faults < 128 }
    ensures { (m : VotingMember) → m.decision ≡ decision → m.counted ≡ counted.now → member_plan result ≡ member_row group m from message.now }
{
    match message {
        PaxosMsg::Accepted {
            round,
            member,
            ballot,
            prepared,
        } => {
            if decision.is_some() {
                return noted(alloc, PaxosNote::Ignored);
            }
            let heard = Acceptance {
                acceptor: from.number,
                member: *member,
                ballot: *ballot,
                prepared: *prepared,
            };
            on_accepted(alloc, group, *round, heard, counted)
        }
        _ => noted(alloc, PaxosNote::Ignored),
    }
}

/// What a vote gives at a member of this number. The only error is that memory ran out.
pub(crate) fn on_vote(
    alloc: Global,
    group: Group,
    here: u8,
    round: Round,
    yes: bool,
) -> Result<MemberPlan, AllocError>
    requires few { group.faults < 128 }
    ensures { IfOk result (λ p. member_plan p ≡ on_paxos_vote group here round yes) }
{
    let order = PaxosMsg::Accept {
        round,
        member: here,
        ballot: 0,
        prepared: yes,
    };
    let mut sends = PaxosSends::new(alloc);
    push_each(alloc, &mut sends, ACCEPTOR, group.acceptors(), &order)?;
    Ok(MemberPlan {
        note: PaxosNote::Voted,
        change: Some(PaxosRecord::Voted { round, yes }),
        count: None,
        sends,
    })
}
