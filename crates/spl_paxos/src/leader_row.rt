//! The rows of a leader.
ghost use Rattle.std.specs.Prelude.{◌≡◌, ◌++◌, ◌<◌, ◌^◌, nat_lt, Some, None, OnOk, IfOk, if◌then◌else◌};
ghost use Rattle.spl_acceptor.specs.{Processes.Leader, Quorums.numbers, Rows.{note_alone, next_ballot, begin_plan, on_lead, pair_among, choice, orders}};
ghost use Rattle.spl_acceptor.specs.Rows.{counts_promise, on_promise, on_higher};
ghost use Rattle.spl_paxos.specs.{Plans.leader_plan, Promises.{heard_now, ballot_view}};

use crate::heard::{Heard, OpenBallot, is_heard};
use crate::{LeaderMove, LeaderPlan};
use spl_acceptor::{
    ACCEPTOR, Group, PaxosMsg, PaxosNote, PaxosRecord, PaxosSends, PledgeList, leader_of, push_each,
};
use spl_agree::Round;
use spl_base::Value;
use std::alloc::{AllocError, Global};

/// Nothing but a note.
pub(crate) fn noted(alloc: Global, note: PaxosNote) -> LeaderPlan
    ensures { leader_plan result ≡ note_alone note }
{
    LeaderPlan {
        note,
        change: None,
        opening: LeaderMove::Keep,
        sends: PaxosSends::new(alloc),
    }
}

/// The least ballot of a leader above this one; None exactly where that isn't below 2^64.
fn next_ballot(here: u8, used: u64) -> Option<u64>
    ensures { result ≡ (if nat_lt (next_ballot here used) (2 ^ 64) then Some (next_ballot here used) else None) }
{
    let next = used.checked_add(1)?;
    if leader_of(next) == here {
        return Some(next);
    }
    let next = used.checked_add(2)?;
    if leader_of(next) == here {
        return Some(next);
    }
    used.checked_add(3)
}

fn begins(alloc: Global, group: Group, round: Round, ballot: u64) -> Result<LeaderPlan, AllocError>
    requires few { group.faults < 128 }
    ensures { IfOk result (λ p. leader_plan p ≡ begin_plan group round ballot) }
{
    let asked = PaxosMsg::Ask { round, ballot };
    let mut sends = PaxosSends::new(alloc);
    push_each(alloc, &mut sends, ACCEPTOR, group.acceptors(), &asked)?;
    Ok(LeaderPlan {
        note: PaxosNote::Ballot(ballot),
        change: Some(PaxosRecord::Used { round, ballot }),
        opening: LeaderMove::Begin { ballot },
        sends,
    })
}

/// What leading gives at a leader of this number that used this ballot. The only error is that memory ran out.
pub(crate) fn on_lead(
    alloc: Global,
    group: Group,
    here: u8,
    used: u64,
    round: Round,
) -> Result<LeaderPlan, AllocError>
    requires few { group.faults < 128 }
    ensures { (l : Leader) → l.used ≡ used → IfOk result (λ p. leader_plan p ≡ on_lead group here l round) }
{
    match next_ballot(here, used) {
        None => Ok(noted(alloc, PaxosNote::Spent)),
        Some(ballot) => begins(alloc, group, round, ballot),
    }
}

/// Orders the acceptors to accept what is chosen of the members from 1 to `members`, in order.
fn push_orders(
    alloc: Global,
    sends: &mut PaxosSends,
    group: Group,
    round: Round,
    ballot: u64,
    heard: &Heard<'_>,
    members: u8,
) -> Result<(), AllocError>
    requires few { group.faults < 128 }
    ensures { OnOk result (sends.new ≡ sends.old ++ orders group round ballot (choice group (heard_now heard.now)) (numbers members)) }
{
    if members == 0 {
        return Ok(());
    }
    push_orders(alloc, sends, group, round, ballot, heard, members - 1)?;
    let order = PaxosMsg::Accept {
        round,
        member: members,
        ballot,
        prepared: heard.choice(group, members),
    };
    push_each(alloc, sends, ACCEPTOR, group.acceptors(), &order)
}

fn counts_promise(
    alloc: Global,
    group: Group,
    round: Round,
    ballot: u64,
    heard: &Heard<'_>,
    pairs: &PledgeList,
) -> Result<LeaderPlan, AllocError>
    requires few { group.faults < 128 }
    ensures { IfOk result (λ p. leader_plan p ≡ counts_promise group round ballot heard.now.acceptor (pair_among pairs.now) (heard_now heard.now)) }
{
    let mut sends = PaxosSends::new(alloc);
    if heard.is_quorum(group) {
        push_orders(
            alloc,
            &mut sends,
            group,
            round,
            ballot,
            heard,
            group.members,
        )?;
        return Ok(LeaderPlan {
            note: PaxosNote::Sent(ballot),
            change: None,
            opening: LeaderMove::Close,
            sends,
        });
    }
    let opening = LeaderMove::Hear {
        acceptor: heard.acceptor,
        pairs: pairs.copy(alloc)?,
    };
    Ok(LeaderPlan {
        note: PaxosNote::Counted,
        change: None,
        opening,
        sends,
    })
}

/// What a promise of an acceptor gives at a leader with this open ballot. The only error is that memory ran out.
pub(crate) fn on_promise(
    alloc: Global,
    group: Group,
    opened: &OpenBallot,
    round: Round,
    acceptor: u8,
    ballot: u64,
    pairs: &PledgeList,
) -> Result<LeaderPlan, AllocError>
    requires few { group.faults < 128 }
    ensures { IfOk result (λ p. leader_plan p ≡ on_promise group (Some (ballot_view opened.now)) round acceptor ballot (pair_among pairs.now)) }
{
    if opened.number != ballot || is_heard(&opened.heard, acceptor) {
        return Ok(noted(alloc, PaxosNote::Ignored));
    }
    let heard = Heard {
        acceptor,
        pairs: pairs.as_slice(),
        before: &opened.heard,
    };
    counts_promise(alloc, group, round, ballot, &heard, pairs)
}

/// What a higher ballot gives at a leader that used this one.
pub(crate) fn on_higher(alloc: Global, used: u64, round: Round, ballot: u64) -> LeaderPlan
    ensures { (l : Leader) → l.used ≡ used → leader_plan result ≡ on_higher l round ballot }
{
    if used >= ballot {
        return noted(alloc, PaxosNote::Ignored);
    }
    LeaderPlan {
        note: PaxosNote::Noted(ballot),
        change: Some(PaxosRecord::Used { round, ballot }),
        opening: LeaderMove::Keep,
        sends: PaxosSends::new(alloc),
    }
}
