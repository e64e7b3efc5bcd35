//! What an acceptor does with a message of a round.
ghost use Rattle.std.specs.Prelude.{◌≡◌, IfOk};
ghost use Rattle.spl_acceptor.specs.Rows.{note_alone, leader_of, is_leader_of, may_order, is_pair, promises, decline_plan, accept_plan, acceptor_row};
ghost use Rattle.spl_acceptor.specs.{Held.held_of, Plans.acceptor_plan};

use crate::held::Held;
use crate::sending::push_each;
use crate::{Group, LEADER, MEMBER, Name, PaxosMsg, PaxosNote, PaxosRecord, PaxosSends};
use spl_agree::Round;
use std::alloc::{AllocError, Global};

/// What a message gives: a note, at most one record, and messages.
#[derive(Drop)]
pub struct AcceptorPlan {
    pub note: PaxosNote,
    pub change: Option<PaxosRecord>,
    pub sends: PaxosSends,
}

/// The number of the leader of a ballot.
pub fn leader_of(ballot: u64) -> u8
    ensures { result ≡ leader_of ballot }
{
    if ballot % 3 == 0 {
        3
    } else {
        (ballot % 3) as u8
    }
}

/// Whether this process leads the ballot.
pub fn is_leader_of(ballot: u64, name: Name) -> bool
    ensures { result ≡ is_leader_of ballot name }
{
    ballot > 0 && name.kind == LEADER && name.number == leader_of(ballot)
}

fn may_order(member: u8, ballot: u64, name: Name) -> bool
    ensures { result ≡ may_order member ballot name }
{
    (ballot == 0 && name.kind == MEMBER && name.number == member) || is_leader_of(ballot, name)
}

fn is_pair(ballot: u64, prepared: bool, pair: Option<(u64, bool)>) -> bool
    ensures { result ≡ is_pair ballot prepared pair }
{
    match pair {
        None => false,
        Some((other, yes)) => other == ballot && yes == prepared,
    }
}

fn ignored(alloc: Global) -> AcceptorPlan
    ensures { acceptor_plan result ≡ note_alone PaxosNote.Ignored }
{
    AcceptorPlan {
        note: PaxosNote::Ignored,
        change: None,
        sends: PaxosSends::new(alloc),
    }
}

impl Held {
    fn promises(
        &self,
        alloc: Global,
        group: Group,
        from: Name,
        round: Round,
        ballot: u64,
    ) -> Result<AcceptorPlan, AllocError>
        ensures { IfOk result (λ p. acceptor_plan p ≡ promises group (held_of self.now) from round ballot) }
    {
        let pairs = self.pledges(alloc, group.members)?;
        let mut sends = PaxosSends::new(alloc);
        sends.push(
            from,
            PaxosMsg::Promise {
                round,
                ballot,
                pairs,
            },
        )?;
        let change = if self.promised() == ballot {
            None
        } else {
            Some(PaxosRecord::Promised { round, ballot })
        };
        Ok(AcceptorPlan {
            note: PaxosNote::Promised(ballot),
            change,
            sends,
        })
    }

    fn declines(&self, alloc: Global, from: Name, round: Round) -> Result<AcceptorPlan, AllocError>
        ensures { IfOk result (λ p. acceptor_plan p ≡ decline_plan (held_of self.now) from round) }
    {
        let ballot = self.promised();
        let mut sends = PaxosSends::new(alloc);
        sends.push(from, PaxosMsg::Higher { round, ballot })?;
        Ok(AcceptorPlan {
            note: PaxosNote::Higher(ballot),
            change: None,
            sends,
        })
    }

    fn accepts(
        &self,
        alloc: Global,
        group: Group,
        round: Round,
        member: u8,
        ballot: u64,
        prepared: bool,
    ) -> Result<AcceptorPlan, AllocError>
        ensures { IfOk result (λ p. acceptor_plan p ≡ accept_plan group (held_of self.now) round member ballot prepared) }
    {
        let mut sends = PaxosSends::new(alloc);
        let told = PaxosMsg::Accepted {
            round,
            member,
            ballot,
            prepared,
        };
        push_each(alloc, &mut sends, MEMBER, group.members, &told)?;
        let same = self.promised() == ballot && is_pair(ballot, prepared, self.pair(member));
        let change = if same {
            None
        } else {
            Some(PaxosRecord::Accepted {
                round,
                member,
                ballot,
                prepared,
            })
        };
        Ok(AcceptorPlan {
            note: PaxosNote::Accepted,
            change,
            sends,
        })
    }

    /// What a message of the round gives at an acceptor of this run.
    pub fn plan(
        &self,
        alloc: Global,
        group: Group,
        from: Name,
        message: &PaxosMsg,
    ) -> Result<AcceptorPlan, AllocError>
        ensures { IfOk result (λ p. acceptor_plan p ≡ acceptor_row group (held_of self.now) from message.now) }
    {
        match message {
            PaxosMsg::Ask { round, ballot } => {
                if !is_leader_of(*ballot, from) {
                    return Ok(ignored(alloc));
                }
                if *ballot < self.promised() {
                    self.declines(alloc, from, *round)
                } else {
                    self.promises(alloc, group, from, *round, *ballot)
                }
            }
            PaxosMsg::Accept {
                round,
                member,
                ballot,
                prepared,
            } => {
                if may_order(*member, *ballot, from) && *ballot >= self.promised() {
                    self.accepts(alloc, group, *round, *member, *ballot, *prepared)
                } else {
                    Ok(ignored(alloc))
                }
            }
            _ => Ok(ignored(alloc)),
        }
    }
}
