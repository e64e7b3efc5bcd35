//! What an acceptor keeps of a round, and what it does with a message of that round.
ghost use Rattle.std.specs.Prelude.{◌≡◌, ◌++◌, Some, OnOk, IfOk};
ghost use Rattle.spl_agree.specs.World.{put};
ghost use Rattle.spl_acceptor.specs.{Held.held_of, Processes.new_acceptor, Records.acceptor_with, Rows.{pair_among, pledges}};

use crate::{PaxosRecord, Pledge, PledgeList};
use std::alloc::{AllocError, Global};

/// What an acceptor keeps of a round. The last pledge of a member stands first.
#[derive(Drop)]
pub struct Held {
    promised: u64,
    accepted: Vec<Pledge>,
}

/// The pair of a member among pledges.
pub fn pair_among(among: &[Pledge], member: u8) -> Option<(u64, bool)>
    ensures { result ≡ pair_among among.now member }
{
    match among.split_first() {
        None => None,
        Some((first, rest)) => {
            if first.member == member {
                Some((first.ballot, first.prepared))
            } else {
                pair_among(rest, member)
            }
        }
    }
}

impl Held {
    /// Nothing was promised or accepted; nothing is allocated.
    pub fn new(alloc: Global) -> Held
        ensures { held_of result ≡ new_acceptor }
    {
        Held {
            promised: 0,
            accepted: Vec::new(alloc),
        }
    }

    /// The promised ballot.
    pub fn promised(&self) -> u64
        ensures { result ≡ (held_of self.now).promised }
    {
        self.promised
    }

    /// The accepted pair of a member.
    pub fn pair(&self, member: u8) -> Option<(u64, bool)>
        ensures { result ≡ (held_of self.now).accepted member }
    {
        pair_among(self.accepted.as_slice(), member)
    }

    /// This ballot is promised.
    pub fn promise(&mut self, ballot: u64)
        ensures { held_of self.new ≡ record { promised = ballot; accepted = (held_of self.old).accepted } }
    {
        self.promised = ballot;
    }

    /// This is accepted of a member, and its ballot promised.
    pub fn accept(&mut self, member: u8, ballot: u64, prepared: bool) -> Result<(), AllocError>
        ensures { OnOk result (held_of self.new ≡ record { promised = ballot; accepted = put (held_of self.old).accepted member (Some (ballot, prepared)) }) }
    {
        self.accepted.insert(
            0,
            Pledge {
                member,
                ballot,
                prepared,
            },
        )?;
        self.promised = ballot;
        Ok(())
    }

    /// Makes the change of a record; those of members and leaders change nothing.
    pub fn apply(&mut self, change: &PaxosRecord) -> Result<(), AllocError>
        ensures { OnOk result (held_of self.new ≡ acceptor_with (held_of self.old) change.now) }
    {
        match change {
            PaxosRecord::Promised { ballot, .. } => {
                self.promise(*ballot);
                Ok(())
            }
            PaxosRecord::Accepted {
                member,
                ballot,
                prepared,
                ..
            } => self.accept(*member, *ballot, *prepared),
            _ => Ok(()),
        }
    }

    fn push_pledges(&self, list: &mut PledgeList, members: u8) -> Result<(), AllocError>
        ensures { OnOk result (list.new ≡ list.old ++ pledges members (held_of self.now).accepted) }
    {
        if members == 0 {
            return Ok(());
        }
        self.push_pledges(list, members - 1)?;
        if let Some((ballot, prepared)) = self.pair(members) {
            list.push(Pledge {
                member: members,
                ballot,
                prepared,
            })?;
        }
        Ok(())
    }

    /// The accepted pairs of the members from 1 on, in order.
    pub fn pledges(&self, alloc: Global, members: u8) -> Result<PledgeList, AllocError>
        ensures { IfOk result (λ l. l ≡ pledges members (held_of self.now).accepted) }
    {
        let mut list = PledgeList::new(alloc);
        self.push_pledges(&mut list, members)?;
        Ok(list)
    }
}
