//! The promises that a leader counted for its open ballot, and one that it hears.
ghost use Rattle.std.specs.Prelude.{◌≡◌, ◌≤◌, ◌<◌, is_some};
ghost use Rattle.spl_acceptor.specs.{Quorums.{count, has_quorum}, Rows.{pair_in, greater, greatest, choice}};
ghost use Rattle.spl_paxos.specs.Promises.{heard_among, heard_now};

use spl_acceptor::{Group, Pledge, PledgeList, pair_among};

/// A promise of an acceptor: what it had accepted of each member.
#[derive(Drop)]
pub struct HeardPromise {
    pub acceptor: u8,
    pub pairs: PledgeList,
}

/// An open ballot, with the promises that were counted for it. The newest stands first.
#[derive(Drop)]
pub struct OpenBallot {
    pub number: u64,
    pub heard: Vec<HeardPromise>,
}

/// The promises that were counted, and one that is heard now.
#[derive(Clone, Copy)]
pub(crate) struct Heard<'a> {
    pub acceptor: u8,
    pub pairs: &'a [Pledge],
    pub before: &'a [HeardPromise],
}

/// Whether a promise of this acceptor was counted.
pub(crate) fn is_heard(before: &[HeardPromise], acceptor: u8) -> bool
    ensures { result ≡ is_some (heard_among before.now acceptor) }
{
    match before.split_first() {
        None => false,
        Some((first, rest)) => first.acceptor == acceptor || is_heard(rest, acceptor),
    }
}

/// What an acceptor whose promise was counted had accepted of a member.
fn pair_heard(before: &[HeardPromise], acceptor: u8, member: u8) -> Option<(u64, bool)>
    ensures { result ≡ pair_in (heard_among before.now acceptor) member }
{
    match before.split_first() {
        None => None,
        Some((first, rest)) => {
            if first.acceptor == acceptor {
                pair_among(first.pairs.as_slice(), member)
            } else {
                pair_heard(rest, acceptor, member)
            }
        }
    }
}

/// The pair of the greater ballot.
fn greater(x: Option<(u64, bool)>, y: Option<(u64, bool)>) -> Option<(u64, bool)>
    ensures { result ≡ greater x y }
{
    match (x, y) {
        (None, _) => y,
        (Some(_), None) => x,
        (Some(first), Some(second)) => { if first.0 < second.0 { y } else { x } }
    }
}

impl Heard<'_> {
    /// How many of the acceptors from 1 to `most` promised.
    fn count(&self, most: u8) -> u8
        ensures count { result ≡ count most (λ a. is_some (heard_now self.now a)) }
        ensures few { result ≤ most }
    {
        if most == 0 {
            return 0;
        }
        let others = self.count(most - 1);
        if self.acceptor == most || is_heard(self.before, most) {
            others + 1
        } else {
            others
        }
    }

    /// Whether F + 1 acceptors promised.
    pub(crate) fn is_quorum(&self, group: Group) -> bool
        requires few { group.faults < 128 }
        ensures { result ≡ has_quorum group.faults (λ a. is_some (heard_now self.now a)) }
    {
        group.faults < self.count(group.acceptors())
    }

    /// What an acceptor that promised had accepted of a member.
    fn pair(&self, acceptor: u8, member: u8) -> Option<(u64, bool)>
        ensures { result ≡ pair_in (heard_now self.now acceptor) member }
    {
        if self.acceptor == acceptor {
            pair_among(self.pairs, member)
        } else {
            pair_heard(self.before, acceptor, member)
        }
    }

    /// The pair of the greatest ballot of a member, among those of the acceptors from 1 to `most` that promised.
    fn greatest(&self, member: u8, most: u8) -> Option<(u64, bool)>
        ensures { result ≡ greatest most (heard_now self.now) member }
    {
        if most == 0 {
            return None;
        }
        greater(self.greatest(member, most - 1), self.pair(most, member))
    }

    /// Whether a member is prepared by that pair; it isn't where there is none.
    pub(crate) fn choice(&self, group: Group, member: u8) -> bool
        requires few { group.faults < 128 }
        ensures { result ≡ choice group (heard_now self.now) member }
    {
        match self.greatest(member, group.acceptors()) {
            None => false,
            Some((_, prepared)) => prepared,
        }
    }
}
