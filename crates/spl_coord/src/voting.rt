//! No round open, or one and its votes.
ghost use Rattle.std.specs.Prelude.{◌≡◌, ◌<◌, false};
ghost use Rattle.spl_agree.specs.Member.{none_left};
ghost use Rattle.spl_coord.specs.{Positions.positions, Votes.voted_on};

use crate::{has_position, is_empty, without_position};
use spl_agree::Round;
use std::marker::Model;

/// No round is open.
#[derive(Drop)]
pub struct Idle {
    _private: (),
}

impl Model for Idle {
    ghost use Rattle.std.specs.Prelude.{ℕ};

    ghost Value = { Unit {0} };

    ghost view = { λ _. tt };
}

/// A round is open about a value for some members, and some of them have not voted yes.
#[derive(Drop)]
pub struct Voting<V> {
    round: Round,
    value: V,
    others: u8,
    missing: u8,
}

impl<V> Model for Voting<V> {
    ghost use Rattle.std.specs.Prelude.{◌≡◌, false};
    ghost use Rattle.spl_agree.specs.Member.{none_left};
    ghost use Rattle.spl_coord.specs.{Positions.positions, Views.VotingView};

    ghost Value = { VotingView V };

    ghost view = { λ s. record { round = s.round; value = s.value; others = positions s.others; missing = positions s.missing } };

    ghost invariant = { λ s. none_left (positions s.missing) ≡ false };
}

/// What a vote leads to.
#[derive(Drop)]
pub enum Voted<V> {
    /// The vote changes nothing.
    Ignored(Voting<V>),
    /// It is counted, and others are still missing.
    Counted(Voting<V>),
    /// It was the last one: the round is committed.
    Committed(Idle, Round, V),
    /// The round is aborted.
    Aborted(Idle, Round, V),
}

impl Idle {
    /// The first state.
    pub fn new() -> Idle {
        Idle { _private: () }
    }

    /// Opens a round about a value. `others` has the bits of the members that are to vote yes, one
    /// at least.
    pub fn begin<V>(self, round: Round, value: V, others: u8) -> Voting<V>
        requires { none_left (positions others) ≡ false }
        ensures { result ≡ record { round = round; value = value; others = positions others; missing = positions others } }
    {
        let Idle { _private } = self;
        Voting::kept(round, value, others, others)
    }
}

impl<V> Voting<V> {
    /// A round that goes on: the bits of the members that it was opened for, and of those of them
    /// that have not voted yes, one at least.
    pub fn kept(round: Round, value: V, others: u8, missing: u8) -> Voting<V>
        requires { none_left (positions missing) ≡ false }
        ensures { result ≡ record { round = round; value = value; others = positions others; missing = positions missing } }
    {
        Voting {
            round,
            value,
            others,
            missing,
        }
    }

    /// The open round.
    pub fn round(&self) -> Round
        ensures { result ≡ self.now.round }
    {
        self.round
    }

    /// The bits of those that have not voted yes.
    pub fn missing(&self) -> u8
        ensures { positions result ≡ self.now.missing }
    {
        self.missing
    }

    /// A vote of the one at a position below 8. It is ignored where it is on another round, where
    /// the round was not opened for that member, and where it is a yes that is counted already.
    pub fn on_vote(self, round: Round, member: u8, yes: bool) -> Voted<V>
        requires { member < 8 }
        ensures { result ≡ voted_on self round member yes }
    {
        if round != self.round || !has_position(self.others, member) {
            return Voted::Ignored(self);
        }
        if !yes {
            let (idle, round, value) = self.expire();
            return Voted::Aborted(idle, round, value);
        }
        if !has_position(self.missing, member) {
            return Voted::Ignored(self);
        }
        let Voting {
            round,
            value,
            others,
            missing,
        } = self;
        let rest = without_position(missing, member);
        if is_empty(rest) {
            Voted::Committed(Idle::new(), round, value)
        } else {
            Voted::Counted(Voting::kept(round, value, others, rest))
        }
    }

    /// Gives the round up: what it was, and its value.
    pub fn expire(self) -> (Idle, Round, V)
        ensures round { result.1 ≡ self.round }
        ensures value { result.2 ≡ self.value }
    {
        let Voting {
            round,
            value,
            others: _,
            missing: _,
        } = self;
        (Idle::new(), round, value)
    }

    /// A stop forgets the open round.
    pub fn restart(self) -> Idle
    where
        V: Drop,
    {
        Idle::new()
    }
}
