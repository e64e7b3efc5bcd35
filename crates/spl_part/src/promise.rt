//! Nothing promised, or the value of a round.
ghost use Rattle.std.specs.Prelude.{◌≡◌};
ghost use Rattle.spl_part.specs.Promises.{requested_of, asked_again, decided_of};

use spl_agree::Round;
use std::marker::Model;

/// Nothing is promised.
#[derive(Drop)]
pub struct Free {
    _private: (),
}

impl Model for Free {
    ghost use Rattle.std.specs.Prelude.{ℕ};

    ghost Value = { Unit {0} };

    ghost view = { λ _. tt };
}

/// The value of a round is promised. Contracts see the pair of both.
#[derive(Drop)]
pub struct Promised<V> {
    round: Round,
    value: V,
}

impl<V> Model for Promised<V> {
    ghost use Rattle.std.specs.Prelude.{ℕ};

    ghost Value = { ℕ × V };

    ghost view = { λ p. (p.round, p.value) };
}

/// What a request leads to where nothing is promised.
#[derive(Drop)]
pub enum Requested<V> {
    /// The value is promised, and the vote is yes.
    Promised(Promised<V>),
    /// The vote is no.
    Declined(Free, V),
    /// There is no vote.
    Ignored(Free, V),
}

/// What a request leads to where a round is promised.
#[derive(Clone, Copy, PartialEq, Eq)]
pub enum Again {
    /// It is the promised round: the vote is yes again.
    Yes,
    /// The decision of the promised round is asked for.
    Ask(Round),
}

/// What a decision leads to where a round is promised.
#[derive(Drop)]
pub enum Decided<V> {
    /// The promised round is committed.
    Committed(Free, Round, V),
    /// The promised round is aborted.
    Aborted(Free, Round, V),
    /// It is about another round.
    Ignored(Promised<V>),
}

impl Free {
    /// The first state.
    pub fn new() -> Free {
        Free { _private: () }
    }

    /// A request for a vote on a value: `seen` is the last round seen, `committed` says that the
    /// round is in the history, and `fits` that the place and the check are good.
    pub fn on_request<V>(
        self,
        seen: Round,
        round: Round,
        committed: bool,
        fits: bool,
        value: V,
    ) -> Requested<V>
        ensures { result ≡ requested_of seen round committed fits value }
    {
        if round.0 < seen.0 {
            return Requested::Ignored(self, value);
        }
        if round == seen {
            if committed {
                return Requested::Ignored(self, value);
            }
            return Requested::Declined(self, value);
        }
        if fits {
            Requested::Promised(Promised { round, value })
        } else {
            Requested::Declined(self, value)
        }
    }
}

impl<V> Promised<V> {
    /// A promise that was kept through a stop.
    pub fn kept(round: Round, value: V) -> Promised<V>
        ensures { result ≡ (round, value) }
    {
        Promised { round, value }
    }

    /// The promised value.
    pub fn value(&self) -> &V
        ensures { result.now ≡ self.now.1 }
    {
        &self.value
    }

    /// A request for a vote on a round.
    pub fn on_request(&self, round: Round) -> Again
        ensures { result ≡ asked_again self.now.0 round }
    {
        if self.round == round {
            Again::Yes
        } else {
            Again::Ask(self.round)
        }
    }

    /// A decision of a round.
    pub fn on_decision(self, round: Round, commit: bool) -> Decided<V>
        ensures { result ≡ decided_of self round commit }
    {
        if self.round != round {
            return Decided::Ignored(self);
        }
        let Promised { round, value } = self;
        if commit {
            Decided::Committed(Free::new(), round, value)
        } else {
            Decided::Aborted(Free::new(), round, value)
        }
    }

    /// The round whose decision a tick asks for.
    pub fn tick(&self) -> Round
        ensures { result ≡ self.now.0 }
    {
        self.round
    }

    /// A promise outlives a stop.
    pub fn restart(self) -> Promised<V>
        ensures { result ≡ self }
    {
        self
    }
}
