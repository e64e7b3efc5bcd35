//! Numbers with a name.
ghost use Rattle.std.specs.Prelude.{◌≡◌};

use std::marker::Model;

/// The generation of a definition of a circuit, from 1. Contracts see its number.
#[derive(Clone, Copy, PartialEq, Eq, PartialOrd, Ord)]
pub struct Generation(pub u32);

impl Model for Generation {
    ghost use Rattle.std.specs.Prelude.{ℕ};

    ghost Value = { ℕ };

    ghost view = { λ g. g.0 };

    ghost inverse = { λ n. record { 0 = n } };
}

/// A round of a group, from 1: one attempt to commit one value. Contracts see its number.
#[derive(Clone, Copy, PartialEq, Eq, PartialOrd, Ord)]
pub struct Round(pub u64);

impl Model for Round {
    ghost use Rattle.std.specs.Prelude.{ℕ};

    ghost Value = { ℕ };

    ghost view = { λ r. r.0 };

    ghost inverse = { λ n. record { 0 = n } };
}

/// A place in a history, from 0. Contracts see its number.
#[derive(Clone, Copy, PartialEq, Eq, PartialOrd, Ord)]
pub struct Place(pub u32);

impl Model for Place {
    ghost use Rattle.std.specs.Prelude.{ℕ};

    ghost Value = { ℕ };

    ghost view = { λ p. p.0 };

    ghost inverse = { λ n. record { 0 = n } };
}
