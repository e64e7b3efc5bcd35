//! The ids of batches.
ghost use Rattle.std.specs.Prelude.{◌≡◌};

use crate::listing::Listing;
use std::marker::Model;

/// The id of a batch, which its submitter chooses (docs/RULES.md, Ids). Contracts see its number.
#[derive(Clone, Copy, PartialEq, Eq, PartialOrd, Ord, Hash)]
pub struct BatchId(pub u64);

impl Model for BatchId {
    ghost use Rattle.std.specs.Prelude.{ℕ};

    ghost Value = { ℕ };

    ghost view = { λ b. b.0 };

    ghost inverse = { λ n. record { 0 = n } };
}

/// The ids of batches, in an order that their holder reports.
pub type BatchIds = Listing<BatchId>;
