//! Proofs: the levels of digests from a root down to an end.
ghost use Rattle.std.specs.Prelude.{◌≡◌, ◌≤◌, ◌<◌, ◌++◌, ◌∷◌, [], length, OnOk, OnErr};
ghost use Rattle.spl_proof.specs.declared.proof.TheConstants.{MOST_LEVELS};

use spl_base::Piece;
use spl_state::Address;
use std::alloc::{AllocError, Global};
use std::marker::Model;

/// How many levels a proof has at most: an address has as many digits.
pub const MOST_LEVELS: usize = 70;

/// How many bytes the value of an entry has at most where a proof with it is read or written.
pub const LONGEST_VALUE: u16 = 8192;

/// Sixteen digests, one for each digit.
pub type Level = [[u8; 32]; 16];

/// The levels of a proof, the root's first. Contracts see the list.
#[derive(Drop)]
pub struct Levels {
    items: Vec<Level>,
}

impl Model for Levels {
    ghost use Rattle.std.specs.Prelude.{◌≤◌, List, ℕ, length};

    ghost Value = { List (List (List ℕ)) };

    ghost view = { λ l. l.items.items };

    ghost invariant = { λ l. length l.items.items ≤ 70 };
}

impl Levels {
    /// No level; nothing is allocated.
    pub fn new(alloc: Global) -> Levels
        ensures { result ≡ [] }
    {
        Levels {
            items: Vec::new(alloc),
        }
    }

    /// One level more, below the others. When memory runs out the list is as it was.
    pub fn push(&mut self, level: Level) -> Result<(), AllocError>
        requires { length self.old < MOST_LEVELS }
        ensures ok { OnOk result (self.new ≡ self.old ++ level ∷ []) }
        ensures err { OnErr result (self.new ≡ self.old) }
    {
        self.items.push(level)?;
        Ok(())
    }

    /// The levels, in order.
    pub fn as_slice(&self) -> &[Level]
        ensures value { result.now ≡ self.now }
        ensures few { length result.now ≤ MOST_LEVELS }
    {
        self.items.as_slice()
    }
}

/// What stands below the last level.
#[derive(Drop)]
pub enum End {
    /// No entry.
    Empty,
    /// The one entry: its address and its value.
    Leaf(Address, Piece),
}

/// What shows, under the root of a state, that an address has a value or none: the digests beside
/// the address's path from the root down, and what stands at its end (docs/RULES.md, Proofs).
#[derive(Drop)]
pub struct Proof {
    pub levels: Levels,
    pub end: End,
}
