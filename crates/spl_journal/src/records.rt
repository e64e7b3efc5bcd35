//! Records in memory.
ghost use Rattle.std.specs.Prelude.{◌≡◌, ◌++◌, ◌∷◌, [], length, OnOk, OnErr};

use spl_base::Piece;
use std::alloc::{AllocError, Global};
use std::marker::Model;

/// A list of records. Contracts see the list of their bytes.
#[derive(Drop)]
pub struct Records {
    items: Vec<Piece>,
}

impl Model for Records {
    ghost use Rattle.std.specs.Prelude.{List, ℕ};

    ghost Value = { List (List ℕ) };

    ghost view = { λ r. r.items.items };
}

impl Records {
    /// No records; nothing is allocated.
    pub fn new(alloc: Global) -> Records
        ensures { result ≡ [] }
    {
        Records {
            items: Vec::new(alloc),
        }
    }

    /// One record more, at the end. When memory runs out the list is as it was.
    pub fn push(&mut self, alloc: Global, bytes: &[u8]) -> Result<(), AllocError>
        ensures ok { OnOk result (self.new ≡ self.old ++ bytes.now ∷ []) }
        ensures err { OnErr result (self.new ≡ self.old) }
    {
        self.take(Piece::from(alloc, bytes)?)
    }

    /// One record more, at the end, kept without a copy. When memory runs out the list is as it was.
    pub fn take(&mut self, piece: Piece) -> Result<(), AllocError>
        ensures ok { OnOk result (self.new ≡ self.old ++ piece ∷ []) }
        ensures err { OnErr result (self.new ≡ self.old) }
    {
        self.items.push(piece)?;
        Ok(())
    }

    /// The records, in order.
    pub fn as_slice(&self) -> &[Piece]
        ensures { result.now ≡ self.now }
    {
        self.items.as_slice()
    }
}
