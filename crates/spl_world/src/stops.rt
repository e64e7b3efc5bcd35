//! How many lines stopped a node.
ghost use Rattle.std.specs.Prelude.{◌≡◌, ◌+◌, ◌≤◌, OnOk, OnErr, IsErrOf};

use crate::fault::WorldFault;
use spl_circuit_world::MOST_STOPS;
use std::marker::Model;

/// How many lines stopped a node, at most `MOST_STOPS`. Contracts see the number.
#[derive(Drop)]
pub struct Stops {
    count: u8,
}

impl Model for Stops {
    ghost use Rattle.std.specs.Prelude.{ℕ, ◌≤◌};
    ghost use Rattle.spl_circuit_world.specs.declared.TheConstants.{MOST_STOPS};

    ghost Value = { ℕ };

    ghost view = { λ s. s.count };

    ghost invariant = { λ s. s.count ≤ MOST_STOPS };
}

impl Stops {
    /// None did yet.
    pub fn new() -> Stops
        ensures { result ≡ 0 }
    {
        Stops { count: 0 }
    }

    /// How many there were.
    pub fn count(&self) -> u8
        ensures count { result ≡ self.now }
        ensures within { self.now ≤ MOST_STOPS }
    {
        self.count
    }

    /// They are no more than the limit.
    pub fn are_within(&self)
        ensures { self.now ≤ MOST_STOPS }
    {
        let _ = self.count();
    }

    /// One more, where the limit has room for it.
    pub fn add(&mut self) -> Result<(), WorldFault>
        ensures ok { OnOk result (self.new ≡ self.old + 1) }
        ensures full { OnErr result (self.old ≡ MOST_STOPS) }
        ensures fault { OnErr result (IsErrOf result (WorldFault.TooMany 2)) }
    {
        if self.count >= MOST_STOPS {
            return Err(WorldFault::TooMany { which: 2 });
        }
        self.count += 1;
        Ok(())
    }
}
