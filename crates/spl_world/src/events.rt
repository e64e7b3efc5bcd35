//! How many events ran.
ghost use Rattle.std.specs.Prelude.{◌≡◌, ◌≤◌, OnErr, OnOk, IsErrOf};
ghost use Rattle.spl_world.specs.Counts.{Counts};

use crate::fault::WorldFault;
use spl_circuit_world::MOST_EVENTS;
use std::marker::Model;

/// How many events ran, at most `MOST_EVENTS`. Contracts see the number.
#[derive(Drop)]
pub struct Events {
    count: u32,
}

impl Model for Events {
    ghost use Rattle.std.specs.Prelude.{ℕ, ◌≤◌};
    ghost use Rattle.spl_circuit_world.specs.declared.TheConstants.{MOST_EVENTS};

    ghost Value = { ℕ };

    ghost view = { λ s. s.count };

    ghost invariant = { λ s. s.count ≤ MOST_EVENTS };
}

impl Events {
    /// None ran yet.
    pub fn new() -> Events
        ensures { result ≡ 0 }
    {
        Events { count: 0 }
    }

    /// How many there were.
    pub fn count(&self) -> u32
        ensures count { result ≡ self.now }
        ensures within { self.now ≤ MOST_EVENTS }
    {
        self.count
    }

    /// They are no more than the limit.
    pub fn are_within(&self)
        ensures { self.now ≤ MOST_EVENTS }
    {
        let _ = self.count();
    }

    /// So many more, where the limit has room for them.
    pub fn add(&mut self, more: u32) -> Result<(), WorldFault>
        ensures counts { Counts result self.old self.new 0 more }
        ensures within { OnOk result (self.new ≤ MOST_EVENTS) }
        ensures fault { OnErr result (IsErrOf result (WorldFault.TooMany 1)) }
    {
        if more > MOST_EVENTS - self.count {
            return Err(WorldFault::TooMany { which: 1 });
        }
        self.count += more;
        Ok(())
    }
}
