//! When circuits tick.
use spl_base::CircuitId;
use std::alloc::{AllocError, Global};
use std::collections::BTreeMap;

/// How many milliseconds pass before what is due is tried again, at first and at most.
const FIRST: u64 = 200;

const MOST: u64 = 5_000;

#[derive(Clone, Copy, Drop)]
struct Next {
    at: u64,
    pause: u64,
}

/// The circuits where a tick may have something to do, each with the moment of its next tick, in milliseconds.
#[derive(Drop)]
pub struct Ticks {
    next: BTreeMap<CircuitId, Next>,
}

impl Ticks {
    pub fn new(alloc: Global) -> Ticks {
        Ticks {
            next: BTreeMap::new(alloc),
        }
    }

    /// Something happened at a circuit: it ticks soon, where it doesn't already.
    pub fn wake(&mut self, circuit: CircuitId, now: u64) -> Result<(), AllocError> {
        let at = now.saturating_add(FIRST);
        if let Some(next) = self.next.get_mut(&circuit) {
            if at < next.at {
                next.at = at;
            }
            next.pause = FIRST;
            return Ok(());
        }
        match self.next.insert(circuit, Next { at, pause: FIRST }) {
            Ok(_) => Ok(()),
            Err(_) => Err(AllocError),
        }
    }

    /// A circuit that ticks now; its next tick is after a pause that doubles.
    pub fn take(&mut self, now: u64) -> Option<CircuitId> {
        for (circuit, next) in self.next.iter_mut() {
            if next.at <= now {
                next.at = now.saturating_add(next.pause);
                next.pause = next.pause.saturating_mul(2).min(MOST);
                return Some(*circuit);
            }
        }
        None
    }

    /// Nothing is due at a circuit.
    pub fn rest(&mut self, circuit: &CircuitId) {
        self.next.remove(circuit);
    }

    /// How many milliseconds pass until the next tick, at most this many.
    pub fn pause(&self, now: u64, most: u64) -> u64 {
        let mut least = most;
        for (_, next) in self.next.iter() {
            least = least.min(next.at.saturating_sub(now));
        }
        least
    }
}
