//! What roots have in common.
ghost use Rattle.std.specs.Prelude.{◌≡◌, ◌≤◌, true};
ghost use Rattle.spl_state.specs.{Digits.same_digits, Runs.raised};

use crate::address::Address;
use crate::beginnings::Beginnings;
use crate::digest::lone_parts;

/// What roots have in common: how their nodes begin, and the last run of lone parts from the first
/// digit on whose digest was computed. A state whose entries share many digits spends most of its
/// root on such a run, and equal states have equal runs: where `State::renew` of several is given
/// one cache, the run is hashed once. Nothing is promised of what it keeps, but that it is right.
#[derive(Drop)]
pub struct RunCache {
    run: Run,
    pub(crate) beginnings: Beginnings,
}

/// A run of lone parts from the first digit on.
#[derive(Drop)]
struct Run {
    /// What stands below the run, and its digits: the first `count` of an address.
    below: [u8; 32],
    path: Address,
    count: usize,
    /// The node above.
    above: [u8; 32],
    ghost right: { above ≡ raised count 0 path below },
}

impl RunCache {
    /// Nothing is kept. It takes no memory.
    pub fn new() -> RunCache {
        RunCache {
            run: Run::new(),
            beginnings: Beginnings::new(),
        }
    }

    /// The node of entries that all lie below the first `count` digits of an address, by their node
    /// below these.
    #[tactic(auto, using(crate::proofs::Runs::raised_same))]
    pub(crate) fn raise(&mut self, below: [u8; 32], path: &Address, count: usize) -> [u8; 32]
        requires { count ≤ 70 }
        ensures { result ≡ raised count 0 path.now below }
    {
        if !self.run.is_of(&below, path, count) {
            self.run = Run {
                below,
                path: *path,
                count,
                above: lone_parts(below, path, 0, count, &mut self.beginnings),
            };
        }
        self.run.above
    }
}

impl Run {
    /// The run of no digit.
    fn new() -> Run {
        Run {
            below: [0; 32],
            path: Address([0; 35]),
            count: 0,
            above: [0; 32],
        }
    }

    /// Whether this is the run.
    fn is_of(&self, below: &[u8; 32], path: &Address, count: usize) -> bool
        requires { count ≤ 70 }
        ensures count { result ≡ true → self.now.count ≡ count }
        ensures below { result ≡ true → self.now.below ≡ below.now }
        ensures path { result ≡ true → same_digits count 0 self.now.path path.now ≡ true }
    {
        self.count == count && self.below == *below && self.path.same_between(path, 0, count)
    }
}
