//! Where the digits of an address leave at most one entry.
ghost use Rattle.std.specs.Prelude.{◌≡◌, ◌≤◌, ◌<◌, ◌∷◌, [], ℕ, length, MatchOption};
ghost use Rattle.spl_state.specs.Digits.{shares};

use super::{Body, Tree};
use crate::address::Address;

impl Tree {
    /// The lone entry, if there is one.
    #[tactic(auto, using(crate::proofs::Steps::depth_of))]
    fn lone(&self) -> Option<(Address, &[u8])>
        requires low { self.now.depth ≤ 70 }
        requires few { length self.now.entries < 2 }
        ensures { MatchOption result (self.now.entries ≡ []) (λ e. self.now.entries ≡ (e.0, e.1.now) ∷ []) }
    {
        match &self.body {
            Body::Empty => None,
            Body::Leaf(at, value) => Some((*at, value.bytes())),
            Body::Inner(parts) => {
                for part in parts {
                    if part.size() > 0 {
                        return part.lone();
                    }
                }
                None
            }
            Body::Thin(_, part) => part.lone(),
        }
    }

    /// The least number of digits of an address under which at most one entry lies, and that entry.
    #[tactic(auto, using(crate::proofs::Steps::depth_of))]
    pub(crate) fn foot(&self, address: &Address) -> (usize, Option<(Address, &[u8])>)
        requires { self.now.depth ≤ 70 }
        ensures low { self.now.depth ≤ result.0 }
        ensures high { result.0 ≤ 70 }
        ensures many { (i : ℕ) → self.now.depth ≤ i → i < result.0 → 2 ≤ length (shares i self.now.depth address.now self.now.entries) }
        ensures lone { let left = shares result.0 self.now.depth address.now self.now.entries in
            MatchOption result.1 (left ≡ []) (λ e. left ≡ (e.0, e.1.now) ∷ []) }
    {
        if self.size < 2 {
            return (self.depth, self.lone());
        }
        match &self.body {
            Body::Empty => (self.depth, None),
            Body::Leaf(_, _) => (self.depth, None),
            Body::Inner(parts) => parts[address.digit(self.depth) as usize].foot(address),
            Body::Thin(path, part) => match address.first_apart(path, self.depth, part.depth) {
                Some(k) => (k + 1, None),
                None => part.foot(address),
            },
        }
    }
}
