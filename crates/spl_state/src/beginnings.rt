//! How inner nodes begin.
ghost use Rattle.std.specs.Prelude.{◌≡◌, ℕ, ◌+◌, ◌*◌, ◌<◌, ◌∷◌, IfSome, true, take, drop, replicate};
ghost use Rattle.sha2.specs.Sha256.{sha256};
ghost use Rattle.spl_state.specs.Begins.{Begins, AllBegin, all_begin-prop};

use sha2::{Digest, Sha256};

/// No hasher.
const NONE: Option<Sha256> = None;

/// Hashers of what inner nodes begin with: the byte 1, and zeros where the first parts are empty.
/// Each is made when it is first wanted, so that these zeros are hashed once for many nodes.
#[derive(Drop)]
pub(crate) struct Beginnings {
    /// By the number of empty pairs of parts, which have 64 bytes each.
    hashers: [Option<Sha256>; 8],
    ghost begun: { AllBegin hashers } by { all_begin-prop hashers },
}

impl Beginnings {
    /// None is made yet. It takes no memory.
    pub(crate) fn new() -> Beginnings {
        Beginnings { hashers: [NONE; 8] }
    }

    /// The node of sixteen parts, by their digests one after the other.
    pub(crate) fn node(&mut self, parts: &[u8; 512]) -> [u8; 32]
        ensures { result ≡ sha256 (1 ∷ parts.now) }
    {
        let pairs = empty_pairs(parts);
        let mut hasher = self.after(pairs);
        hasher.update(&parts[64 * pairs..]);
        hasher.finalize()
    }

    /// A hasher of the byte 1 and the zeros of so many empty pairs.
    fn after(&mut self, pairs: usize) -> Sha256
        requires { pairs < 8 }
        ensures { Begins pairs result }
    {
        if let Some(hasher) = self.made(pairs) {
            return hasher;
        }
        let hasher = if pairs == 0 {
            Sha256::new_with_prefix(&[1u8])
        } else {
            longer(self.after(pairs - 1))
        };
        self.keep(pairs, &hasher);
        hasher
    }

    /// The hasher after so many empty pairs, if it is made.
    fn made(&self, pairs: usize) -> Option<Sha256>
        requires { pairs < 8 }
        ensures { IfSome result (Begins pairs) }
    {
        match &self.hashers[pairs] {
            Some(hasher) => Some(hasher.clone().unwrap()),
            None => None,
        }
    }

    /// Keeps the hasher after so many empty pairs.
    fn keep(&mut self, pairs: usize, hasher: &Sha256)
        requires small { pairs < 8 }
        requires begins { Begins pairs hasher.now }
    {
        self.hashers[pairs] = Some(hasher.clone().unwrap());
    }
}

/// The hasher after one more empty pair.
fn longer(hasher: Sha256) -> Sha256
    ensures { (k : ℕ) → Begins k hasher → Begins (k + 1) result }
{
    hasher.chain_update(&[0u8; 64])
}

/// How many pairs of parts are empty before another one, up to seven.
fn empty_pairs(parts: &[u8; 512]) -> usize
    ensures small { result < 8 }
    ensures empty { take (64 * result) parts.now ≡ replicate (64 * result) 0 }
{
    let mut pairs = 0;
    while pairs < 7 && is_empty_pair(parts, pairs) {
        pairs += 1;
    }
    pairs
}

/// Whether two parts are empty, which are together the pair with so many before it.
fn is_empty_pair(parts: &[u8; 512], before: usize) -> bool
    requires { before < 8 }
    ensures { result ≡ true → take 64 (drop (64 * before) parts.now) ≡ replicate 64 0 }
{
    parts[64 * before..64 * before + 64] == [0u8; 64]
}
