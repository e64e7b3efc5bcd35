//! The digests of single nodes.
ghost use Rattle.std.specs.Prelude.{◌≡◌, ◌≤◌, ◌<◌, ◌+◌, ◌-◌, ◌*◌, ◌++◌, ◌∷◌, take, drop};
ghost use Rattle.sha2.specs.Sha256.{sha256};
ghost use Rattle.spl_state.specs.{Root.joined, Levels.lone, Runs.raised};

use crate::address::Address;
use crate::beginnings::Beginnings;
use crate::piece::Piece;
use sha2::{Digest, Sha256};

/// The node of a lone entry.
pub(crate) fn leaf(address: &Address, value: &Piece) -> [u8; 32]
    ensures { result ≡ sha256 (0 ∷ address.now.0 ++ value.now) }
{
    let mut head = [0u8; 36];
    head[1..].copy_from_slice(&address.0);
    let mut hasher = Sha256::new();
    hasher.update(&head);
    hasher.update(value.bytes());
    hasher.finalize()
}

/// The node of entries that all lie below the digit `only`.
fn lone_part(below: &[u8; 32], only: u8, beginnings: &mut Beginnings) -> [u8; 32]
    requires { only < 16 }
    ensures { result ≡ sha256 (1 ∷ joined (lone only below.now) 16) }
{
    let mut parts = [0u8; 512];
    set_part(&mut parts, only as usize, below);
    beginnings.node(&parts)
}

/// Writes the digest of one of sixteen parts, which stand one after the other.
#[inline]
#[tactic(auto, using(crate::proofs::Zeros::part_set))]
pub(crate) fn set_part(parts: &mut [u8; 512], digit: usize, digest: &[u8; 32])
    requires { digit < 16 }
    ensures before { take (32 * digit + 32) parts.new ≡ take (32 * digit) parts.old ++ digest.now }
    ensures whole { parts.new ≡ take (32 * digit) parts.old ++ (digest.now ++ drop (32 * digit + 32) parts.old) }
{
    let at = 32 * digit;
    parts[at..at + 32].copy_from_slice(digest);
}

/// The node of entries that all lie below the digits of `path` from `from` to `to`, by their node
/// below these.
#[tactic(auto, using(crate::proofs::Runs::raised_none, crate::proofs::Runs::raised_more))]
pub(crate) fn lone_parts(
    below: [u8; 32],
    path: &Address,
    from: usize,
    to: usize,
    beginnings: &mut Beginnings,
) -> [u8; 32]
    requires low { from ≤ to }
    requires high { to ≤ 70 }
    ensures { result ≡ raised (to - from) from path.now below }
{
    let mut node = below;
    for k in (from..to).rev() {
        node = lone_part(&node, path.digit(k), beginnings);
    }
    node
}
