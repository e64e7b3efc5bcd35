//! Checking a proof by a root alone.
ghost use Rattle.std.specs.Prelude.{◌≡◌, ◌≤◌, ◌↔◌, IsTrue, Some, None, option_copied, length};
ghost use Rattle.spl_state.specs.Root.{digits_of};
ghost use Rattle.spl_proof.specs.{Accepted.{IsAccepted, accepts, Leads, Says, level_digest, end_digest}, declared.proof.TheConstants.MOST_LEVELS};

use crate::proof::{End, Level, Proof};
use sha2::{Digest, Sha256};
use spl_state::Address;

/// The digest of a level.
pub(crate) fn level_digest(level: &Level) -> [u8; 32]
    ensures { result ≡ level_digest level.now }
{
    let mut hasher = Sha256::new();
    hasher.update(&[1u8]);
    for digest in level {
        hasher.update(digest);
    }
    hasher.finalize()
}

/// The digest of an end.
pub(crate) fn end_digest(end: &End) -> [u8; 32]
    ensures { result ≡ end_digest end.now }
{
    match end {
        End::Empty => [0; 32],
        End::Leaf(address, value) => {
            let mut hasher = Sha256::new();
            hasher.update(&[0u8]);
            hasher.update(&address.0);
            hasher.update(value.bytes());
            hasher.finalize()
        }
    }
}

/// Whether two digests are equal.
fn same_digest(a: &[u8; 32], b: &[u8; 32]) -> bool
    ensures { IsTrue result ↔ (a.now ≡ b.now) }
{
    a == b
}

/// Whether levels lead from a digest, along an address's digits, down to an end.
fn leads(root: &[u8; 32], a: &Address, levels: &[Level], end: &End) -> bool
    requires { length levels.now ≤ MOST_LEVELS }
    ensures { IsTrue result ↔ Leads root.now 0 a.now levels.now end.now }
{
    let mut digest = *root;
    for i in 0..levels.len() {
        if !same_digest(&level_digest(&levels[i]), &digest) {
            return false;
        }
        digest = levels[i][a.digit(i) as usize];
    }
    same_digest(&end_digest(end), &digest)
}

/// Whether two addresses have the same first digits, so many of them.
fn same_first(a: &Address, b: &Address, digits: usize) -> bool
    requires { digits ≤ 70 }
    ensures { IsTrue result ↔ (digits_of digits 0 b.now.0 ≡ digits_of digits 0 a.now.0) }
{
    for k in 0..digits {
        if a.digit(k) != b.digit(k) {
            return false;
        }
    }
    true
}

/// Whether two addresses are the same.
fn same_address(a: &Address, b: &Address) -> bool
    ensures { IsTrue result ↔ (a.now ≡ b.now) }
{
    a == b
}

/// Whether two byte strings are equal.
fn same_bytes(a: &[u8], b: &[u8]) -> bool
    ensures { IsTrue result ↔ (a.now ≡ b.now) }
{
    a == b
}

/// Whether an end below so many levels says that an address has a value.
fn says_value(value: &[u8], a: &Address, end: &End) -> bool
    ensures { IsTrue result ↔ Says (Some value.now) 0 a.now end.now }
{
    match end {
        End::Empty => false,
        End::Leaf(at, found) => same_address(at, a) && same_bytes(found.bytes(), value),
    }
}

/// Whether an end below so many levels says that an address has no value.
fn says_none(levels: usize, a: &Address, end: &End) -> bool
    requires { levels ≤ 70 }
    ensures { IsTrue result ↔ Says None levels a.now end.now }
{
    match end {
        End::Empty => true,
        End::Leaf(at, _) => !same_address(at, a) && same_first(a, at, levels),
    }
}

/// Whether an end below so many levels says what is claimed of an address.
fn says(claim: Option<&[u8]>, levels: usize, a: &Address, end: &End) -> bool
    requires { levels ≤ 70 }
    ensures { IsTrue result ↔ Says (option_copied claim.entry) levels a.now end.now }
{
    match claim {
        Some(value) => says_value(value, a, end),
        None => says_none(levels, a, end),
    }
}

/// Whether a proof is accepted.
fn is_accepted(root: &[u8; 32], a: &Address, claim: Option<&[u8]>, proof: &Proof) -> bool
    ensures { IsTrue result ↔ IsAccepted root.now a.now (option_copied claim.entry) proof.now }
{
    let levels = proof.levels.as_slice();
    says(claim, levels.len(), a, &proof.end) && leads(root, a, levels, &proof.end)
}

/// Whether a proof shows, under a root, that an address has the claimed value, or that it has none.
pub fn check(root: &[u8; 32], a: &Address, claim: Option<&[u8]>, proof: &Proof) -> bool
    ensures accepted { IsTrue result ↔ IsAccepted root.now a.now (option_copied claim.entry) proof.now }
    ensures test { result ≡ accepts root.now a.now (option_copied claim.entry) proof.now }
{
    is_accepted(root, a, claim, proof)
}
