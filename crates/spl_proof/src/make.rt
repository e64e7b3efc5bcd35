//! Making the proof of what a state has at an address.
ghost use Rattle.std.specs.{Prelude.{◌≡◌, ◌≤◌, ◌<◌, ◌∷◌, [], ℕ, slice_index, MatchOption, IfOk}, Map.lookup, BTreeMap.is_at};
ghost use Rattle.spl_state.specs.{Entries.address_cmp, Root.{digit_of, node_at}};
ghost use Rattle.spl_proof.specs.{Accepted.IsAccepted, Made.{listed, level_at, end_of, proof}};

use crate::proof::{End, Level, Levels, Proof};
use spl_base::Piece;
use spl_state::{Address, State};
use std::alloc::{AllocError, Global};

/// The level at the digit `i` of an address.
fn level_at(state: &State, a: &Address, i: u8) -> Level
    requires { i < 70 }
    ensures { result ≡ level_at i a.now state.now }
{
    let mut level = [[0; 32]; 16];
    for d in 0..16u8 {
        level[d as usize] = state.digest_at(&a.with_digit(i as usize, d), i + 1);
    }
    level
}

/// The levels above the digit `digits` of an address.
fn levels_above(alloc: Global, state: &State, a: &Address, digits: u8) -> Result<Levels, AllocError>
    requires { digits ≤ 70 }
    ensures { IfOk result (λ l. l ≡ listed (λ i. level_at i a.now state.now) digits) }
{
    let mut levels = Levels::new(alloc);
    for i in 0..digits {
        levels.push(level_at(state, a, i))?;
    }
    Ok(levels)
}

/// The end with an entry, or with none.
fn end_with(alloc: Global, entry: Option<(Address, &[u8])>) -> Result<End, AllocError>
    ensures { IfOk result (λ end. MatchOption entry.entry (end ≡ end_of []) (λ e. end ≡ end_of ((e.0, e.1.now) ∷ []))) }
{
    match entry {
        Some((address, value)) => Ok(End::Leaf(address, Piece::from(alloc, value)?)),
        None => Ok(End::Empty),
    }
}

/// Bytes are below 256.
fn bytes_are_small(bytes: &[u8])
    ensures { (i : ℕ) → slice_index bytes.now i < 256 }
{}

/// Each digit of an address is below sixteen.
fn digits_are_small(a: &Address)
    ensures { (j : ℕ) → digit_of a.now.0 j < 16 }
{
    bytes_are_small(&a.0);
}

/// The proof of the value that a state has at an address, or that it has none there. An error comes
/// only when memory runs out.
pub fn prove(alloc: Global, state: &State, a: &Address) -> Result<Proof, AllocError>
    ensures made { IfOk result (λ p. p ≡ proof state.now a.now) }
    ensures accepted { IfOk result (λ p. IsAccepted (node_at 70 [] state.now) a.now (lookup (is_at (address_cmp a.now)) state.now) p) }
{
    digits_are_small(a);
    let (digits, entry) = state.foot(a);
    let levels = levels_above(alloc, state, a, digits)?;
    let end = end_with(alloc, entry)?;
    Ok(Proof { levels, end })
}
