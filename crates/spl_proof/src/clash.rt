//! What two proofs under one root show that say unlike things: two byte strings with one digest, or
//! one whose digest is zeros.
ghost use Rattle.std.specs.{Prelude.{◌≡◌, ◌≢◌, ◌≤◌, ◌∷◌, ◌++◌, [], true, false, IfOk, OnOk, IsTrue, length, option_copied}, Map.lookup, BTreeMap.is_at};
ghost use Rattle.spl_state.specs.{Entries.address_cmp, Root.node_at};
ghost use Rattle.spl_proof.specs.{Accepted.{IsAccepted, Leads, level_bytes, level_digest, end_digest}, Clashes.IsClash, Forms.level};
ghost use Rattle.spl_proof.specs.declared.proof.End.TheVariants.{Leaf};

use crate::codec::put_level;
use crate::make::prove;
use crate::proof::{End, Level, Proof};
use spl_base::{Piece, Writer};
use spl_state::{Address, State};
use std::alloc::{AllocError, Global};

/// Byte strings whose digests are as nobody is known to have found any.
#[derive(Drop)]
pub enum Clash {
    /// Two that differ, with one digest.
    Two(Piece, Piece),
    /// One whose digest is 32 zero bytes.
    Zero(Piece),
}

/// The bytes that are hashed for a level.
fn level_bytes(alloc: Global, x: &Level) -> Result<Piece, AllocError>
    ensures bytes { IfOk result (λ p. p ≡ level_bytes x.now) }
    ensures fits { OnOk result (IsTrue (level.fits x.now)) }
{
    let mut w = Writer::with_room(alloc, 513)?;
    w.put_u8(1)?;
    put_level(x, &mut w)?;
    Ok(w.into_piece())
}

/// The bytes that are hashed for an entry.
fn leaf_bytes(alloc: Global, address: &Address, value: &[u8]) -> Result<Piece, AllocError>
    ensures bytes { IfOk result (λ p. p ≡ 0 ∷ address.now.0 ++ value.now) }
    ensures long { OnOk result (length address.now.0 ≡ 35) }
{
    let mut w = Writer::with_room(alloc, 36)?;
    w.put_u8(0)?;
    w.put_raw(&address.0)?;
    w.put_raw(value)?;
    Ok(w.into_piece())
}

/// A level and an end that have one digest.
fn clash_of_kinds(alloc: Global, level: &Level, end: &End) -> Result<Clash, AllocError>
    requires { level_digest level.now ≡ end_digest end.now }
    ensures { IfOk result (λ c. IsClash c) }
{
    let above = level_bytes(alloc, level)?;
    match end {
        End::Empty => Ok(Clash::Zero(above)),
        End::Leaf(address, value) => Ok(Clash::Two(
            above,
            leaf_bytes(alloc, address, value.bytes())?,
        )),
    }
}

/// Two ends that have one digest.
fn clash_of_ends(alloc: Global, x: &End, y: &End) -> Result<Clash, AllocError>
    requires differ { x.now ≢ y.now }
    requires alike { end_digest x.now ≡ end_digest y.now }
    ensures { IfOk result (λ c. IsClash c) }
{
    match (x, y) {
        (End::Leaf(a, v), End::Leaf(b, w)) => Ok(Clash::Two(
            leaf_bytes(alloc, a, v.bytes())?,
            leaf_bytes(alloc, b, w.bytes())?,
        )),
        (End::Leaf(a, v), End::Empty) => Ok(Clash::Zero(leaf_bytes(alloc, a, v.bytes())?)),
        (End::Empty, End::Leaf(b, w)) => Ok(Clash::Zero(leaf_bytes(alloc, b, w.bytes())?)),
        // Both are empty, so they don't differ.
        (End::Empty, End::Empty) => Ok(Clash::Zero(Piece::from(alloc, &[])?)),
    }
}

/// Whether two byte strings are equal.
fn same_bytes(a: &[u8], b: &[u8]) -> bool
    ensures same { result ≡ true → a.now ≡ b.now }
    ensures other { result ≡ false → a.now ≢ b.now }
{
    a == b
}

/// Two proofs that lead from one root along one address's digits.
fn clash_of_proofs(
    alloc: Global,
    root: &[u8; 32],
    a: &Address,
    x: &Proof,
    y: &Proof,
) -> Result<Clash, AllocError>
    requires differ { x.now ≢ y.now }
    requires first { Leads root.now 0 a.now x.now.levels x.now.end }
    requires second { Leads root.now 0 a.now y.now.levels y.now.end }
    ensures { IfOk result (λ c. IsClash c) }
{
    let ones = x.levels.as_slice();
    let others = y.levels.as_slice();
    let both = ones.len().min(others.len());
    for i in 0..both {
        let one = level_bytes(alloc, &ones[i])?;
        let other = level_bytes(alloc, &others[i])?;
        if !same_bytes(one.bytes(), other.bytes()) {
            return Ok(Clash::Two(one, other));
        }
    }
    if both < ones.len() {
        return clash_of_kinds(alloc, &ones[both], &y.end);
    }
    if both < others.len() {
        return clash_of_kinds(alloc, &others[both], &x.end);
    }
    clash_of_ends(alloc, &x.end, &y.end)
}

/// What a proof gives away that is accepted under the root of a state with a claim that isn't what
/// the state has. The only error is that memory ran out.
pub fn extract(
    alloc: Global,
    state: &State,
    a: &Address,
    _claim: Option<&[u8]>,
    proof: &Proof,
) -> Result<Clash, AllocError>
    requires accepted { IsAccepted (node_at 70 [] state.now) a.now (option_copied _claim) proof.now }
    requires other { option_copied _claim ≢ lookup (is_at (address_cmp a.now)) state.now }
    ensures { IfOk result (λ c. IsClash c) }
{
    let honest = prove(alloc, state, a)?;
    clash_of_proofs(alloc, &state.root(), a, &honest, proof)
}
