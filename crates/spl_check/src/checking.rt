//! What words say of a proof.
ghost use Rattle.std.specs.Prelude.{◌≡◌, IfOk, Some, option_copied};
ghost use Rattle.spl_check.specs.Verdicts.{ComesToVerdict, judged, line_of_words, verdict, verdict_of};

use spl_base::Malformed;
use spl_proof::{Proof, check};
use spl_sched::{Line, LineFault, ProofCheck, read_line};
use std::alloc::{AllocError, Global};

/// Why words don't say whether a proof is accepted.
#[derive(Clone, Copy, PartialEq, Eq)]
pub enum CheckFault {
    /// A word isn't one of a check.
    BadWord,
    /// The bytes that the last word spells aren't a proof, from this place on.
    NotProof { at: usize },
    /// Memory ran out.
    NoMemory,
}

// The line of a schedule that has these words.
fn spelled(
    alloc: Global,
    root: &[u8],
    address: &[u8],
    claim: &[u8],
    proof: &[u8],
) -> Result<Vec<u8>, AllocError>
    ensures { IfOk result (λ v. v.items ≡ line_of_words root.now address.now claim.now proof.now) }
{
    let mut line = Vec::new(alloc);
    line.extend_from_slice(b"check ")?;
    line.extend_from_slice(root)?;
    line.extend_from_slice(b" ")?;
    line.extend_from_slice(address)?;
    line.extend_from_slice(b" ")?;
    line.extend_from_slice(claim)?;
    line.extend_from_slice(b" ")?;
    line.extend_from_slice(proof)?;
    Ok(line)
}

// The claimed value, if one is claimed.
fn claim_of(asked: &ProofCheck) -> Option<&[u8]>
    ensures { option_copied result ≡ asked.now.claim }
{
    match &asked.claim {
        Some(value) => Some(value.bytes()),
        None => None,
    }
}

// Whether a proof is accepted that is read of the bytes.
fn judge(alloc: Global, asked: &ProofCheck) -> Result<bool, CheckFault>
    ensures { ComesToVerdict result (verdict_of asked.now) }
{
    match Proof::read(alloc, asked.bytes.bytes()) {
        Ok(proof) => Ok(check(&asked.root, &asked.address, claim_of(asked), &proof)),
        Err(Malformed::At { at }) => Err(CheckFault::NotProof { at }),
        Err(Malformed::NoMemory) => Err(CheckFault::NoMemory),
    }
}

// What a line says of a proof.
fn judge_line(alloc: Global, said: &Line) -> Result<bool, CheckFault>
    ensures { ComesToVerdict result (verdict (Some said.now)) }
{
    match said {
        Line::Check(asked) => judge(alloc, asked.get()),
        _ => Err(CheckFault::BadWord),
    }
}

/// Whether a proof shows, under a root, that an address has a value or that it has none: the four words are those of a
/// schedule's line `check` behind its name. `BadWord` comes exactly where they are none, and `NotProof` exactly where the bytes
/// are no proof, at the first place that can't be read.
pub fn check_words(
    alloc: Global,
    root: &[u8],
    address: &[u8],
    claim: &[u8],
    proof: &[u8],
) -> Result<bool, CheckFault>
    ensures { ComesToVerdict result (judged root.now address.now claim.now proof.now) }
{
    let Ok(line) = spelled(alloc, root, address, claim, proof) else {
        return Err(CheckFault::NoMemory);
    };
    match &read_line(alloc, &line) {
        Ok(said) => judge_line(alloc, said),
        Err(LineFault::BadLine) => Err(CheckFault::BadWord),
        Err(LineFault::NoMemory) => Err(CheckFault::NoMemory),
    }
}
