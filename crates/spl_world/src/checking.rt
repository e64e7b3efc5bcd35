//! Checking a proof, for which no node is needed.
ghost use Rattle.std.specs.Prelude.{◌≡◌, IfOk, option_copied};
ghost use Rattle.spl_circuit_world.specs.Answers.{check_answer};

use spl_base::Malformed;
use spl_proof::{Proof, check};
use spl_sched::ProofCheck;
use spl_wire::{Answer, Refusal};
use std::alloc::{AllocError, Global};

/// The value that is claimed, if one is.
fn claim_of(line: &ProofCheck) -> Option<&[u8]>
    ensures { option_copied result ≡ line.now.claim }
{
    match &line.claim {
        Some(value) => Some(value.bytes()),
        None => None,
    }
}

/// What a check is answered. It hashes what the proof has, and nothing else.
pub(crate) fn checked(alloc: Global, line: &ProofCheck) -> Result<Answer, AllocError>
    ensures { IfOk result (λ a. a ≡ check_answer line.now) }
{
    match Proof::read(alloc, line.bytes.bytes()) {
        Ok(proof) => Ok(Answer::Checked {
            accepted: check(&line.root, &line.address, claim_of(line), &proof),
        }),
        Err(Malformed::At { at }) => Ok(Answer::Refused(Refusal::NotProof { at })),
        Err(Malformed::NoMemory) => Err(AllocError),
    }
}
