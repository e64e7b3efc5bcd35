//! `check`: whether a proof is accepted.
use crate::ending::Ending;
use crate::text::joined;
use spl_check::{CheckFault, check_words};
use spl_cli::Status;
use spl_lint::cause_of;
use std::alloc::AllocError;
use std::io::Write;

// Writes a verdict, and says how the program ends after it.
fn say(rt: &HostRuntime, is_accepted: bool) -> Ending {
    let text = if is_accepted { "yes\n" } else { "no\n" };
    if rt.stdout().write_all(text.as_bytes()).is_err() {
        return Ending::As(Status::WriteFault);
    }
    if is_accepted {
        Ending::As(Status::Ok)
    } else {
        Ending::NotAccepted
    }
}

// Why the words aren't those of a check.
fn bad_word(rt: &HostRuntime, words: &[String]) -> Result<Ending, AllocError> {
    let mut line = Vec::from_slice(rt.alloc(), b"check ")?;
    line.extend_from_slice(joined(rt, words)?.as_slice())?;
    Ok(Ending::BadWord {
        wanted: cause_of(rt.alloc(), &[], line.as_slice())?.wanted,
    })
}

/// Checks the proof of four words: a root, an address, what is claimed of it, and the bytes of a proof.
pub(crate) fn check(rt: &HostRuntime, words: &[String]) -> Result<Ending, AllocError> {
    let [root, address, claim, proof] = words else {
        return Ok(Ending::CheckUsage);
    };
    match check_words(
        rt.alloc(),
        root.as_bytes(),
        address.as_bytes(),
        claim.as_bytes(),
        proof.as_bytes(),
    ) {
        Ok(is_accepted) => Ok(say(rt, is_accepted)),
        Err(CheckFault::BadWord) => bad_word(rt, words),
        Err(CheckFault::NotProof { at }) => Ok(Ending::NotProof { at }),
        Err(CheckFault::NoMemory) => Err(AllocError),
    }
}
