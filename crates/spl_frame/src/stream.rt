//! Whole streams.
ghost use Rattle.std.specs.{Prelude.{◌≡◌, ◌++◌, [], List, ℕ, OnOk, IfOk}, List.flat_map};
ghost use Rattle.spl_frame.specs.{Frames.{frames_of, fault_of}, Heard.Heard};

use crate::fault::FrameFault;
use crate::framer::Framer;
use spl_base::{Listing, Piece};
use std::alloc::{AllocError, Global};

/// Feeds a piece. A fault is kept by the framer.
#[tactic(auto, using(crate::proofs::Hearing::heard_more))]
fn hear(framer: &mut Framer, piece: &[u8]) -> Result<(), AllocError>
    ensures { OnOk result ((heard : List ℕ) (frames : List (List ℕ)) → Heard heard frames framer.old → Heard (heard ++ piece.now) frames framer.new) }
{
    let Err(fault) = framer.feed(piece) else {
        return Ok(());
    };
    match fault {
        FrameFault::NoMemory => Err(AllocError),
        _ => Ok(()),
    }
}

/// Takes all frames that are whole.
fn hand_out(
    alloc: Global,
    framer: &mut Framer,
    frames: &mut Listing<Piece>,
) -> Result<(), AllocError>
    ensures heard { OnOk result ((heard : List ℕ) → Heard heard frames.old framer.old → Heard heard frames.new framer.new) }
    ensures none { OnOk result (frames_of framer.new ≡ []) }
{
    while let Some(body) = framer.next(alloc)? {
        frames.push(body)?;
    }
    Ok(())
}

/// The frames of a stream that comes in these pieces, and the fault of the first header that has
/// one. It doesn't matter how the stream was cut into pieces.
pub fn frames_in(
    alloc: Global,
    pieces: &[Piece],
) -> Result<(Listing<Piece>, Option<FrameFault>), AllocError>
    ensures frames { IfOk result (λ r. r.0 ≡ frames_of (flat_map (λ p. p) pieces.now)) }
    ensures fault { IfOk result (λ r. r.1 ≡ fault_of (flat_map (λ p. p) pieces.now)) }
{
    let mut framer = Framer::new(alloc);
    let mut frames = Listing::new(alloc);
    for piece in pieces {
        hear(&mut framer, piece.bytes())?;
        hand_out(alloc, &mut framer, &mut frames)?;
    }
    Ok((frames, framer.fault()))
}
