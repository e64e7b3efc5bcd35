//! Bytes from one node to another, that are taken as they were put.
ghost use Rattle.std.specs.Prelude.{◌≡◌, ◌≢◌, ◌<◌, ℕ, List, length, Some, IfSome, IfNone, IfOk, IfErr, OnErr, OnOk};
ghost use Rattle.spl_edge.specs.Devices.{AreTaken};
ghost use Rattle.spl_frame.specs.Frames.{frame, IsBody};
ghost use Rattle.spl_pump.specs.Moves.{Grows, GrowsAtMost, GrowsPart, LinkHasCause, IsLie};

use crate::fault::PumpFault;
use crate::transfer::transfer;
use spl_base::{Boxed, Piece, Value};
use spl_edge::Fabric;
use spl_frame::write_frame;
use std::alloc::{AllocError, Global};

/// The body in a frame.
pub(crate) fn body_in(bytes: &[u8]) -> Option<&[u8]>
    ensures some { IfSome result (λ b. (body : List ℕ) → bytes.now ≡ frame body → b.now ≡ body) }
    ensures none { IfNone result ((body : List ℕ) → bytes.now ≢ frame body) }
{
    bytes.get(6..)
}

/// A copy of the body of a frame.
fn unframe(alloc: Global, bytes: Piece) -> Result<Option<Piece>, AllocError>
    ensures { IfOk result (λ o. (body : List ℕ) → IsBody body → bytes ≡ frame body → o ≡ Some body) }
{
    match body_in(bytes.bytes()) {
        Some(body) => Ok(Some(Piece::from(alloc, body)?)),
        None => Ok(None),
    }
}

/// Puts bytes, and takes as many, which are the same.
pub(crate) fn echo<F: Fabric>(
    alloc: Global,
    fabric: &mut F,
    from: u8,
    to: u8,
    sent: Piece,
) -> Result<Piece, PumpFault>
    requires taken { AreTaken ((F.view fabric.old).put from to) ((F.view fabric.old).taken from to) }
    ensures same { IfOk result (λ got. got ≡ sent) }
    ensures put { OnOk result (Grows from to sent (F.view fabric.old).put (F.view fabric.new).put) }
    ensures taken { OnOk result (Grows from to sent (F.view fabric.old).taken (F.view fabric.new).taken) }
    ensures all { OnOk result (AreTaken ((F.view fabric.new).put from to) ((F.view fabric.new).taken from to)) }
    ensures part { GrowsPart from to sent (F.view fabric.old).put (F.view fabric.new).put }
    ensures came { OnErr result (GrowsAtMost from to (length sent) (F.view fabric.old).taken (F.view fabric.new).taken) }
    ensures cause { LinkHasCause (F.view fabric.old).faults (F.view fabric.new).faults result }
    ensures lied { IfErr result (λ e. IsLie from to sent (F.view fabric.old).put (F.view fabric.new).put (F.view fabric.old).taken
        (F.view fabric.new).taken e) }
{
    let got = transfer(alloc, fabric, from, to, sent.bytes())?;
    let got = Piece::from_vec(got);
    if !got.same(&sent) {
        let sent = Boxed::new(alloc, sent)?;
        let got = Boxed::new(alloc, got)?;
        return Err(PumpFault::Lied { sent, got });
    }
    Ok(got)
}

/// Carries a body as a frame. What comes out is read from the bytes taken.
pub(crate) fn exchange<F: Fabric>(
    alloc: Global,
    fabric: &mut F,
    from: u8,
    to: u8,
    body: &[u8],
) -> Result<Piece, PumpFault>
    requires short { IsBody body.now }
    requires taken { AreTaken ((F.view fabric.old).put from to) ((F.view fabric.old).taken from to) }
    ensures same { IfOk result (λ got. got ≡ body.now) }
    ensures put { OnOk result (Grows from to (frame body.now) (F.view fabric.old).put (F.view fabric.new).put) }
    ensures taken { OnOk result (Grows from to (frame body.now) (F.view fabric.old).taken (F.view fabric.new).taken) }
    ensures all { OnOk result (AreTaken ((F.view fabric.new).put from to) ((F.view fabric.new).taken from to)) }
    ensures part { GrowsPart from to (frame body.now) (F.view fabric.old).put (F.view fabric.new).put }
    ensures came { OnErr result (GrowsAtMost from to (length (frame body.now)) (F.view fabric.old).taken (F.view fabric.new).taken) }
    ensures cause { LinkHasCause (F.view fabric.old).faults (F.view fabric.new).faults result }
    ensures lied { IfErr result (λ e. IsLie from to (frame body.now) (F.view fabric.old).put (F.view fabric.new).put (F.view fabric.old).taken
        (F.view fabric.new).taken e) }
{
    let sent = write_frame(alloc, body)?;
    let got = echo(alloc, fabric, from, to, sent)?;
    match unframe(alloc, got)? {
        Some(body) => Ok(body),
        None => unreachable!(),
    }
}
