//! The bodies of a message.
ghost use Rattle.std.specs.{Prelude.{◌≡◌, ◌∷◌, IsTrue, IfOk, OnOk}, List.All};
ghost use Rattle.spl_wire.specs.Forms.{message_form};
ghost use Rattle.spl_fragments.specs.Parts.{IsSized, message_bodies, parts};

use spl_base::{Listing, Piece, Writer};
use spl_frame::LONGEST_BODY;
use spl_wire::Message;
use std::alloc::{AllocError, Global};

/// The bodies of a message, in order.
pub type Bodies = Listing<Piece>;

/// How many bytes of a message a part has at most.
pub(crate) const LONGEST_PART: usize = LONGEST_BODY - 1;

/// The tag of a part that others follow.
pub(crate) const MORE: u8 = 5;

/// The tag of the last part.
pub(crate) const LAST: u8 = 6;

/// A part of a message.
fn part(alloc: Global, tag: u8, bytes: &[u8]) -> Result<Piece, AllocError>
    ensures { IfOk result (λ p. p ≡ tag ∷ bytes.now) }
{
    let mut w = Writer::with_room(alloc, bytes.len() + 1)?;
    w.put_u8(tag)?;
    w.put_raw(bytes)?;
    Ok(w.into_piece())
}

/// The parts of a message with these bytes.
#[tactic(auto, using(crate::proofs::Cuts::cut_goes_on, crate::proofs::Cuts::cut_ends))]
fn parts(alloc: Global, bytes: &[u8]) -> Result<Bodies, AllocError>
    ensures { IfOk result (λ ps. ps ≡ parts bytes.now) }
{
    let mut parts = Listing::new(alloc);
    let mut rest = bytes;
    while rest.len() > LONGEST_PART {
        let (next, after) = rest.split_at(LONGEST_PART);
        parts.push(part(alloc, MORE, next)?)?;
        rest = after;
    }
    parts.push(part(alloc, LAST, rest)?)?;
    Ok(parts)
}

/// The bodies of a message with these bytes.
fn bodies(alloc: Global, bytes: Piece) -> Result<Bodies, AllocError>
    ensures { IfOk result (λ bs. bs ≡ message_bodies bytes) }
{
    if bytes.bytes().len() > LONGEST_BODY {
        return parts(alloc, bytes.bytes());
    }
    let mut bodies = Listing::new(alloc);
    bodies.push(bytes)?;
    Ok(bodies)
}

/// The bodies in which a message is sent: one, which is its byte form, where that has at most `LONGEST_BODY` bytes, and
/// otherwise parts. Each has at least one byte, and at most `LONGEST_BODY`. Fails only where memory runs out.
#[tactic(auto, using(crate::proofs::Cuts::bodies_sized, crate::proofs::Cuts::some_bytes))]
pub fn split(alloc: Global, message: &Message) -> Result<Bodies, AllocError>
    requires few { IsTrue (message_form.bounded message.now) }
    ensures bodies { IfOk result (λ bs. bs ≡ message_bodies (message_form.spell message.now)) }
    ensures fits { OnOk result (IsTrue (message_form.fits message.now)) }
    ensures sized { IfOk result (λ bs. All IsSized bs) }
{
    let bytes = message.write(alloc)?;
    bodies(alloc, bytes)
}
