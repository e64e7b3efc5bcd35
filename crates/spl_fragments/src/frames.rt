//! The frames of a message.
ghost use Rattle.std.specs.{Prelude.{◌≡◌, ◌≢◌, ◌≤◌, ◌++◌, ◌∷◌, length, IsTrue, IfOk, OnOk}, List.flat_map};
ghost use Rattle.spl_frame.specs.Frames.{frame, frames_of};
ghost use Rattle.spl_wire.specs.Forms.{message_form};
ghost use Rattle.spl_fragments.specs.{Joining.joined_message, Parts.{message_bodies, parts}};

use crate::bodies::{LAST, LONGEST_PART, MORE};
use crate::fault::JoinFault;
use crate::joiner::Joiner;
use spl_base::{Piece, Writer};
use spl_frame::{LONGEST_BODY, put_header, split_frame, write_frame};
use spl_wire::Message;
use std::alloc::{AllocError, Global};

/// Appends the frame of a part of a message.
fn put_part(frames: &mut Writer, tag: u8, bytes: &[u8]) -> Result<(), AllocError>
    requires { length bytes.now ≤ LONGEST_PART }
    ensures { OnOk result (frames.new ≡ frames.old ++ frame (tag ∷ bytes.now)) }
{
    put_header(frames, bytes.len() + 1)?;
    frames.put_u8(tag)?;
    frames.put_raw(bytes)
}

/// How many bytes the frames of the parts of so many bytes have at most.
fn room(length: usize) -> usize {
    length.saturating_add(7 * (length / LONGEST_PART + 1))
}

/// The frames of the parts of a message with these bytes.
#[tactic(auto, using(crate::proofs::Framed::frames_go_on, crate::proofs::Framed::frames_end))]
fn parts_framed(alloc: Global, bytes: &[u8]) -> Result<Piece, AllocError>
    ensures { IfOk result (λ p. p ≡ flat_map frame (parts bytes.now)) }
{
    let mut frames = Writer::with_room(alloc, room(bytes.len()))?;
    let mut rest = bytes;
    while rest.len() > LONGEST_PART {
        let (next, after) = rest.split_at(LONGEST_PART);
        put_part(&mut frames, MORE, next)?;
        rest = after;
    }
    put_part(&mut frames, LAST, rest)?;
    Ok(frames.into_piece())
}

/// The frames of the bodies in which a message is sent, one after another. Fails only where memory runs out.
#[tactic(auto, using(crate::proofs::Framed::whole_framed, crate::proofs::Framed::parts_framed))]
pub fn write_frames(alloc: Global, message: &Message) -> Result<Piece, AllocError>
    requires few { IsTrue (message_form.bounded message.now) }
    ensures frames { IfOk result (λ p. p ≡ flat_map frame (message_bodies (message_form.spell message.now))) }
    ensures fits { OnOk result (IsTrue (message_form.fits message.now)) }
{
    let bytes = message.write(alloc)?;
    if bytes.bytes().len() > LONGEST_BODY {
        return parts_framed(alloc, bytes.bytes());
    }
    write_frame(alloc, bytes.bytes())
}

/// The message that the last of some frames is or ends, the body of each of which is taken by one joiner; None where
/// others would follow it, or no whole frame begins the bytes. The fault is the first one of `Joiner::take`.
pub fn read_frames(alloc: Global, bytes: &[u8]) -> Result<Option<Message>, JoinFault>
    ensures { (result ≢ Err JoinFault.NoMemory) → result ≡ joined_message (frames_of bytes.now) }
{
    let mut joiner = Joiner::new(alloc);
    let mut last = None;
    let mut rest = bytes;
    while let Some((body, after)) = split_frame(rest) {
        last = joiner.take(alloc, body)?;
        rest = after;
    }
    Ok(last)
}
