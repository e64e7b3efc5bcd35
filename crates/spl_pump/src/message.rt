//! One message from one node to another.
ghost use Rattle.std.specs.Prelude.{◌≡◌, ◌≢◌, ℕ, List, Some, None, IsTrue, IfOk, IfErr, OnErr, OnOk, length};
ghost use Rattle.spl_edge.specs.Devices.{AreTaken};
ghost use Rattle.spl_wire.specs.{Bounds.IsSendable, Forms.message_form, declared.message.Message.Message as MessageValue};
ghost use Rattle.spl_pump.specs.{Moves.{Grows, GrowsAtMost, GrowsPart, LinkHasCause, IsLie}, Wires.{IsSentAs, IsSpelled, sent_as}};

use crate::exchange::{body_in, echo};
use crate::fault::PumpFault;
use spl_base::{Boxed, Malformed, Piece};
use spl_edge::Fabric;
use spl_fragments::{JoinFault, a_message_is_joined, bodies_are_sized, read_frames, write_frames};
use spl_frame::{LONGEST_BODY, frames_are_read_back};
use spl_wire::Message;
use std::alloc::{AllocError, Global};

/// As what a message is sent.
#[tactic(auto, unfolding(crate::specs::Wires::sent_as))]
fn frames_of_message(alloc: Global, message: &Message) -> Result<Piece, AllocError>
    requires { IsTrue (message_form.bounded message.now) }
    ensures sent { IfOk result (λ p. p ≡ sent_as message.now) }
    ensures fits { OnOk result (IsTrue (message_form.fits message.now)) }
{
    write_frames(alloc, message)
}

/// A message on the heap, if there is one.
fn boxed(alloc: Global, message: Option<Message>) -> Result<Option<Boxed<Message>>, AllocError>
    ensures { IfOk result (λ o. o ≡ message) }
{
    match message {
        Some(message) => Ok(Some(Boxed::new(alloc, message)?)),
        None => Ok(None),
    }
}

/// No message, where bodies can't be joined, or that memory ran out.
fn not_joined(fault: JoinFault) -> Result<Option<Boxed<Message>>, AllocError>
    ensures none { IfOk result (λ o. o ≡ None) }
    ensures known { OnOk result (fault ≢ JoinFault.NoMemory) }
{
    match fault {
        JoinFault::NoMemory => Err(AllocError),
        _ => Ok(None),
    }
}

/// The message that was sent in parts as these bytes.
fn message_in_parts(alloc: Global, frames: &[u8]) -> Result<Option<Boxed<Message>>, AllocError>
    ensures { IfOk result (λ o. (m : MessageValue) → IsSentAs m frames.now → o ≡ Some m) }
{
    frames_are_read_back();
    a_message_is_joined();
    bodies_are_sized();
    match read_frames(alloc, frames) {
        Ok(message) => boxed(alloc, message),
        Err(fault) => not_joined(fault),
    }
}

/// No message, where a body isn't one, or that memory ran out.
fn not_read(fault: Malformed) -> Result<Option<Boxed<Message>>, AllocError>
    ensures none { IfOk result (λ o. o ≡ None) }
    ensures known { OnOk result (fault ≢ Malformed.NoMemory) }
{
    match fault {
        Malformed::NoMemory => Err(AllocError),
        _ => Ok(None),
    }
}

/// The message that is spelled so.
fn message_of(alloc: Global, body: &[u8]) -> Result<Option<Boxed<Message>>, AllocError>
    ensures { IfOk result (λ o. (m : MessageValue) → IsSpelled m body.now → o ≡ Some m) }
{
    match Message::read(alloc, body) {
        Ok((message, _)) => Ok(Some(Boxed::new(alloc, message)?)),
        Err(fault) => not_read(fault),
    }
}

/// The message that was sent as these bytes: read at once where they are one frame.
fn message_in(alloc: Global, frames: &[u8]) -> Result<Option<Boxed<Message>>, AllocError>
    ensures { IfOk result (λ o. (m : MessageValue) → IsSentAs m frames.now → o ≡ Some m) }
{
    if frames.len() > LONGEST_BODY + 6 {
        return message_in_parts(alloc, frames);
    }
    match body_in(frames) {
        Some(body) => message_of(alloc, body),
        None => Ok(None),
    }
}

/// Carries a message in frames, and reads it from the bytes taken.
pub(crate) fn carry_message<F: Fabric>(
    alloc: Global,
    fabric: &mut F,
    from: u8,
    to: u8,
    message: &Message,
) -> Result<Boxed<Message>, PumpFault>
    requires sendable { IsSendable message.now }
    requires taken { AreTaken ((F.view fabric.old).put from to) ((F.view fabric.old).taken from to) }
    ensures same { IfOk result (λ m. m ≡ message.now) }
    ensures put { OnOk result (Grows from to (sent_as message.now) (F.view fabric.old).put (F.view fabric.new).put) }
    ensures taken { OnOk result (Grows from to (sent_as message.now) (F.view fabric.old).taken (F.view fabric.new).taken) }
    ensures all { OnOk result (AreTaken ((F.view fabric.new).put from to) ((F.view fabric.new).taken from to)) }
    ensures part { GrowsPart from to (sent_as message.now) (F.view fabric.old).put (F.view fabric.new).put }
    ensures came { OnErr result (GrowsAtMost from to (length (sent_as message.now)) (F.view fabric.old).taken (F.view fabric.new).taken) }
    ensures cause { LinkHasCause (F.view fabric.old).faults (F.view fabric.new).faults result }
    ensures lied { IfErr result (λ e. IsLie from to (sent_as message.now) (F.view fabric.old).put (F.view fabric.new).put
        (F.view fabric.old).taken (F.view fabric.new).taken e) }
{
    let sent = frames_of_message(alloc, message)?;
    let got = echo(alloc, fabric, from, to, sent)?;
    match message_in(alloc, got.bytes())? {
        Some(message) => Ok(message),
        None => unreachable!(),
    }
}
