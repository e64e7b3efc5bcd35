//! Bodies joined to messages.
ghost use Rattle.std.specs.Prelude.{◌≡◌, ◌≢◌, ◌≤◌, ◌++◌, length};
ghost use Rattle.spl_fragments.specs.Joining.{joining_after, after_by, join_answer, content, empty_joining, is_bad, is_lane, is_open_part, judged_body};
ghost use Rattle.spl_fragments.specs.Joining.{lasting, message_of};

use crate::bodies::{LAST, LONGEST_PART, MORE};
use crate::fault::JoinFault;
use spl_frame::LONGEST_BODY;
use spl_wire::{LONGEST_MESSAGE, Message};
use std::alloc::Global;
use std::marker::Model;

/// The message that the bytes are exactly.
#[tactic(auto, unfolding(crate::specs::Joining::message_of))]
fn message_of(alloc: Global, bytes: &[u8]) -> Result<Message, JoinFault>
    ensures { (result ≢ Err JoinFault.NoMemory) → result ≡ message_of bytes.now }
{
    let (message, end) = Message::read(alloc, bytes)?;
    if end != bytes.len() {
        return Err(JoinFault::Malformed { at: end });
    }
    Ok(message)
}

/// The bytes of a message in a body.
fn content(body: &[u8]) -> &[u8]
    ensures { result.now ≡ content body.now }
{
    match body.split_first() {
        Some((&MORE | &LAST, bytes)) => bytes,
        _ => body,
    }
}

/// Whether a body is a part that others follow.
fn is_open(body: &[u8]) -> bool
    ensures { result ≡ is_open_part body.now }
{
    body.first() == Some(&MORE)
}

/// Whether a byte is the first one of a message: its lane.
fn is_lane(tag: u8) -> bool
    ensures { result ≡ is_lane tag }
{
    tag == 1 || tag == 2
}

/// Whether a body is neither a message nor a part, or doesn't come where it may, after parts with so many bytes of a
/// message.
fn is_bad(held: usize, body: &[u8]) -> bool
    requires { held ≤ LONGEST_MESSAGE }
    ensures { result ≡ is_bad held body.now }
{
    let Some((&tag, bytes)) = body.split_first() else {
        return true;
    };
    match tag {
        MORE => bytes.len() != LONGEST_PART,
        LAST => held == 0 || bytes.is_empty() || held + bytes.len() <= LONGEST_BODY,
        _ => !is_lane(tag) || held != 0,
    }
}

/// The message of the bytes held and these. Those that are held stay as they are.
fn finished(alloc: Global, held: &mut Vec<u8>, bytes: &[u8]) -> Result<Message, JoinFault>
    ensures answer { (result ≢ Err JoinFault.NoMemory) → result ≡ message_of (held.old.items ++ bytes.now) }
    ensures held { held.new.items ≡ held.old.items }
{
    let count = held.len();
    if count == 0 {
        return message_of(alloc, bytes);
    }
    held.extend_from_slice(bytes)?;
    let found = message_of(alloc, held.as_slice());
    held.truncate(count);
    found
}

/// What a body is answered after parts with the bytes held, which those in it join if others follow. After a message
/// none are held.
fn hear(alloc: Global, held: &mut Vec<u8>, body: &[u8]) -> Result<Option<Message>, JoinFault>
    requires few { length held.old.items ≤ LONGEST_MESSAGE }
    requires short { length body.now ≤ LONGEST_BODY }
    ensures answer { (result ≢ Err JoinFault.NoMemory) → result ≡ judged_body held.old.items body.now }
    ensures held { (result ≢ Err JoinFault.NoMemory) → held.new.items ≡ (after_by held.old.items (content body.now) result).held }
    ensures memory { result ≡ Err JoinFault.NoMemory → held.new.items ≡ held.old.items }
    ensures few { length held.new.items ≤ LONGEST_MESSAGE }
{
    if is_bad(held.len(), body) {
        return Err(JoinFault::BadPart);
    }
    let bytes = content(body);
    let length = held.len() + bytes.len();
    if length > LONGEST_MESSAGE {
        return Err(JoinFault::TooLong { length });
    }
    if is_open(body) {
        held.extend_from_slice(bytes)?;
        return Ok(None);
    }
    let message = finished(alloc, held, bytes)?;
    held.clear();
    Ok(Some(message))
}

/// The fault that is answered again.
fn lasting(found: &Result<Option<Message>, JoinFault>) -> Option<JoinFault>
    ensures { result ≡ lasting found.now }
{
    match found {
        Ok(_) => None,
        Err(JoinFault::NoMemory) => None,
        Err(fault) => Some(*fault),
    }
}

/// Joins bodies to messages.
#[derive(Drop)]
pub struct Joiner {
    /// The bytes of the message whose parts came.
    held: Vec<u8>,
    fault: Option<JoinFault>,
}

impl Model for Joiner {
    ghost use Rattle.spl_fragments.specs.Joining.{IsJoinerHeld, Joining};

    ghost Value = { Joining };

    ghost view = { λ j. record { held = j.held.items; fault = j.fault } };

    ghost invariant = { λ j. IsJoinerHeld j.held.items j.fault };
}

impl Joiner {
    /// A joiner to which no part came.
    pub fn new(alloc: Global) -> Joiner
        ensures { result ≡ empty_joining }
    {
        Joiner {
            held: Vec::new(alloc),
            fault: None,
        }
    }

    /// Takes the next body: gives the message that it is or ends, and None after a part that others follow. A fault is
    /// answered again by each later call; where memory runs out the joiner is as it was.
    ///
    /// `BadPart` comes where the body is empty, begins with no tag of a message or part, is a part that others follow
    /// without `LONGEST_BODY` bytes, is a last part with no bytes of a message, with no part before it or with at most
    /// `LONGEST_BODY` of them in all, or is a message among parts; `TooLong` where the parts have more than
    /// `LONGEST_MESSAGE`; and `Malformed` where the bytes aren't exactly one message. They are tried in this order.
    pub fn take(&mut self, alloc: Global, body: &[u8]) -> Result<Option<Message>, JoinFault>
        requires { length body.now ≤ LONGEST_BODY }
        ensures answer { (result ≢ Err JoinFault.NoMemory) → result ≡ join_answer self.old body.now }
        ensures next { (result ≢ Err JoinFault.NoMemory) → self.new ≡ joining_after self.old body.now }
        ensures memory { result ≡ Err JoinFault.NoMemory → self.new ≡ self.old }
    {
        if let Some(fault) = self.fault {
            return Err(fault);
        }
        let found = hear(alloc, &mut self.held, body);
        self.fault = lasting(&found);
        found
    }
}
