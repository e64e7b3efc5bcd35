//! Which messages of peers a cell may hear.
ghost use Rattle.std.specs.{Prelude.{◌≡◌, IsTrue, true, false}, Str.bytes_eq};
ghost use Rattle.spl_cell_rules.specs.{Changes.may_serve, Valid.{carries, is_legal}};
ghost use Rattle.spl_serve.specs.Hearing.{is_heard, may_hear};
ghost use Rattle.spl_wire.specs.{Forms.message_form, Messages.circuit_of};

use spl_agree::CommitMsg;
use spl_base::{CircuitId, NodeId};
use spl_command::Batch;
use spl_wire::Message;

/// The circuit that a message is about.
pub(crate) fn circuit_of(message: &Message) -> CircuitId
    ensures { result ≡ circuit_of message.now }
{
    match message {
        Message::Admin { circuit, .. } => *circuit,
        Message::Scabbard { circuit, .. } => *circuit,
    }
}

// Whether a batch in a message breaks no rule.
fn carries_good(body: &CommitMsg<Batch>) -> bool
    ensures { result ≡ carries may_serve body.now }
{
    match body {
        CommitMsg::VoteRequest { value, .. } => value.fault().is_none(),
        CommitMsg::Forward { value, .. } => value.fault().is_none(),
        CommitMsg::Refused { value, .. } => value.fault().is_none(),
        _ => true,
    }
}

// Whether a cell may hear a message that was read.
fn may_hear(message: &Message) -> bool
    ensures { result ≡ may_hear message.now }
{
    match message {
        Message::Admin { .. } => true,
        Message::Scabbard { body, .. } => carries_good(body),
    }
}

/// Whether a message that was read from a peer may come to a cell of this node. One that may not is dropped.
pub(crate) fn is_heard(here: &NodeId, from: &NodeId, message: &Message) -> bool
    requires { IsTrue (message_form.fits message.now) }
    ensures heard { result ≡ is_heard here.now from.now message.now }
    ensures apart { result ≡ true → bytes_eq from.now here.now ≡ false }
    ensures legal { result ≡ true → is_legal message.now ≡ true }
{
    from != here && may_hear(message)
}
