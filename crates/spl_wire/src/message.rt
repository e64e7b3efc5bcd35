//! Messages between nodes.

use crate::body::{put_body, take_body};
use spl_agree::CommitMsg;
use spl_base::{
    CircuitId, Field, Malformed, Piece, Reader, ServiceId, Writer, read_prefix, spelled,
};
use spl_circuit::Act;
use spl_command::Batch;
use std::alloc::{AllocError, Global};

/// How many bytes the byte form of a message has at most that is sent.
pub const LONGEST_MESSAGE: usize = 65_536;

/// A message from one node to another.
#[derive(Drop)]
pub enum Message {
    /// A message of the admin group of a circuit.
    Admin {
        circuit: CircuitId,
        body: CommitMsg<Act>,
    },
    /// A message of the service group of a circuit, from one service to another.
    Scabbard {
        circuit: CircuitId,
        from: ServiceId,
        to: ServiceId,
        body: CommitMsg<Batch>,
    },
}

impl Field for Message {
    ghost use Rattle.spl_wire.specs.Forms.{message_form, exact_message};

    ghost form = { message_form };

    fn put_parts(&self, w: &mut Writer) -> Result<(), AllocError> {
        match self {
            Message::Admin { circuit, body } => {
                1u8.put_parts(w)?;
                circuit.put_parts(w)?;
                put_body(body, w)
            }
            Message::Scabbard {
                circuit,
                from,
                to,
                body,
            } => {
                2u8.put_parts(w)?;
                circuit.put_parts(w)?;
                from.put_parts(w)?;
                to.put_parts(w)?;
                put_body(body, w)
            }
        }
    }

    fn take_parts(alloc: Global, r: &mut Reader) -> Result<Message, Malformed> {
        let at = r.place();
        match u8::take_parts(alloc, r)? {
            1 => {
                let circuit = CircuitId::take_parts(alloc, r)?;
                let body = take_body(alloc, r)?;
                Ok(Message::Admin { circuit, body })
            }
            2 => {
                let circuit = CircuitId::take_parts(alloc, r)?;
                let from = ServiceId::take_parts(alloc, r)?;
                let to = ServiceId::take_parts(alloc, r)?;
                let body = take_body(alloc, r)?;
                Ok(Message::Scabbard {
                    circuit,
                    from,
                    to,
                    body,
                })
            }
            _ => Err(Malformed::At { at }),
        }
    }

    ghost exact = { exact_message };
}

impl Message {
    ghost use Rattle.std.specs.Prelude.{◌≡◌, ◌++◌, IsTrue, IfOk, OnOk, drop};
    ghost use Rattle.spl_base.specs.Prefix.{prefix_of, Answers, ReadsBack};
    ghost use Rattle.spl_wire.specs.Forms.{message_form};

    /// The byte form, which a message has where a definition in it has at most 16 members and at
    /// most 16 services, and a batch in it has lists of at most 1,024 items and byte strings of at
    /// most 8,192 bytes. Fails only where memory runs out.
    pub fn write(&self, alloc: Global) -> Result<Piece, AllocError>
        requires few { IsTrue (message_form.bounded self.now) }
        ensures spelled { IfOk result (λ p. p ≡ message_form.spell self.now) }
        ensures fits { OnOk result (IsTrue (message_form.fits self.now)) }
    {
        spelled(alloc, self)
    }

    /// The message at the beginning, and how many bytes it takes. The fault is the place of the first
    /// field that cannot be read, or that memory ran out.
    pub fn read(alloc: Global, bytes: &[u8]) -> Result<(Message, usize), Malformed>
        ensures exact { Answers result (prefix_of message_form bytes.now) }
        ensures found { IfOk result (λ x. (bytes.now ≡ message_form.spell x.0 ++ drop x.1 bytes.now) × IsTrue (message_form.fits x.0)) }
        ensures bounded { IfOk result (λ x. IsTrue (message_form.bounded x.0)) }
        ensures only { ReadsBack message_form bytes.now result }
    {
        read_prefix(alloc, bytes)
    }
}
