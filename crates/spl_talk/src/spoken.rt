//! What is said on a connection.
use spl_base::{Boxed, NodeId, Piece};
use spl_wire::Message;

/// What the peer said.
#[derive(Drop)]
pub enum Spoken {
    /// Who it is, and the frame by which this node has to name itself in turn, if it hasn't done so.
    Name {
        peer: NodeId,
        hello: Option<Piece>,
    },
    /// A message.
    Message {
        from: NodeId,
        message: Boxed<Message>,
    },
    /// A part of a message, which others follow.
    Part,
}
