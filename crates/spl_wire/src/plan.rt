//! What an event gives at a cell.

use crate::answer::Answer;
use crate::message::Message;
use crate::record::ChangeList;
use spl_agree::OpenMove;
use spl_base::{Boxed, Listing, NodeId};

/// A message to a node.
#[derive(Drop)]
pub struct Outgoing {
    pub to: NodeId,
    pub message: Boxed<Message>,
}

/// Messages in the order in which they are sent.
pub type SendList = Listing<Outgoing>;

/// What an event gives at a cell: an answer, durable changes, a move of the open round of each
/// group, and messages (docs/RULES.md, Cells).
#[derive(Drop)]
pub struct Plan {
    pub answer: Answer,
    pub changes: ChangeList,
    pub admin: OpenMove,
    pub service: OpenMove,
    pub sends: SendList,
}
