//! What is wrong with a handshake.
use spl_base::NodeId;

/// Why a peer isn't heard.
#[derive(Clone, Copy, Drop, PartialEq, Eq)]
pub enum LinkFault {
    /// The body isn't exactly the greeting that is due.
    NotHello,
    /// The registry doesn't know this node.
    Unknown { identity: NodeId },
    /// It is another node than the peer.
    WrongName { expected: NodeId, found: NodeId },
}
