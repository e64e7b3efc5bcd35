//! Whom an end of a connection knows.
use crate::fault::TalkFault;
use spl_base::NodeId;

/// Whom an end of a connection knows.
#[derive(Clone, Copy, Drop)]
pub enum Side {
    /// It has named itself, and expects this peer to name itself.
    Expects(NodeId),
    /// It waits for whoever names itself.
    Listens,
    /// The peer is this node.
    Knows(NodeId),
    /// It has answered this fault, and hears nothing more.
    Failed(TalkFault),
}
