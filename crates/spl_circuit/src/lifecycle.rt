//! Where a circuit stands.

/// Where the committed acts have brought a circuit.
#[derive(Clone, Copy, Debug, PartialEq, Eq)]
pub enum Lifecycle {
    /// Nothing was proposed.
    None,
    /// Proposed, and not each member has accepted.
    Proposed,
    /// Each member has accepted.
    Active,
    /// A member of the active circuit has asked to disband it, and not each member has accepted that.
    Disbanding,
    /// Each member has accepted to disband it: nothing more is admitted.
    Disbanded,
    /// A member turned it down: nothing more is admitted.
    Rejected,
    /// Its requester took it back: nothing more is admitted.
    Removed,
}

/// What a node itself has done with a circuit.
#[derive(Clone, Copy, PartialEq, Eq)]
pub enum Mark {
    Open,
    /// The node takes no further part.
    Abandoned,
    /// The node forgot the circuit, all but its generation.
    Purged,
}

/// Why a message between services was not delivered.
#[derive(Clone, Copy, Debug, PartialEq, Eq)]
pub enum RouteFault {
    /// No circuit of the id stands here.
    CircuitDoesNotExist,
    /// The sender is no service of the circuit.
    SenderNotInRoster,
    /// The recipient is no service of the circuit.
    RecipientNotInRoster,
    /// The sender does not stand on the node that the message came from.
    SenderNotOnNode,
    /// The recipient does not stand on this node.
    RecipientNotHere,
}
