//! What happens at the cell of a circuit at one node.

use crate::message::Message;
use spl_base::{BatchId, Boxed, NodeId, ServiceId};
use spl_circuit::CheckedDefinition;
use spl_command::Batch;
use spl_state::{Address, Prefix};

/// An event at a cell (docs/RULES.md, Cells).
#[derive(Drop)]
pub enum Event {
    /// The node proposes the circuit with this definition, whose id is that of the cell.
    Propose(CheckedDefinition),
    /// The node accepts or rejects what is asked for: the circuit, or its disband.
    Vote {
        accept: bool,
    },
    /// The node takes back what it asked for.
    Remove,
    /// The node asks the members to disband the circuit.
    Disband,
    /// The node takes no further part.
    Abandon,
    /// The node forgets the circuit, all but its generation.
    Purge,
    /// The node submits a batch.
    Submit(Boxed<Batch>),
    /// The cell is asked for what it keeps.
    Show,
    /// The cell is asked for its definition and where it stands.
    Detail,
    /// The cell is asked for the root of the circuit's state.
    Root,
    /// The cell is asked for the ids of the committed batches.
    History,
    /// The cell is asked for the value at an address.
    Get(Address),
    /// The cell is asked for a proof of what the state has at an address.
    Prove(Address),
    /// The cell is asked for the entries under a prefix.
    List(Prefix),
    /// The cell is asked where a batch stands.
    Status(BatchId),
    /// The cell is asked what a committed batch left.
    Receipt(BatchId),
    /// The cell is asked whether a message from a service on another node to a service here would
    /// be delivered.
    Route {
        from: NodeId,
        from_service: ServiceId,
        to_service: ServiceId,
    },
    /// The groups of the cell are asked to go on.
    Tick,
    /// The groups of the cell are asked to give up their open rounds.
    Expire,
    /// A message about the circuit comes from another node.
    Deliver {
        from: NodeId,
        message: Boxed<Message>,
    },
}
