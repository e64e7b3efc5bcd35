//! What a node answers to an event.

use spl_agree::{Generation, Note, Place, Reason};
use spl_base::{BatchId, BatchIds, Boxed, CircuitId, Listing, NodeId, Piece};
use spl_circuit::{CheckedDefinition, Lifecycle, Mark, Members, RouteFault};
use spl_command::Receipts;
use spl_state::Address;

/// Why an event is refused. A refused event changes nothing and sends nothing (docs/RULES.md,
/// Cells).
#[derive(Clone, Copy, PartialEq, Eq)]
pub enum Refusal {
    /// The node is down.
    Down,
    /// The cell is empty or purged.
    NoCircuit,
    /// The definition breaks the rule of this number, and none before it.
    BadDefinition(u8),
    /// The proposing node isn't a member.
    NotMember,
    /// The cell is bound or purged with this generation, and the proposed one isn't above it.
    StaleGeneration { bound: Generation },
    /// The cell is bound.
    CircuitHeld,
    /// An act of this node is pending here or its next one is known here, or no further one may be.
    ActPending,
    /// The circuit is neither proposed nor disbanding.
    NoProposal,
    /// This node has accepted what is asked for.
    AlreadyVoted,
    /// This node isn't the one that asked for it.
    NotRequester,
    /// The circuit doesn't run; where it shall be disbanded: it isn't active.
    NotActive,
    /// The node takes no further part.
    Closed,
    /// The batch breaks the rule of this number, and none before it.
    BadBatch(u8),
    /// The id of the batch is known here with other content.
    IdTaken,
    /// The id isn't known here, and 64 batches are pending here.
    QueueFull,
    /// The node takes part, and its part isn't over.
    NotPurgeable,
    /// Fewer messages were sent.
    NoMessage,
    /// A message between these services isn't delivered.
    NotRouted(RouteFault),
    /// No batch of the id is known here; of a receipt: none is committed here.
    UnknownId,
    /// The circuit's version is 1, in which it can't be disbanded.
    VersionTooLow,
    /// The bytes are no proof: the first field that can't be read begins at this byte, or the proof
    /// ends there and bytes follow it.
    NotProof { at: usize },
}

impl Refusal {
    /// There is no way between services of a circuit that isn't bound.
    pub const NO_WAY: Refusal = Refusal::NotRouted(RouteFault::CircuitDoesNotExist);
}

/// Where a batch stands at a node.
#[derive(Clone, Copy, PartialEq, Eq)]
pub enum BatchStatus {
    /// It is at this place of the agreed list.
    Committed(Place),
    Pending,
    /// It was refused, for this reason.
    Refused(Reason),
}

/// An entry of a state.
#[derive(Drop)]
pub struct Entry {
    pub address: Address,
    pub value: Piece,
}

/// Entries of a state, in the order of their addresses.
pub type Entries = Listing<Entry>;

/// What became of the record of an event in which its node stopped.
#[derive(Clone, Copy, PartialEq, Eq)]
pub enum Bit {
    /// The disks have it.
    Kept,
    /// They don't.
    Lost,
    /// The event changed nothing, so it had none.
    Nothing,
}

/// The answer to a line (docs/RULES.md, Answers).
#[derive(Drop)]
pub enum Answer {
    /// The value is pending, or it was known here already, with equal content.
    Submitted {
        known: bool,
    },
    /// The circuit was abandoned, or purged.
    Left {
        purged: bool,
    },
    /// What a bound cell keeps: the numbers are those of acts and batches that are committed and
    /// pending here.
    Show {
        generation: Generation,
        lifecycle: Lifecycle,
        mark: Mark,
        accepted: Members,
        acts: u32,
        acts_pending: u32,
        batches: u32,
        batches_pending: u32,
    },
    /// The definition that a cell is bound to with its hash, and where the circuit stands here.
    Detail {
        definition: CheckedDefinition,
        hash: Boxed<[u8; 32]>,
        lifecycle: Lifecycle,
        mark: Mark,
        accepted: Members,
        requester: Boxed<Option<NodeId>>,
    },
    /// How many batches are committed here, and the root of the state that they left.
    Root {
        count: u32,
        root: [u8; 32],
    },
    /// The root of the state that the committed batches left, and the byte form of a proof, under
    /// it, of what that state has at an address.
    Proof {
        root: Boxed<[u8; 32]>,
        bytes: Piece,
    },
    /// Whether a proof is accepted with what is claimed.
    Checked {
        accepted: bool,
    },
    /// The ids of the batches that are committed here, in their order.
    History(BatchIds),
    /// The value at an address, if there is one.
    Value(Option<Piece>),
    /// The entries under a prefix.
    Listed(Entries),
    /// Where a batch stands.
    Status(BatchStatus),
    /// What a committed batch left, and its place in the agreed list.
    Receipt {
        batch: BatchId,
        place: Place,
        receipts: Receipts,
    },
    /// A message between these services would be delivered.
    Routed,
    /// What the two groups did.
    Notes {
        admin: Note,
        service: Note,
    },
    /// What a message did.
    Delivered(Note),
    /// So many passes were made.
    Calm {
        passes: u8,
    },
    /// The node is up, or down.
    Power {
        up: bool,
    },
    /// The circuits that are bound at a node, in the order of their ids.
    Roll(Listing<CircuitId>),
    /// The node stopped in the event, after some calls on its disks.
    Cut(Bit),
    /// A call on its disks failed in the event, and the node stopped.
    Fault(Bit),
    /// Nothing happened.
    Refused(Refusal),
}
