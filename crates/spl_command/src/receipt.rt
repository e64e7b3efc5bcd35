//! What executing a batch gives.
use spl_base::{Label, Listing, Piece};
use spl_state::Address;

/// A change of the state.
#[derive(Drop)]
pub enum StateChange {
    /// This value was written at the address.
    Set(Address, Piece),
    /// The value at the address was removed.
    Delete(Address),
}

/// An event that a transaction reported: its type and its data.
#[derive(Drop)]
pub struct StateEvent {
    pub kind: Label,
    pub data: Piece,
}

/// Changes of the state, in the order in which they were made.
pub type Changes = Listing<StateChange>;

/// Events, in the order in which they were reported.
pub type Events = Listing<StateEvent>;

/// Byte strings.
pub type Pieces = Listing<Piece>;

/// What a transaction did: its changes, its events and the data that it returned, each in the
/// order of its commands (docs/RULES.md, Batches).
#[derive(Drop)]
pub struct Receipt {
    pub changes: Changes,
    pub events: Events,
    pub returned: Pieces,
}

/// One receipt for each transaction of a batch, in their order.
pub type Receipts = Listing<Receipt>;

/// What a batch is on a state (docs/RULES.md, Batches).
#[derive(Drop)]
pub enum Verdict {
    Valid(Receipts),
    /// The batch changes nothing: this cause came in this transaction, numbered from 1.
    Invalid { transaction: u8, cause: u8 },
}
