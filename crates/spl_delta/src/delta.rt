//! What a committed batch changed.
use spl_agree::Place;
use spl_base::{BatchId, Listing};
use spl_command::Changes;

/// A committed batch, its place in the history, from 0, and what it changed in the state: the changes of all its receipts, in
/// order.
#[derive(Drop)]
pub struct Delta {
    pub place: Place,
    pub batch: BatchId,
    pub changes: Changes,
}

/// Deltas, in the order of their places.
pub type Deltas = Listing<Delta>;
