//! What a line of a watcher is answered.
use crate::delta::Deltas;
use spl_agree::Place;

/// The answer to a line of a watcher.
#[derive(Drop)]
pub enum WatchAnswer {
    /// The watcher begins at this place.
    Watching(Place),
    Taken(Deltas),
    /// The node is down.
    Down,
    /// The node isn't bound to the circuit.
    NoCircuit,
    /// The circuit doesn't run at the node.
    NotActive,
    /// The circuit has a watcher of this name.
    NameTaken,
    /// The node has fewer batches than the place says.
    BadPlace { committed: Place },
    /// The circuit has no watcher of this name.
    NoWatcher,
    /// The node is bound to another definition than the watcher's.
    WrongCircuit,
    /// The circuit has as many watchers as it may have.
    TooManyWatchers,
}
