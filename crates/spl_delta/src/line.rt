//! The lines of watchers.
ghost use Rattle.std.specs.Prelude.{◌≡◌};
ghost use Rattle.spl_delta.specs.Watches.{watch_circuit, watch_node};

use spl_agree::Place;
use spl_base::{CircuitId, Label, NodeId};

/// A line of a watcher: of which circuit, asked at which node.
#[derive(Clone, Copy)]
pub enum WatchLine {
    /// Makes a watcher of this name, which begins at a place.
    Watch {
        node: NodeId,
        circuit: CircuitId,
        name: Label,
        place: Place,
    },
    /// Takes so many deltas at most.
    Pull {
        node: NodeId,
        circuit: CircuitId,
        name: Label,
        count: u32,
    },
}

impl WatchLine {
    /// The node at which it asks.
    pub fn node(&self) -> NodeId
        ensures { result ≡ watch_node self.now }
    {
        match self {
            WatchLine::Watch { node, .. } | WatchLine::Pull { node, .. } => *node,
        }
    }

    /// The circuit of its watcher.
    pub fn circuit(&self) -> CircuitId
        ensures { result ≡ watch_circuit self.now }
    {
        match self {
            WatchLine::Watch { circuit, .. } | WatchLine::Pull { circuit, .. } => *circuit,
        }
    }
}
