//! What comes to a node process and what leaves it.
ghost use Rattle.std.specs.Prelude.{◌≡◌, Option, IfOk, OnErr};
ghost use Rattle.spl_serve.specs.{Outside.asks_to_stop, declared.outside.Arrival.Arrival as ArrivalValue};

use crate::tally::Tally;
use spl_base::{Boxed, CircuitId, NodeId, Piece};
use spl_wire::Message;

/// One thing that came.
#[derive(Drop)]
pub enum Arrival {
    /// A line of an operator, without its line feed, and the number of the connection that waits for its answer.
    Line {
        caller: usize,
        line: Piece,
    },
    /// A message that frames of a peer spelled.
    Message {
        from: NodeId,
        message: Boxed<Message>,
    },
    /// The line of an operator that asks the process to stop, and the number of the connection that waits for its answer.
    Stop {
        caller: usize,
    },
    /// The time has come for a tick at a circuit.
    Tick {
        circuit: CircuitId,
    },
}

impl Arrival {
    /// Whether it asks the process to stop.
    pub(crate) fn asks_to_stop(&self) -> bool
        ensures { result ≡ asks_to_stop self.now }
    {
        matches!(self, Arrival::Stop { .. })
    }
}

/// One thing that leaves.
#[derive(Drop)]
pub enum Departure {
    /// The text of an answer, with its line feed, and the number of the connection that waits for it.
    Answer { caller: usize, text: Piece },
    /// The frames of a message to a peer.
    Frames { to: NodeId, frames: Piece },
}

/// Why nothing comes and leaves any more.
#[derive(Clone, Copy, PartialEq, Eq)]
pub enum PortFault {
    Failed,
    NoMemory,
}

/// The outside of a node process but for its disks: operators, peers and a clock.
pub trait Ports {
    ghost use Rattle.spl_serve.specs.Outside.{PortsView, IsReadable, after_arrival, after_departure};

    /// What came and left so far, where the object reports.
    ghost view: { Self → Option PortsView };

    /// Waits until something comes, at most so many milliseconds; says what time it is then, in milliseconds. What the node did
    /// so far may be asked for meanwhile.
    fn wait(&mut self, most: u64, tally: &Tally) -> Result<u64, PortFault>
        ensures { view self.new ≡ view self.old };

    /// The next thing that came, which is no tick; None where nothing more is there now.
    fn next(&mut self) -> Result<Option<Arrival>, PortFault>
        ensures readable { IfOk result IsReadable }
        ensures came { IfOk result (λ a. view self.new ≡ after_arrival a (view self.old)) }
        ensures none { OnErr result (view self.new ≡ view self.old) };

    /// Hands over what leaves. A peer may be away, or read too little: then it is dropped.
    fn put(&mut self, departure: &Departure) -> Result<(), PortFault>
        ensures { view self.new ≡ after_departure departure.now (view self.old) };
}
