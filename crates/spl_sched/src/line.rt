//! What a line of a schedule says.
ghost use Rattle.std.specs.Prelude.{◌≡◌};

use crate::known::{event_known, is_known};
use spl_base::{Boxed, CircuitId, NodeId, Piece};
use spl_edge::Fill;
use spl_state::Address;
use spl_wire::Event;

/// How many passes a calm has at most.
pub const MOST_PASSES: u8 = 64;

/// A step of a schedule.
#[derive(Drop)]
pub enum Step {
    /// The event comes at the node's cell of this circuit. It is no delivery, and a definition that
    /// is proposed has the circuit's id.
    At {
        node: NodeId,
        circuit: CircuitId,
        event: Event,
    },
    /// The message of this number, from 1, of those that the one node sent to the other in the
    /// circuit comes there.
    Deliver {
        from: NodeId,
        to: NodeId,
        circuit: CircuitId,
        number: u32,
    },
}

/// A proof that is checked under a root: whether it shows that an address has the claimed value, or
/// that it has none where none is claimed. The bytes may be any, but there is at least one.
#[derive(Drop)]
pub struct ProofCheck {
    pub root: [u8; 32],
    pub address: Address,
    pub claim: Option<Piece>,
    pub bytes: Piece,
}

/// A line of a schedule (docs/RULES.md, Schedules).
#[derive(Drop)]
pub enum Line {
    Step(Step),
    /// The circuit goes on by itself for so many passes.
    Calm { circuit: CircuitId, passes: u8 },
    /// The node goes down.
    Stop(NodeId),
    /// The node comes up.
    Start(NodeId),
    /// The node is asked for its bound cells.
    Roll(NodeId),
    /// A proof is checked; no node is asked.
    Check(Boxed<ProofCheck>),
    /// The node of the step goes down in it, after so many calls on its disks, which keep this of
    /// what wasn't synced. The step is no prove.
    Cut { calls: u8, fill: Fill, step: Step },
    /// In the step, which is no prove, the call of this number, from 1, on the disks of its node
    /// fails.
    Fail { call: u8, step: Step },
}

impl Step {
    ghost use Rattle.std.specs.List.{list_all};
    ghost use Rattle.spl_circuit.specs.Nodes.{has_node};
    ghost use Rattle.spl_sched.specs.Grammar.{step_nodes, step_circuit, step_node, is_inner_step};

    /// The circuit that the step names.
    pub fn circuit(&self) -> CircuitId
        ensures { result ≡ step_circuit self.now }
    {
        match self {
            Step::At { circuit, .. } => *circuit,
            Step::Deliver { circuit, .. } => *circuit,
        }
    }

    /// The node that the step takes place at.
    pub fn node(&self) -> NodeId
        ensures { result ≡ step_node self.now }
    {
        match self {
            Step::At { node, .. } => *node,
            Step::Deliver { to, .. } => *to,
        }
    }

    /// The step may stand in a cut or a fail: any but a prove.
    pub fn is_inner(&self) -> bool
        ensures { result ≡ is_inner_step self.now }
    {
        !matches!(
            self,
            Step::At {
                event: Event::Prove(_),
                ..
            }
        )
    }

    fn names_only(&self, known: &[NodeId]) -> bool
        ensures { result ≡ list_all (has_node known.now) (step_nodes self.now) }
    {
        match self {
            Step::At { node, event, .. } => is_known(known, node) && event_known(known, event),
            Step::Deliver { from, to, .. } => is_known(known, from) && is_known(known, to),
        }
    }
}

impl Line {
    ghost use Rattle.std.specs.List.{list_all};
    ghost use Rattle.spl_circuit.specs.Nodes.{has_node};
    ghost use Rattle.spl_sched.specs.Grammar.{line_nodes, line_circuit};

    /// Each node that the line names is one of these: where it takes place, members, the nodes of
    /// services, and where a message comes from.
    pub fn names_only(&self, known: &[NodeId]) -> bool
        ensures { result ≡ list_all (has_node known.now) (line_nodes self.now) }
    {
        match self {
            Line::Step(step) => step.names_only(known),
            Line::Calm { .. } => true,
            Line::Stop(node) => is_known(known, node),
            Line::Start(node) => is_known(known, node),
            Line::Roll(node) => is_known(known, node),
            Line::Check(_) => true,
            Line::Cut { step, .. } => step.names_only(known),
            Line::Fail { step, .. } => step.names_only(known),
        }
    }

    /// The circuit that the line names. None of a line about a node alone: stop, start and roll;
    /// nor of a check.
    pub fn circuit(&self) -> Option<CircuitId>
        ensures { result ≡ line_circuit self.now }
    {
        match self {
            Line::Step(step) => Some(step.circuit()),
            Line::Calm { circuit, .. } => Some(*circuit),
            Line::Stop(_) => None,
            Line::Start(_) => None,
            Line::Roll(_) => None,
            Line::Check(_) => None,
            Line::Cut { step, .. } => Some(step.circuit()),
            Line::Fail { step, .. } => Some(step.circuit()),
        }
    }
}
