//! The members of a circuit, and their positions.
ghost use Rattle.std.specs.Prelude.{◌≡◌, ◌≤◌, length};
ghost use Rattle.spl_circuit.specs.Nodes.{position, node_or};

use crate::definition::Definition;
use spl_base::NodeId;

/// The position of a node among at most 255 nodes; 255 of one that is none of them.
#[tactic(auto, using(crate::proofs::Places::position_facts))]
fn position(members: &[NodeId], node: &NodeId) -> u8
    requires { length members.now ≤ 255 }
    ensures { result ≡ position members.now node.now }
{
    for i in 0..members.len() {
        if members[i] == *node {
            return i as u8;
        }
    }
    255
}

/// The node at a position, or this one where there is none.
#[tactic(auto, using(crate::proofs::Places::node_facts))]
fn node_or(members: &[NodeId], back: &NodeId, position: u8) -> NodeId
    ensures { result ≡ node_or members.now back.now position }
{
    match members.get(position as usize) {
        Some(member) => *member,
        None => *back,
    }
}

impl Definition {
    /// The position of a node among the members; 255 of one that is none of them.
    pub fn position(&self, node: &NodeId) -> u8
        requires few { length self.now.members ≤ 255 }
        ensures { result ≡ position self.now.members node.now }
    {
        position(self.members.as_slice(), node)
    }

    /// The member at a position, or this node where there is none.
    pub fn member_or(&self, back: &NodeId, position: u8) -> NodeId
        ensures { result ≡ node_or self.now.members back.now position }
    {
        node_or(self.members.as_slice(), back, position)
    }
}
