//! The key of an act.
use spl_base::NodeId;

/// What names an act: its node, and the turn of the node (docs/RULES.md, Acts).
#[derive(Clone, Copy, PartialEq, Eq, Hash)]
pub struct ActKey {
    pub node: NodeId,
    pub turn: u32,
}
