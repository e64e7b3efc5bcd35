//! A circuit at a node.
ghost use Rattle.spl_cell_rules.specs.Valid.{IsNamed};
ghost use Rattle.spl_cell.specs.Sites.{site_of};

use spl_base::{CircuitId, NodeId};

/// A circuit at a node.
#[derive(Clone, Copy)]
pub(crate) struct Site {
    pub here: NodeId,
    pub circuit: CircuitId,
}

impl Site {
    /// The ids are within their grammars.
    #[tactic(auto, using(spl_cell_rules::proofs::Named::named_by))]
    pub fn is_named(&self)
        ensures { IsNamed (site_of self.now) }
    {
        let _ = self.here.bytes();
        let _ = self.circuit.bytes();
    }
}
