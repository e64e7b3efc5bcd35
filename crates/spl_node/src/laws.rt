//! The law of cells that records make.
ghost use Rattle.std.specs.Prelude.{ℕ, List};
ghost use Rattle.spl_circuit.specs.Nodes.{CircuitId, NodeId};
ghost use Rattle.spl_cell_rules.specs.{Valid.IsKept, Cells.site_at};
ghost use Rattle.spl_node.specs.Records.{AreBytes, recorded_cell};

use spl_cell_rules::{cells_stay_valid, records_are_formed};

/// The cell of a circuit that records of bytes make keeps what a cell keeps, whoever wrote them.
pub fn recorded_cells_are_kept()
    ensures { (here : NodeId) (c : CircuitId) (rs : List (List ℕ)) → AreBytes rs → IsKept (site_at here c) (recorded_cell here c rs) }
{
    cells_stay_valid();
    records_are_formed();
}
