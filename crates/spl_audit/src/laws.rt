//! The law of nodes that don't clash.
ghost use Rattle.std.specs.Prelude.{List};
ghost use Rattle.spl_circuit.specs.Nodes.{CircuitId};
ghost use Rattle.spl_audit.specs.{Clashes.{Keeper, NoClash}, Audited.{AreCellsKept, AreOne}};

/// Where no two of some nodes clash, of the histories of each circuit at these nodes each begins
/// the longest, the ids of its batches differ, and two definitions of one generation that share a
/// member don't both have acts.
pub fn audited_nodes_agree()
    ensures { (ns : List Keeper) (c : CircuitId) → AreCellsKept ns → NoClash ns → AreOne ns c }
{}
