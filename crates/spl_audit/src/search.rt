//! The least clash of some nodes.
ghost use Rattle.std.specs.{Prelude.{◌≡◌, length, slice_get, Some, IfOk}, List.list_any, Str.bytes_eq};
ghost use Rattle.spl_circuit.specs.Nodes.{CircuitId as Circuit};
ghost use Rattle.spl_cell_rules.specs.Cells.{is_bound};
ghost use Rattle.spl_node.specs.Kept.{cell_at};
ghost use Rattle.spl_audit.specs.{Clashes.{IsBoundClash, IsLeast}, Keepers.{keeper_of, keepers}, Searching.{IsClashIn, IsClashOf, IsPairClash}};

use crate::cells::clash_of_cells;
use crate::clash::{Clash, lesser};
use spl_base::CircuitId;
use spl_node::Keeper;
use std::alloc::{AllocError, Global};

/// The least clash of two nodes in a circuit, if there is one.
fn clash_in(
    circuit: &CircuitId,
    first: usize,
    second: usize,
    one: &Keeper,
    other: &Keeper,
) -> Option<Clash>
    ensures { IsLeast (IsClashIn circuit.now first second (keeper_of one.now) (keeper_of other.now)) result }
{
    let Some(ours) = one.held(circuit) else {
        return None;
    };
    let Some(theirs) = other.held(circuit) else {
        return None;
    };
    clash_of_cells(*circuit, first, second, ours, theirs)
}

/// The least clash of two nodes in one of these circuits, if there is one.
fn clash_of_pair(
    circuits: &[CircuitId],
    first: usize,
    second: usize,
    one: &Keeper,
    other: &Keeper,
) -> Option<Clash>
    ensures { IsLeast (IsPairClash circuits.now first second (keeper_of one.now) (keeper_of other.now)) result }
{
    let mut least = None;
    'circuits: for circuit in circuits {
        least = lesser(least, clash_in(circuit, first, second, one, other));
    }
    least
}

/// The least clash of a node with one after it, if there is one. The node stands at this position,
/// and is bound to these circuits.
fn clash_of(nodes: &[Keeper], first: usize, one: &Keeper, circuits: &[CircuitId]) -> Option<Clash>
    requires there { slice_get nodes.now first ≡ Some one.now }
    requires bound { (c : Circuit) → list_any (bytes_eq c) circuits.now ≡ is_bound (cell_at one.now.entries c) }
    ensures { IsLeast (IsClashOf (keepers nodes.now) first (length nodes.now)) result }
{
    let mut least = None;
    'others: for second in first + 1..nodes.len() {
        let here = clash_of_pair(circuits, first, second, one, &nodes[second]);
        least = lesser(least, here);
    }
    least
}

/// The least clash of some nodes, if there is one. The only error is that memory ran out.
pub(crate) fn least_clash(alloc: Global, nodes: &[Keeper]) -> Result<Option<Clash>, AllocError>
    ensures { IfOk result (λ r. IsLeast (IsBoundClash (keepers nodes.now)) r) }
{
    let mut least = None;
    'nodes: for first in 0..nodes.len() {
        let one = &nodes[first];
        let circuits = one.roll(alloc)?;
        let here = clash_of(nodes, first, one, circuits.as_slice());
        least = lesser(least, here);
    }
    Ok(least)
}
