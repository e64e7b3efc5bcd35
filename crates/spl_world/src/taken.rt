//! How many messages of a sender aren't taken in a calm.
ghost use Rattle.std.specs.{Prelude.{◌≡◌, ◌+◌, ◌<◌, ◌≤◌, List, length, IfOk}, List.sum};
ghost use Rattle.spl_circuit.specs.Nodes.{NodeId as Id};
ghost use Rattle.spl_circuit_world.specs.Worlds.{World as CircuitWorld};
ghost use Rattle.spl_world.specs.{Calms.{AreRows, IsSquare, sender_counts, sent_count}, Views.{HoldsWorld, IsNodeAt, world_node_ids, nodes_over}};
ghost use Rattle.spl_node.specs.Benches.{Images};

use crate::world::World;
use spl_base::CircuitId;
use std::alloc::{AllocError, Global};

// How many more than these together a total is; 0 where it is no more.
pub(crate) fn left_of(total: usize, row: &[usize]) -> usize
    ensures { total ≤ result + sum row.now }
{
    let mut left = total;
    for count in row {
        if left == 0 {
            return 0;
        }
        left = left.saturating_sub(*count);
    }
    left
}

impl World {
    // How many messages about a circuit a node sent.
    pub(crate) fn total(&self, circuit: &CircuitId, from: usize) -> usize
        requires below { from < length self.now.slots.items }
        ensures { (is : List Images) (m : CircuitWorld) (a : Id) → HoldsWorld circuit.now m (nodes_over self.now is) → IsNodeAt self.now from a
            → sum (sender_counts (sent_count m) a (world_node_ids self.now)) ≤ result }
    {
        self.slot_at(from).total(circuit)
    }

    // How many messages about a circuit a node sent to each node.
    fn row(&self, alloc: Global, circuit: &CircuitId, from: usize) -> Result<Vec<usize>, AllocError>
        requires below { from < length self.now.slots.items }
        ensures wide { IfOk result (λ r. length r.items ≡ length self.now.slots.items) }
        ensures counts { (is : List Images) (m : CircuitWorld) (a : Id) → HoldsWorld circuit.now m (nodes_over self.now is) → IsNodeAt self.now from a
            → IfOk result (λ r. r.items ≡ sender_counts (sent_count m) a (world_node_ids self.now)) }
    {
        let mut row = Vec::with_capacity(alloc, self.len())?;
        let Some(outbox) = self.slot_at(from).outbox(circuit) else {
            row.resize(self.len(), 0)?;
            return Ok(row);
        };
        for to in 0..self.len() {
            row.push(self.count_in(outbox, from, to))?;
        }
        Ok(row)
    }

    // The same for all nodes.
    pub(crate) fn rows(
        &self,
        alloc: Global,
        circuit: &CircuitId,
    ) -> Result<Vec<Vec<usize>>, AllocError>
        ensures square { IfOk result (λ rs. IsSquare (length self.now.slots.items) rs.items) }
        ensures counts { (is : List Images) (m : CircuitWorld) → HoldsWorld circuit.now m (nodes_over self.now is)
            → IfOk result (λ rs. AreRows (sent_count m) (world_node_ids self.now) rs.items) }
    {
        let mut rows = Vec::new(alloc);
        for from in 0..self.len() {
            rows.push(self.row(alloc, circuit, from)?)?;
        }
        Ok(rows)
    }
}
