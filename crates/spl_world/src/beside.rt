//! What runs beside the world, and reads it.
ghost use Rattle.std.specs.{Prelude.{◌≡◌, ◌+◌, ◌<◌, ◌≤◌, ℕ, List, true, false, OnOk, OnErr, IsErrOf, IfErr}, Option.option_copied};
ghost use Rattle.spl_circuit.specs.Nodes.{has_node};
ghost use Rattle.spl_circuit_world.specs.{Answers.events_of, Projection.Ran, Worlds.{Origin, World as CircuitWorld}};
ghost use Rattle.spl_node.specs.{Kept.state_or_empty, Benches.Images};
ghost use Rattle.spl_world.specs.{Counts.{Counts, is_of_limit}, Views.{HoldsWorld, StandsAfterLines, world_node_ids, is_world_halted, nodes_over, places_of}};

use crate::fault::WorldFault;
use crate::world::World;
use spl_base::{CircuitId, NodeId};
use spl_cell::Cell;
use spl_circuit_world::MOST_EVENTS;

impl World {
    /// Whether a node is up.
    pub fn has_up(&self, node: &NodeId) -> bool
        requires known { has_node (world_node_ids self.now) node.now ≡ true }
        ensures { (is : List Images) (c : CircuitId) (m : CircuitWorld) → HoldsWorld c m (nodes_over self.now is) → result ≡ m.up node.now }
    {
        let slot = self.index_of(node);
        self.is_up(slot)
    }

    /// What a node keeps about a circuit; None where the node is down, or keeps nothing about it.
    pub fn cell(&self, node: &NodeId, circuit: &CircuitId) -> Option<&Cell>
        requires known { has_node (world_node_ids self.now) node.now ≡ true }
        ensures { (is : List Images) (m : CircuitWorld) → HoldsWorld circuit.now m (nodes_over self.now is) → m.up node.now ≡ true
            → state_or_empty (option_copied result) ≡ m.at node.now }
    {
        let slot = self.index_of(node);
        self.slot_at(slot).cell(circuit)
    }

    /// Counts so many ticks more, in which there is nothing to do. `TooMany` comes exactly where the events with them are more
    /// than `MOST_EVENTS`; there is no other error, and after it the world is halted.
    pub fn count_ticks(&mut self, ticks: u32) -> Result<(), WorldFault>
        ensures slots { self.new.slots ≡ self.old.slots }
        ensures stops { self.new.stops ≡ self.old.stops }
        ensures counts { Counts result self.old.events self.new.events 0 ticks }
        ensures few { OnOk result (self.new.events ≤ MOST_EVENTS) }
        ensures only { OnErr result (IsErrOf result (WorldFault.TooMany 1)) }
        ensures running { OnOk result (is_world_halted self.new ≡ false) }
        ensures halted { OnErr result (is_world_halted self.new ≡ true) }
    {
        let counted = self.events.add(ticks);
        self.halted = counted.is_err();
        counted
    }

    /// Counts one event more, which runs beside the world. `before` are the lines that ran so far, and `others` the events
    /// beside them. `TooMany` comes exactly where all of them and this one are more than `MOST_EVENTS`; there is no other
    /// error, and after it the world is halted.
    pub fn count_event(&mut self) -> Result<(), WorldFault>
        requires running { is_world_halted self.old ≡ false }
        ensures ids { world_node_ids self.new ≡ world_node_ids self.old }
        ensures places { places_of self.new ≡ places_of self.old }
        ensures same { (is : List Images) → nodes_over self.new is ≡ nodes_over self.old is }
        ensures stands { (is : List Images) (o : Origin) (others : ℕ) (before : List Ran) → StandsAfterLines o others before self.old is
            → OnOk result (StandsAfterLines o (others + 1) before self.new is) }
        ensures few { (is : List Images) (o : Origin) (others : ℕ) (before : List Ran) → StandsAfterLines o others before self.old is
            → OnOk result (events_of o before + (others + 1) ≤ MOST_EVENTS) }
        ensures many { (is : List Images) (o : Origin) (others which : ℕ) (before : List Ran) → StandsAfterLines o others before self.old is
            → IsErrOf result (WorldFault.TooMany which)
            → (which ≡ 1) × (MOST_EVENTS < events_of o before + (others + 1)) }
        ensures only { IfErr result (λ e. is_of_limit e ≡ true) }
        ensures running { OnOk result (is_world_halted self.new ≡ false) }
        ensures halted { OnErr result (is_world_halted self.new ≡ true) }
    {
        let counted = self.events.add(1);
        self.halted = counted.is_err();
        counted
    }
}
