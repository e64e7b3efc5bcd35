//! A node that goes down without a call of its disks.
ghost use Rattle.std.specs.Prelude.{◌≡◌, ◌+◌, ◌++◌, ◌∷◌, [], ℕ, ◌<◌, List, length, true, false, IfErr, IfOk, OnOk, IsErrOf};
ghost use Rattle.spl_circuit.specs.Nodes.{NodeId as Id, has_node};
ghost use Rattle.spl_circuit_world.specs.{Answers.answer_to, Projection.{by_rule, Ran}, Worlds.{Origin, World as CircuitWorld, Stops, circuit_happens}};
ghost use Rattle.spl_sched.specs.declared.line.Line.TheVariants as line;
ghost use Rattle.spl_world.specs.{Held.IsOverLimit, Counts.is_of_limit, Views.{HoldsWorld, IsNodeAt, Sits, StandsAfterLines, world_node_ids}};
ghost use Rattle.spl_world.specs.{Views.{is_world_halted, nodes_over, places_of}, Calls.{CountsNone, Halting, IsHaltedBy, IsWithinLimits}};
ghost use Rattle.spl_node.specs.Benches.{Images};

use crate::fault::WorldFault;
use crate::world::World;
use spl_base::NodeId;
use spl_circuit_world::{MOST_EVENTS, MOST_STOPS};
use spl_wire::Answer;

impl World {
    /// Takes a node down without a call of its disks, and answers as to a line that stops it: it
    /// forgets its open rounds, and one that is down stays so. `before` are the lines that ran so
    /// far. `TooMany` comes exactly where the events of these lines and of this stop are more than
    /// `MOST_EVENTS`, or, where they aren't, their stops more than `MOST_STOPS`, and there is no
    /// other error. After an error the world is halted.
    pub fn stop(&mut self, node: &NodeId) -> Result<Answer, WorldFault>
        requires running { is_world_halted self.old ≡ false }
        requires known { has_node (world_node_ids self.old) node.now ≡ true }
        ensures ids { world_node_ids self.new ≡ world_node_ids self.old }
        ensures places { places_of self.new ≡ places_of self.old }
        ensures halts { IsHaltedBy result self.new }
        // Whatever the disks hold, the nodes go on standing for what they hold.
        ensures runs { (is : List Images) → Halting (line.Stop node.now) result self.old self.new is is }
        ensures within { (is : List Images) (o : Origin) (others : ℕ) (before : List Ran) → StandsAfterLines o others before self.old is
            → IsWithinLimits o others before (line.Stop node.now) result }
        ensures sits { (is : List Images) → Sits (nodes_over self.old is) → Sits (nodes_over self.new is) }
        ensures only { IfErr result (λ e. is_of_limit e ≡ true) }
    {
        let answered = self.stop_node(node);
        self.events.are_within();
        self.stops.are_within();
        let failed = answered.is_err();
        self.halted = failed;
        answered
    }

    // Takes a node down, whether the world is halted or not.
    fn stop_node(&mut self, node: &NodeId) -> Result<Answer, WorldFault>
        requires known { has_node (world_node_ids self.old) node.now ≡ true }
        ensures ids { world_node_ids self.new ≡ world_node_ids self.old }
        ensures places { places_of self.new ≡ places_of self.old }
        ensures answer { (is : List Images) (o : Origin) (others : ℕ) (before : List Ran) → StandsAfterLines o others before self.old is
            → IfOk result (λ a. a ≡ answer_to o before (by_rule (line.Stop node.now))) }
        ensures stands { (is : List Images) (o : Origin) (others : ℕ) (before : List Ran) → StandsAfterLines o others before self.old is
            → OnOk result (StandsAfterLines o others (before ++ by_rule (line.Stop node.now) ∷ []) self.new is) }
        ensures sits { (is : List Images) → Sits (nodes_over self.old is) → Sits (nodes_over self.new is) }
        ensures many { (is : List Images) (o : Origin) (others : ℕ) (before : List Ran) (which : ℕ) → StandsAfterLines o others before self.old is
            → IsErrOf result (WorldFault.TooMany which) → IsOverLimit o others (before ++ by_rule (line.Stop node.now) ∷ []) which }
        ensures only { IfErr result (λ e. is_of_limit e ≡ true) }
    {
        // The bytes of an id are such as a line may have.
        let _ = node.bytes();
        self.events.add(1)?;
        self.stops.add()?;
        let slot = self.index_of(node);
        self.go_down_at(slot);
        Ok(Answer::Power { up: false })
    }

    // The node of this index goes down.
    fn go_down_at(&mut self, slot: usize)
        requires below { slot < length self.old.slots.items }
        ensures ids { world_node_ids self.new ≡ world_node_ids self.old }
        ensures places { places_of self.new ≡ places_of self.old }
        ensures counts { CountsNone self.old self.new }
        ensures holds { (is : List Images) (c n : Id) (m : CircuitWorld) → IsNodeAt self.old slot n → Sits (nodes_over self.old is)
            → HoldsWorld c m (nodes_over self.old is) → HoldsWorld c (circuit_happens m (Stops n)) (nodes_over self.new is) }
        ensures sits { (is : List Images) → Sits (nodes_over self.old is) → Sits (nodes_over self.new is) }
    {
        let here = &mut self.slots[slot];
        here.go_down();
    }
}
