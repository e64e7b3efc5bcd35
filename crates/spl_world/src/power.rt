//! Nodes that go down and come up, and what is bound at one.
ghost use Rattle.std.specs.Prelude.{◌≡◌, ◌++◌, ◌∷◌, [], ◌<◌, List, None, true, length, IfOk, OnOk, OnErr};
ghost use Rattle.spl_circuit.specs.Nodes.{NodeId as Id};
ghost use Rattle.spl_circuit_world.specs.{Answers.roll_answer, Projection.{by_rule, Ran, lines_fit}, Worlds.{IsOrigin, Origin, World as CircuitWorld, Stops}};
ghost use Rattle.spl_circuit_world.specs.{Worlds.circuit_happens, Whole.whole_world};
ghost use Rattle.spl_sched.specs.Grammar.{is_line};
ghost use Rattle.spl_sched.specs.declared.line.Line.TheVariants as line;
ghost use Rattle.spl_node.specs.Benches.{Images, images};
ghost use Rattle.spl_world.specs.{Ended.EventEnds, Views.{HoldsWorld, IsNodeAt, Sits, nodes_over, seen}, Calls.{CountsNone, StartsNode, StopsAlone}};
ghost use Rattle.spl_world.specs.Calls.{disks_view};

use crate::fault::WorldFault;
use crate::world::World;
use spl_edge::{Disk, Pair, StopDisk};
use spl_wire::{Answer, Refusal};
use std::alloc::{AllocError, Global};

impl World {
    // The node of this index comes up.
    pub(crate) fn start_at<D: Disk>(
        &mut self,
        alloc: Global,
        pairs: &mut Vec<Pair<D>>,
        slot: usize,
    ) -> Result<(), WorldFault>
        requires below { slot < length self.old.slots.items }
        requires sits { Sits (seen D.view self.old pairs.old.items) }
        ensures starts { StartsNode slot result self.old self.new (disks_view D.view pairs.old.items) (disks_view D.view pairs.new.items) }
        ensures counts { CountsNone self.old self.new }
    {
        let place = self.place_of(pairs, slot);
        let here = &mut self.slots[slot];
        let disks = &mut pairs[place];
        here.start(alloc, disks)
    }

    // The node of this index goes down.
    pub(crate) fn stop_at<D: StopDisk>(
        &mut self,
        alloc: Global,
        pairs: &mut Vec<Pair<D>>,
        slot: usize,
    ) -> Result<(), AllocError>
        requires below { slot < length self.old.slots.items }
        requires sits { Sits (seen D.view self.old pairs.old.items) }
        ensures alone { StopsAlone slot None result self.old self.new (disks_view D.view pairs.old.items) (disks_view D.view pairs.new.items) }
        ensures counts { CountsNone self.old self.new }
        ensures holds { (c n : Id) (m : CircuitWorld) → IsNodeAt self.old slot n → HoldsWorld c m (seen D.view self.old pairs.old.items)
            → OnOk result (HoldsWorld c (circuit_happens m (Stops n)) (seen D.view self.new pairs.new.items)) }
        ensures ended { (c : Id) (m : CircuitWorld) → HoldsWorld c m (seen D.view self.old pairs.old.items)
            → OnErr result (EventEnds c m WorldFault.NoMemory (seen D.view self.old pairs.old.items) (images D.view pairs.new.items)) }
    {
        let place = self.place_of(pairs, slot);
        let here = &mut self.slots[slot];
        let disks = &mut pairs[place];
        here.stop(alloc, disks)
    }

    // What is bound at the node of this index, where it is up.
    pub(crate) fn roll_at(&self, alloc: Global, slot: usize) -> Result<Answer, AllocError>
        requires below { slot < length self.now.slots.items }
        ensures { (is : List Images) (o : Origin) (before : List Ran) (n : Id) → IsOrigin o → is_line (line.Roll n) ≡ true → lines_fit before ≡ true
            → ((c : Id) → HoldsWorld c (whole_world o c before) (nodes_over self.now is)) → IsNodeAt self.now slot n
            → IfOk result (λ a. a ≡ roll_answer o (before ++ by_rule (line.Roll n) ∷ []) n) }
    {
        if !self.is_up(slot) {
            return Ok(Answer::Refused(Refusal::Down));
        }
        Ok(Answer::Roll(self.slot_at(slot).roll(alloc)?))
    }
}
