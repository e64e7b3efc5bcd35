//! What comes to a node that may be down.
ghost use Rattle.std.specs.{Prelude.{◌≡◌, ◌+◌, ◌<◌, length, false}, Str.bytes_eq};
ghost use Rattle.spl_circuit.specs.Nodes.{NodeId as Id};
ghost use Rattle.spl_cell_rules.specs.{Cells.site_at, Valid.IsFor};
ghost use Rattle.spl_sched.specs.declared.line.Step.TheVariants as step;
ghost use Rattle.spl_world.specs.{Views.{IsNodeAt, Sits, seen}, Calls.{CountsNone, FailsAtNode, FailsInEvent, IsReadyOver, Leaves, LeavesNodes}};
ghost use Rattle.spl_world.specs.Calls.{RunsAndCarries, RunsStep, around, disks_view};

use crate::carrying::Sending;
use crate::fault::WorldFault;
use crate::world::World;
use spl_base::CircuitId;
use spl_edge::{Disk, Fabric, Pair};
use spl_pump::Carry;
use spl_wire::{Answer, Event, Refusal};
use std::alloc::Global;

impl World {
    // An event at the cell of a circuit at the node of this index, where that one is up; and the answer.
    pub(crate) fn event_at<D: Disk>(
        &mut self,
        alloc: Global,
        pairs: &mut Vec<Pair<D>>,
        slot: usize,
        circuit: CircuitId,
        event: &Event,
    ) -> Result<Answer, WorldFault>
        requires below { slot < length self.old.slots.items }
        requires own { (n : Id) → IsNodeAt self.old slot n → IsFor (site_at n circuit) event.now }
        requires sits { Sits (seen D.view self.old pairs.old.items) }
        ensures leaves { LeavesNodes result self.old self.new (disks_view D.view pairs.old.items) (disks_view D.view pairs.new.items) }
        ensures counts { CountsNone self.old self.new }
        ensures event { (n : Id) → IsNodeAt self.old slot n → RunsStep (step.At n circuit event.now) result
            (seen D.view self.old pairs.old.items) (seen D.view self.new pairs.new.items) }
        ensures faults { FailsAtNode result }
    {
        if !self.is_up(slot) {
            return Ok(Answer::Refused(Refusal::Down));
        }
        self.handle(alloc, pairs, slot, circuit, event)
    }

    // A message is carried to where it goes and comes, where that node is up; and the answer.
    pub(crate) fn deliver_at<D: Disk, C: Carry, F: Fabric>(
        &mut self,
        alloc: Global,
        pairs: &mut Vec<Pair<D>>,
        carrier: &mut C,
        fabric: &mut F,
        sending: &Sending,
    ) -> Result<Answer, WorldFault>
        requires from_below { sending.now.from < length self.old.slots.items }
        requires to_below { sending.now.to < length self.old.slots.items }
        requires apart { (a b : Id) → IsNodeAt self.old sending.now.from a → IsNodeAt self.old sending.now.to b → bytes_eq a b ≡ false }
        requires ready { IsReadyOver self.old (around D.view C.view F.view pairs.old.items carrier.old fabric.old) }
        ensures leaves { Leaves result self.old self.new (around D.view C.view F.view pairs.old.items carrier.old fabric.old)
            (around D.view C.view F.view pairs.new.items carrier.new fabric.new) }
        ensures counts { CountsNone self.old self.new }
        ensures runs { (a b : Id) → IsNodeAt self.old sending.now.from a → IsNodeAt self.old sending.now.to b
            → RunsAndCarries (step.Deliver a b sending.now.circuit (sending.now.index + 1)) result self.old self.new
            (around D.view C.view F.view pairs.old.items carrier.old fabric.old)
            (around D.view C.view F.view pairs.new.items carrier.new fabric.new) }
        ensures faults { FailsInEvent result }
    {
        if !self.is_up(sending.to) {
            return Ok(Answer::Refused(Refusal::Down));
        }
        self.deliver(alloc, pairs, carrier, fabric, sending)
    }
}
