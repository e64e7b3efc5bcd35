//! Nodes that stop in an event.
ghost use Rattle.std.specs.{Prelude.{◌≡◌, ◌<◌, List, Some, true, false, length, IfSome, OnOk}, List.list_all, Option.option_copied, Str.bytes_eq};
ghost use Rattle.spl_edge.specs.Devices.{bench};
ghost use Rattle.spl_circuit.specs.Nodes.{NodeId as Id, has_node};
ghost use Rattle.spl_circuit_world.specs.{Answers.bit_of, Projection.opens, Worlds.{World as CircuitWorld, Stops, circuit_happens}};
ghost use Rattle.spl_cell_rules.specs.{Cells.site_at, Valid.IsFor};
ghost use Rattle.spl_node.specs.Stopping.{IsStopping, has_changes, keeps};
ghost use Rattle.spl_sched.specs.Grammar.{is_step, step_circuit, step_node, step_nodes};
ghost use Rattle.spl_wire.specs.declared.change.Change.{Change};
ghost use Rattle.spl_world.specs.{Halts.IsEventOf, Views.{HoldsWorld, IsNodeAt, IsUp, Sits, world_node_ids, seen}, Calls.{CountsNone, HaltsStep, StopsAlone}};
ghost use Rattle.spl_world.specs.Calls.{StopsInStep, disks_view};

use crate::fault::WorldFault;
use crate::world::World;
use spl_base::CircuitId;
use spl_edge::{Fill, Pair, StopDisk};
use spl_node::Stopping;
use spl_sched::Step;
use spl_wire::{Bit, Event};
use std::alloc::{AllocError, Global};

// Whether a disk keeps a gate open that was written and not synced.
fn opens(fill: Fill) -> bool
    ensures { result ≡ opens fill }
{
    match fill {
        Fill::Old => false,
        Fill::New => true,
        Fill::Byte(byte) => byte == 1,
    }
}

// Whether the disks have the record of an event whose node stopped so.
fn keeps(stopping: Stopping) -> bool
    ensures { result ≡ keeps stopping }
{
    match stopping {
        Stopping::Cut { calls, fill } => calls >= 4 || calls == 3 && opens(fill),
        Stopping::Fail { call } => call >= 5,
    }
}

// What became of the record of an event, by whether it is kept and whether the event has changes.
fn bit(kept: bool, changes: bool) -> Bit
    ensures { (xs : List Change) → changes ≡ has_changes xs → result ≡ bit_of kept xs }
{
    match (changes, kept) {
        (false, _) => Bit::Nothing,
        (true, true) => Bit::Kept,
        (true, false) => Bit::Lost,
    }
}

impl World {
    // The node of this index goes down in an event at the cell of a circuit, or in none. Answers
    // whether the event has changes.
    fn stop_in_at<D: StopDisk>(
        &mut self,
        alloc: Global,
        pairs: &mut Vec<Pair<D>>,
        slot: usize,
        circuit: &CircuitId,
        event: Option<&Event>,
        stopping: Stopping,
    ) -> Result<bool, AllocError>
        requires below { slot < length self.old.slots.items }
        requires up { IsUp self.old slot }
        requires own { (n : Id) → IsNodeAt self.old slot n → IfSome (option_copied event) (IsFor (site_at n circuit.now)) }
        requires calls { IsStopping stopping }
        requires sits { Sits (seen D.view self.old pairs.old.items) }
        ensures alone { StopsAlone slot (Some stopping) result self.old self.new
            (disks_view D.view pairs.old.items) (disks_view D.view pairs.new.items) }
        ensures counts { CountsNone self.old self.new }
        ensures stopped { (m : CircuitWorld) (s : Step) → IsNodeAt self.old slot (step_node s) → step_circuit s ≡ circuit.now
            → IsEventOf (option_copied event.entry) m s → HoldsWorld circuit.now m (seen D.view self.old pairs.old.items)
            → StopsInStep slot circuit.now m stopping s result (seen D.view self.old pairs.old.items) (seen D.view self.new pairs.new.items)
            (bench D.view pairs.old.items) (bench D.view pairs.new.items) }
        ensures others { (d n : Id) (m : CircuitWorld) → IsNodeAt self.old slot n → bytes_eq circuit.now d ≡ false
            → HoldsWorld d m (seen D.view self.old pairs.old.items)
            → OnOk result (HoldsWorld d (circuit_happens m (Stops n)) (seen D.view self.new pairs.new.items)) }
    {
        let place = self.place_of(pairs, slot);
        let here = &mut self.slots[slot];
        let disks = &mut pairs[place];
        here.stop_in(alloc, disks, circuit, event, stopping)
    }

    // The node of this index, at which a step takes place, goes down in it. Answers whether the step
    // has changes.
    fn stop_in_step<D: StopDisk>(
        &mut self,
        alloc: Global,
        pairs: &mut Vec<Pair<D>>,
        slot: usize,
        step: &Step,
        stopping: Stopping,
    ) -> Result<bool, AllocError>
        requires below { slot < length self.old.slots.items }
        requires at { IsNodeAt self.old slot (step_node step.now) }
        requires up { IsUp self.old slot }
        requires known { list_all (has_node (world_node_ids self.old)) (step_nodes step.now) ≡ true }
        requires fits { is_step step.now ≡ true }
        requires calls { IsStopping stopping }
        requires sits { Sits (seen D.view self.old pairs.old.items) }
        ensures alone { StopsAlone slot (Some stopping) result self.old self.new
            (disks_view D.view pairs.old.items) (disks_view D.view pairs.new.items) }
        ensures counts { CountsNone self.old self.new }
        ensures stopped { (m : CircuitWorld) → HoldsWorld (step_circuit step.now) m (seen D.view self.old pairs.old.items)
            → StopsInStep slot (step_circuit step.now) m stopping step.now result (seen D.view self.old pairs.old.items)
            (seen D.view self.new pairs.new.items) (bench D.view pairs.old.items) (bench D.view pairs.new.items) }
        ensures others { (d : Id) (m : CircuitWorld) → bytes_eq (step_circuit step.now) d ≡ false → HoldsWorld d m (seen D.view self.old pairs.old.items)
            → OnOk result (HoldsWorld d (circuit_happens m (Stops (step_node step.now))) (seen D.view self.new pairs.new.items)) }
    {
        match step {
            Step::At { circuit, event, .. } => {
                self.stop_in_at(alloc, pairs, slot, circuit, Some(event), stopping)
            }
            Step::Deliver {
                from,
                circuit,
                number,
                ..
            } => {
                let sender = self.index_of(from);
                let index = (*number - 1) as usize;
                let delivery = self.delivery(alloc, sender, slot, circuit, index)?;
                match delivery {
                    Some(event) => {
                        self.stop_in_at(alloc, pairs, slot, circuit, Some(&event), stopping)
                    }
                    None => self.stop_in_at(alloc, pairs, slot, circuit, None, stopping),
                }
            }
        }
    }

    // The node of a step goes down in it. Answers what became of its record; None where the node was
    // down.
    pub(crate) fn halt_step<D: StopDisk>(
        &mut self,
        alloc: Global,
        pairs: &mut Vec<Pair<D>>,
        step: &Step,
        stopping: Stopping,
    ) -> Result<Option<Bit>, AllocError>
        requires known { list_all (has_node (world_node_ids self.old)) (step_nodes step.now) ≡ true }
        requires fits { is_step step.now ≡ true }
        requires calls { IsStopping stopping }
        requires sits { Sits (seen D.view self.old pairs.old.items) }
        ensures halts { HaltsStep step.now stopping result self.old self.new (disks_view D.view pairs.old.items) (disks_view D.view pairs.new.items) }
        ensures counts { CountsNone self.old self.new }
    {
        let slot = self.index_of(&step.node());
        if !self.is_up(slot) {
            return Ok(None);
        }
        let changes = self.stop_in_step(alloc, pairs, slot, step, stopping)?;
        Ok(Some(bit(keeps(stopping), changes)))
    }
}
