//! All nodes of a run, and what happens at one of them.
ghost use Rattle.std.specs.{Prelude.{◌≡◌, ◌+◌, ◌<◌, List, Some, get_or, is_some, length, slice_get, true, false, IfOk, IfSome}, List.position_from};
ghost use Rattle.std.specs.{Option.option_copied, Str.bytes_eq};
ghost use Rattle.spl_circuit.specs.Nodes.{NodeId as Id, has_node};
ghost use Rattle.spl_sched.specs.declared.line.Step.TheVariants as step;
ghost use Rattle.spl_cell_rules.specs.{Valid.IsFor, Cells.site_at};
ghost use Rattle.spl_circuit_world.specs.Worlds.{World as CircuitWorld, messages};
ghost use Rattle.spl_world.specs.{Calms.due_at, Halts.delivery_of, Kept.belongs, Views.{HoldsWorld, IsNodeAt, IsUp, Sits, has_id, world_node_ids}};
ghost use Rattle.spl_world.specs.{Views.{is_world_halted, nodes_over, seen, ups_of, IsOutbox, NodeSeat}, Calls.{FailsAtNode, FailsInEvent, HandlesEvent}};
ghost use Rattle.spl_world.specs.Calls.{IsReadyOver, Leaves, LeavesNodes, RunsAndCarries, StaysUp, around, disks_view};
ghost use Rattle.spl_node.specs.Benches.{Images};

use crate::carrying::Sending;
use crate::events::Events;
use crate::fault::WorldFault;
use crate::outbox::Outbox;
use crate::slot::Slot;
use crate::stops::Stops;
use spl_base::{Boxed, CircuitId, NodeId};
use spl_edge::{Disk, Fabric, Pair};
use spl_pump::Carry;
use spl_state::RunCache;
use spl_wire::{Answer, Event, Message, Refusal};
use std::alloc::{AllocError, Global};

/// The nodes of a run, in the order of their ids. Each keeps its cells, over a pair of disks of its
/// own, and what it sent. Beside them is how many events ran, how many lines stopped a node, and the
/// last run of a state that was hashed, which all of them share. The world is halted where a line
/// found no memory, a disk that failed or no room for an event or a stop: what was kept may be lost
/// then, and nothing more may be asked.
#[derive(Drop)]
pub struct World {
    pub(crate) slots: Vec<Slot>,
    pub(crate) events: Events,
    pub(crate) stops: Stops,
    pub(crate) halted: bool,
    pub(crate) runs: RunCache,
}

fn position_of(slots: &[Slot], node: &NodeId) -> Option<usize>
    ensures { result ≡ position_from (has_id node.now) 0 slots.now }
{
    slots.iter().position(|slot| slot.id() == node)
}

impl World {
    /// How many events ran.
    pub fn events(&self) -> u32
        ensures { result ≡ self.now.events }
    {
        self.events.count()
    }

    /// How many lines stopped a node.
    pub fn stops(&self) -> u8
        ensures { result ≡ self.now.stops }
    {
        self.stops.count()
    }

    /// Whether a line has no answer.
    pub fn is_halted(&self) -> bool
        ensures { result ≡ is_world_halted self.now }
    {
        self.halted
    }

    // How many nodes there are.
    pub(crate) fn len(&self) -> usize
        ensures { result ≡ length self.now.slots.items }
    {
        self.slots.len()
    }

    // The node of this index.
    #[inline(always)]
    pub(crate) fn slot_at(&self, slot: usize) -> &Slot
        requires below { slot < length self.now.slots.items }
        ensures { slice_get self.now.slots.items slot ≡ Some result.now }
    {
        &self.slots[slot]
    }

    // The position of the pair of disks of the node of this index.
    #[inline(always)]
    pub(crate) fn place_of<D: Disk>(&self, pairs: &Vec<Pair<D>>, slot: usize) -> usize
        requires below { slot < length self.now.slots.items }
        requires sits { Sits (seen D.view self.now pairs.now.items) }
        ensures below { result < length pairs.now.items }
        ensures seat { (s : Slot) (p : Pair D) → s ≡ get_or self.now.slots.items slot s → p ≡ get_or pairs.now.items result p
            → NodeSeat D.view self.now.slots.items pairs.now.items slot result s p }
    {
        self.slot_at(slot).position()
    }

    // The index of a node.
    pub(crate) fn index_of(&self, node: &NodeId) -> usize
        requires known { has_node (world_node_ids self.now) node.now ≡ true }
        ensures at { IsNodeAt self.now result node.now }
        ensures below { result < length self.now.slots.items }
    {
        position_of(&self.slots, node).unwrap()
    }

    // An event at the cell of a circuit at the node of this index, and its answer.
    pub(crate) fn handle<D: Disk>(
        &mut self,
        alloc: Global,
        pairs: &mut Vec<Pair<D>>,
        slot: usize,
        circuit: CircuitId,
        event: &Event,
    ) -> Result<Answer, WorldFault>
        requires below { slot < length self.old.slots.items }
        requires up { IsUp self.old slot }
        requires own { (n : Id) → IsNodeAt self.old slot n → IsFor (site_at n circuit) event.now }
        requires sits { Sits (seen D.view self.old pairs.old.items) }
        ensures leaves { LeavesNodes result self.old self.new (disks_view D.view pairs.old.items) (disks_view D.view pairs.new.items) }
        ensures stays { StaysUp self.old self.new }
        ensures event { (n : Id) → IsNodeAt self.old slot n
            → HandlesEvent n circuit event.now result (seen D.view self.old pairs.old.items) (seen D.view self.new pairs.new.items) }
        ensures faults { FailsAtNode result }
    {
        let place = self.place_of(pairs, slot);
        let here = &mut self.slots[slot];
        here.prepare(&circuit, event, &mut self.runs);
        let disks = &mut pairs[place];
        here.handle(alloc, disks, &circuit, event)
    }

    // Whether the node of this index is up.
    pub(crate) fn is_up(&self, slot: usize) -> bool
        requires below { slot < length self.now.slots.items }
        ensures world { (is : List Images) (c : Id) (m : CircuitWorld) (n : Id) → HoldsWorld c m (nodes_over self.now is) → IsNodeAt self.now slot n
            → result ≡ m.up n }
        ensures up { result ≡ true → IsUp self.now slot }
        ensures down { result ≡ false → slice_get (ups_of self.now) slot ≡ Some false }
    {
        self.slot_at(slot).is_up()
    }

    // Whether a tick has anything to do at the cell of a circuit at the node of this index; None where
    // the node is down, or the cell isn't bound and open.
    pub(crate) fn due(&self, slot: usize, circuit: &CircuitId) -> Option<bool>
        requires below { slot < length self.now.slots.items }
        ensures world { (is : List Images) (m : CircuitWorld) (n : Id) → Sits (nodes_over self.now is) → HoldsWorld circuit.now m (nodes_over self.now is)
            → IsNodeAt self.now slot n → result ≡ due_at circuit.now m n }
        ensures up { is_some result ≡ true → IsUp self.now slot }
    {
        self.slot_at(slot).due(circuit)
    }

    // Whether the nodes of these indexes are the same.
    pub(crate) fn is_same(&self, from: usize, to: usize) -> bool
        requires from_below { from < length self.now.slots.items }
        requires to_below { to < length self.now.slots.items }
        ensures { (a b : Id) → IsNodeAt self.now from a → IsNodeAt self.now to b → result ≡ bytes_eq a b }
    {
        self.slot_at(from).id() == self.slot_at(to).id()
    }

    // How many messages about a circuit one node sent to another.
    pub(crate) fn count(&self, from: usize, to: usize, circuit: &CircuitId) -> usize
        requires from_below { from < length self.now.slots.items }
        requires to_below { to < length self.now.slots.items }
        ensures { (is : List Images) (m : CircuitWorld) (a b : Id) → HoldsWorld circuit.now m (nodes_over self.now is) → IsNodeAt self.now from a
            → IsNodeAt self.now to b → result ≡ length (messages m a b) }
    {
        if from == to {
            return 0;
        }
        let recipient = self.slot_at(to).id();
        self.slot_at(from).count(circuit, recipient)
    }

    // The same of what one node sent about the circuit.
    pub(crate) fn count_in(&self, outbox: &Outbox, from: usize, to: usize) -> usize
        requires from_below { from < length self.now.slots.items }
        requires to_below { to < length self.now.slots.items }
        ensures { (is : List Images) (c : Id) (m : CircuitWorld) (a b : Id) → HoldsWorld c m (nodes_over self.now is) → IsNodeAt self.now from a
            → IsNodeAt self.now to b → IsOutbox self.now from c outbox.now → result ≡ length (messages m a b) }
    {
        if from == to {
            return 0;
        }
        outbox.count(self.slot_at(to).id())
    }

    // The message of this index, from 0, of those about a circuit that one node sent to another; None
    // exactly where there are fewer.
    pub(crate) fn message(
        &self,
        from: usize,
        to: usize,
        circuit: &CircuitId,
        index: usize,
    ) -> Option<&Boxed<Message>>
        requires from_below { from < length self.now.slots.items }
        requires to_below { to < length self.now.slots.items }
        requires apart { (a b : Id) → IsNodeAt self.now from a → IsNodeAt self.now to b → bytes_eq a b ≡ false }
        ensures value { (is : List Images) (m : CircuitWorld) (a b : Id) → HoldsWorld circuit.now m (nodes_over self.now is) → IsNodeAt self.now from a
            → IsNodeAt self.now to b → option_copied result ≡ slice_get (messages m a b) index }
        ensures belongs { IfSome (option_copied result) (λ x. belongs circuit.now x ≡ true) }
    {
        let recipient = self.slot_at(to).id();
        self.slot_at(from).message(circuit, recipient, index)
    }

    // The delivery of the message of this index, from 0, of those about a circuit that one node sent
    // to another; None exactly where there are fewer.
    pub(crate) fn delivery(
        &self,
        alloc: Global,
        from: usize,
        to: usize,
        circuit: &CircuitId,
        index: usize,
    ) -> Result<Option<Event>, AllocError>
        requires from_below { from < length self.now.slots.items }
        requires to_below { to < length self.now.slots.items }
        requires apart { (a b : Id) → IsNodeAt self.now from a → IsNodeAt self.now to b → bytes_eq a b ≡ false }
        ensures event { (is : List Images) (m : CircuitWorld) (a b : Id) → HoldsWorld circuit.now m (nodes_over self.now is) → IsNodeAt self.now from a
            → IsNodeAt self.now to b → IfOk result (λ e. e ≡ delivery_of a (slice_get (messages m a b) index)) }
        ensures own { (n : Id) → IsNodeAt self.now to n → IfOk result (λ e. IfSome e (IsFor (site_at n circuit.now))) }
    {
        let sender = self.slot_at(from).id();
        let message = match self.message(from, to, circuit, index) {
            Some(message) => message.share()?,
            None => return Ok(None),
        };
        Ok(Some(Event::Deliver {
            from: *sender,
            message,
        }))
    }

    // A message is carried to where it goes, where that node is up, and comes; and the answer.
    pub(crate) fn deliver<D: Disk, C: Carry, F: Fabric>(
        &mut self,
        alloc: Global,
        pairs: &mut Vec<Pair<D>>,
        carrier: &mut C,
        fabric: &mut F,
        sending: &Sending,
    ) -> Result<Answer, WorldFault>
        requires from_below { sending.now.from < length self.old.slots.items }
        requires to_below { sending.now.to < length self.old.slots.items }
        requires apart { (a b : Id) → IsNodeAt self.old sending.now.from a → IsNodeAt self.old sending.now.to b → bytes_eq a b ≡ false }
        requires up { IsUp self.old sending.now.to }
        requires ready { IsReadyOver self.old (around D.view C.view F.view pairs.old.items carrier.old fabric.old) }
        ensures leaves { Leaves result self.old self.new (around D.view C.view F.view pairs.old.items carrier.old fabric.old)
            (around D.view C.view F.view pairs.new.items carrier.new fabric.new) }
        ensures stays { StaysUp self.old self.new }
        ensures runs { (a b : Id) → IsNodeAt self.old sending.now.from a → IsNodeAt self.old sending.now.to b
            → RunsAndCarries (step.Deliver a b sending.now.circuit (sending.now.index + 1)) result self.old self.new
            (around D.view C.view F.view pairs.old.items carrier.old fabric.old)
            (around D.view C.view F.view pairs.new.items carrier.new fabric.new) }
        ensures faults { FailsInEvent result }
    {
        let delivery = self.carried(alloc, carrier, fabric, sending)?;
        match delivery {
            Some(event) => self.handle(alloc, pairs, sending.to, sending.circuit, &event),
            None => Ok(Answer::Refused(Refusal::NoMessage)),
        }
    }
}
