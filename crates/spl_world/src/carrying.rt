//! Messages that are carried to where they are delivered.
ghost use Rattle.std.specs.{Prelude.{◌≡◌, ◌≢◌, ◌<◌, ℕ, List, Some, false, length, slice_get, IfErr, IfOk, IfSome, OnOk, IsErrOf}, Str.bytes_eq};
ghost use Rattle.spl_circuit.specs.Nodes.{NodeId as Id};
ghost use Rattle.spl_circuit_world.specs.Worlds.{World as CircuitWorld, messages};
ghost use Rattle.spl_cell_rules.specs.{Cells.site_at, Valid.IsFor};
ghost use Rattle.spl_pump.specs.Wires.{AllBytesTaken, only};
ghost use Rattle.spl_wire.specs.Bounds.{IsSendable};
ghost use Rattle.spl_node.specs.Benches.{Images};
ghost use Rattle.spl_world.specs.{Disks.is_of_journal, Halts.delivery_of, Links.{DeliversMessages, AreLinksReady, Places, carried_of, link_view}};
ghost use Rattle.spl_world.specs.{Links.LeavesLinks, Views.{HoldsWorld, IsNodeAt, world_node_ids, nodes_over, places_of}};

use crate::fault::{WorldFault, carry_fault};
use crate::world::World;
use spl_base::{Boxed, CircuitId};
use spl_edge::Fabric;
use spl_pump::Carry;
use spl_wire::{Event, Message};
use std::alloc::Global;

// Carries a message between the nodes at these positions: what comes out is on the heap.
fn carry<C: Carry, F: Fabric>(
    alloc: Global,
    carrier: &mut C,
    fabric: &mut F,
    from: u8,
    to: u8,
    message: &Boxed<Message>,
) -> Result<Boxed<Message>, WorldFault>
    requires apart { from ≢ to }
    requires from { from < (C.view carrier.old).slots }
    requires to { to < (C.view carrier.old).slots }
    requires going { (C.view carrier.old).failed ≡ false }
    requires sendable { IsSendable message.now }
    requires taken { AllBytesTaken (F.view fabric.old).put (F.view fabric.old).taken }
    ensures same { IfOk result (λ m. m ≡ message.now) }
    ensures slots { (C.view carrier.new).slots ≡ (C.view carrier.old).slots }
    ensures going { OnOk result ((C.view carrier.new).failed ≡ false) }
    ensures taken { OnOk result (AllBytesTaken (F.view fabric.new).put (F.view fabric.new).taken) }
    ensures links { DeliversMessages result (only from to message.now) (link_view (C.view carrier.old) (F.view fabric.old))
        (link_view (C.view carrier.new) (F.view fabric.new)) }
    ensures faults { LeavesLinks result (link_view (C.view carrier.old) (F.view fabric.old)) (link_view (C.view carrier.new) (F.view fabric.new)) }
    ensures few { (which : ℕ) → IsErrOf result (WorldFault.TooMany which) → ⊥ }
    ensures disk { (slot : ℕ) → IsErrOf result (WorldFault.Disk slot) → ⊥ }
    ensures sound { IfErr result (λ e. is_of_journal e ≡ false) }
{
    match carrier.carry(alloc, fabric, from, to, message) {
        Ok(copy) => Ok(copy),
        Err(fault) => Err(carry_fault(fault, from, to)),
    }
}

/// The message of this index, from 0, of those about a circuit that one node sent to another, by the
/// indexes of the two.
#[derive(Clone, Copy)]
pub struct Sending {
    pub(crate) from: usize,
    pub(crate) to: usize,
    pub(crate) circuit: CircuitId,
    pub(crate) index: usize,
}

impl World {
    // The delivery of a message as it comes out of the carrier; None exactly where there are fewer.
    pub(crate) fn carried<C: Carry, F: Fabric>(
        &self,
        alloc: Global,
        carrier: &mut C,
        fabric: &mut F,
        sending: &Sending,
    ) -> Result<Option<Event>, WorldFault>
        requires from_below { sending.now.from < length self.now.slots.items }
        requires to_below { sending.now.to < length self.now.slots.items }
        requires apart { (a b : Id) → IsNodeAt self.now sending.now.from a → IsNodeAt self.now sending.now.to b → bytes_eq a b ≡ false }
        requires seats { (x y : ℕ) → slice_get (places_of self.now) sending.now.from ≡ Some x → slice_get (places_of self.now) sending.now.to ≡ Some y → x ≢ y }
        requires ready { AreLinksReady (places_of self.now) (link_view (C.view carrier.old) (F.view fabric.old)) }
        ensures event { (is : List Images) (m : CircuitWorld) (a b : Id) → HoldsWorld sending.now.circuit m (nodes_over self.now is)
            → IsNodeAt self.now sending.now.from a
            → IsNodeAt self.now sending.now.to b → IfOk result (λ e. e ≡ delivery_of a (slice_get (messages m a b) sending.now.index)) }
        ensures own { (n : Id) → IsNodeAt self.now sending.now.to n → IfOk result (λ e. IfSome e (IsFor (site_at n sending.now.circuit))) }
        ensures ready { OnOk result (AreLinksReady (places_of self.now) (link_view (C.view carrier.new) (F.view fabric.new))) }
        ensures links { (place : Id → ℕ) (is : List Images) (m : CircuitWorld) (a b : Id) → Places place (world_node_ids self.now) (places_of self.now)
            → HoldsWorld sending.now.circuit m (nodes_over self.now is) → IsNodeAt self.now sending.now.from a → IsNodeAt self.now sending.now.to b
            → DeliversMessages result (carried_of (place a) (place b) (slice_get (messages m a b) sending.now.index))
            (link_view (C.view carrier.old) (F.view fabric.old)) (link_view (C.view carrier.new) (F.view fabric.new)) }
        ensures faults { LeavesLinks result (link_view (C.view carrier.old) (F.view fabric.old)) (link_view (C.view carrier.new) (F.view fabric.new)) }
        ensures few { (which : ℕ) → IsErrOf result (WorldFault.TooMany which) → ⊥ }
        ensures disk { (slot : ℕ) → IsErrOf result (WorldFault.Disk slot) → ⊥ }
        ensures sound { IfErr result (λ e. is_of_journal e ≡ false) }
    {
        let Sending {
            from,
            to,
            circuit,
            index,
        } = *sending;
        let sender = self.slot_at(from).id();
        let (here, there) = (self.slot_at(from).position, self.slot_at(to).position);
        let message = match self.message(from, to, &circuit, index) {
            Some(message) => carry(alloc, carrier, fabric, here, there, message)?,
            None => return Ok(None),
        };
        Ok(Some(Event::Deliver {
            from: *sender,
            message,
        }))
    }
}
