//! What a node ever sent.
ghost use Rattle.std.specs.{Prelude.{◌≡◌, ◌++◌, [], length, slice_get, false, OnOk}, Option.option_copied, Str.bytes_eq};
ghost use Rattle.spl_circuit.specs.Nodes.{NodeId as Id};
ghost use Rattle.spl_world.specs.Kept.{AllBelong, IsTotal, SendsBelong, lists_about, lists_or_none, sent_to, sends_to};

use crate::outbox::Outbox;
use spl_base::{Boxed, CircuitId, NodeId};
use spl_wire::{Message, Outgoing};
use std::alloc::{AllocError, Global};
use std::collections::BTreeMap;
use std::marker::Model;

/// The messages that a node ever sent, by their circuits. Each belongs to its circuit.
#[derive(Drop)]
pub struct Posts {
    outboxes: BTreeMap<CircuitId, Outbox>,
}

impl Model for Posts {
    ghost use Rattle.spl_world.specs.Kept.{Posted, BelongEach};

    ghost Value = { Posted };

    ghost view = { λ s. s.outboxes.entries };

    ghost invariant = { λ s. BelongEach s.outboxes.entries };
}

impl Posts {
    /// Nothing was sent yet.
    pub fn new(alloc: Global) -> Posts
        ensures { result ≡ [] }
    {
        Posts {
            outboxes: BTreeMap::new(alloc),
        }
    }

    /// What was sent about a circuit; None only where nothing was.
    pub fn outbox(&self, circuit: &CircuitId) -> Option<&Outbox>
        ensures { lists_or_none (option_copied result) ≡ lists_about self.now circuit.now }
    {
        self.outboxes.get(circuit)
    }

    /// How many messages about a circuit were sent to a node.
    pub fn count(&self, circuit: &CircuitId, to: &NodeId) -> usize
        ensures { result ≡ length (sent_to (lists_about self.now circuit.now) to.now) }
    {
        match self.outboxes.get(circuit) {
            Some(outbox) => outbox.count(to),
            None => 0,
        }
    }

    /// How many messages about a circuit were sent, to any nodes.
    pub fn total(&self, circuit: &CircuitId) -> usize
        ensures { IsTotal result (lists_about self.now circuit.now) }
    {
        match self.outboxes.get(circuit) {
            Some(outbox) => outbox.total(),
            None => 0,
        }
    }

    /// The message of this index, from 0, of those about a circuit that were sent to a node; None
    /// exactly where there are fewer.
    pub fn message(&self, circuit: &CircuitId, to: &NodeId, index: usize) -> Option<&Boxed<Message>>
        ensures value { option_copied result ≡ slice_get (sent_to (lists_about self.now circuit.now) to.now) index }
        ensures about { AllBelong circuit.now (sent_to (lists_about self.now circuit.now) to.now) }
    {
        match self.outboxes.get(circuit) {
            Some(outbox) => outbox.message(to, index),
            None => None,
        }
    }

    /// Messages about a circuit are sent, in their order.
    #[inline(always)]
    pub fn post(
        &mut self,
        alloc: Global,
        circuit: CircuitId,
        sends: &[Outgoing],
    ) -> Result<(), AllocError>
        requires { SendsBelong circuit sends.now }
        ensures sent { OnOk result ((b : Id) → sent_to (lists_about self.new circuit) b ≡ sent_to (lists_about self.old circuit) b ++ sends_to b sends.now) }
        ensures others { OnOk result ((c : Id) → bytes_eq circuit c ≡ false → lists_about self.new c ≡ lists_about self.old c) }
    {
        if sends.is_empty() {
            return Ok(());
        }
        if let Some(outbox) = self.outboxes.get_mut(&circuit) {
            return outbox.post_all(alloc, sends);
        }
        let mut outbox = Outbox::new(alloc);
        outbox.post_all(alloc, sends)?;
        match self.outboxes.insert(circuit, outbox) {
            Ok(_) => Ok(()),
            Err(_) => Err(AllocError),
        }
    }
}
