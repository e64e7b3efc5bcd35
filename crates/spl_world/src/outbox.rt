//! What a node ever sent about one circuit.
ghost use Rattle.std.specs.{Prelude.{◌≡◌, ◌++◌, ◌∷◌, [], length, slice_get, false, OnOk, OnErr}, Option.option_copied, Str.bytes_eq};
ghost use Rattle.spl_circuit.specs.Nodes.{NodeId as Id};
ghost use Rattle.spl_world.specs.Kept.{AllBelong, IsTotal, SendsBelong, sent_to, sends_to};

use spl_base::{Boxed, Listing, NodeId};
use spl_wire::{Message, Outgoing};
use std::alloc::{AllocError, Global};
use std::collections::BTreeMap;
use std::marker::Model;

/// The messages that a node ever sent about one circuit, by recipient, in the order in which they
/// were sent, and how many they are together.
#[derive(Drop)]
pub struct Outbox {
    lists: BTreeMap<NodeId, Listing<Boxed<Message>>>,
    total: usize,
}

impl Model for Outbox {
    ghost use Rattle.spl_world.specs.Kept.{IsTotal, SentLists};

    ghost Value = { SentLists };

    ghost view = { λ s. s.lists.entries };

    ghost invariant = { λ s. IsTotal s.total s.lists.entries };
}

impl Outbox {
    /// Nothing was sent yet.
    pub fn new(alloc: Global) -> Outbox
        ensures { result ≡ [] }
    {
        Outbox {
            lists: BTreeMap::new(alloc),
            total: 0,
        }
    }

    /// How many messages were sent, to any nodes.
    pub fn total(&self) -> usize
        ensures { IsTotal result self.now }
    {
        self.total
    }

    /// How many messages were sent to a node.
    pub fn count(&self, to: &NodeId) -> usize
        ensures { result ≡ length (sent_to self.now to.now) }
    {
        match self.lists.get(to) {
            Some(list) => list.len(),
            None => 0,
        }
    }

    /// The message of this index, from 0, of those that were sent to a node; None exactly where
    /// there are fewer.
    pub fn message(&self, to: &NodeId, index: usize) -> Option<&Boxed<Message>>
        ensures { option_copied result ≡ slice_get (sent_to self.now to.now) index }
    {
        match self.lists.get(to) {
            Some(list) => list.get(index),
            None => None,
        }
    }

    // One message more.
    fn post(&mut self, alloc: Global, to: NodeId, message: Boxed<Message>) -> Result<(), AllocError>
        ensures recipient { OnOk result (sent_to self.new to ≡ sent_to self.old to ++ message ∷ []) }
        ensures others { OnOk result ((b : Id) → bytes_eq to b ≡ false → sent_to self.new b ≡ sent_to self.old b) }
        ensures err { OnErr result ((b : Id) → sent_to self.new b ≡ sent_to self.old b) }
    {
        // No memory has so many messages.
        if self.total == usize::MAX {
            return Err(AllocError);
        }
        self.total += 1;
        if let Some(list) = self.lists.get_mut(&to) {
            return list.push(message);
        }
        let mut list = Listing::new(alloc);
        list.push(message)?;
        match self.lists.insert(to, list) {
            Ok(_) => Ok(()),
            Err(_) => Err(AllocError),
        }
    }

    /// Messages are sent, in their order.
    #[inline(always)]
    pub fn post_all(&mut self, alloc: Global, sends: &[Outgoing]) -> Result<(), AllocError>
        ensures sent { OnOk result ((b : Id) → sent_to self.new b ≡ sent_to self.old b ++ sends_to b sends.now) }
        ensures about { (c : Id) → ((b : Id) → AllBelong c (sent_to self.old b)) → SendsBelong c sends.now → (b : Id) → AllBelong c (sent_to self.new b) }
    {
        for send in sends {
            self.post(alloc, send.to, send.message.share()?)?;
        }
        Ok(())
    }
}
