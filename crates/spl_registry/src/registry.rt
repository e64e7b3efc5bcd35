//! The registry.
ghost use Rattle.std.specs.{Prelude.{◌≡◌, ◌≢◌, ◌≤◌, ◌<◌, Ok, Err, Some, length, IfSome, IfOk, IfErr}, List.AllPairs};
ghost use Rattle.spl_registry.specs.Nodes.{IsRegistry, knows, slot_of, node_at, endpoint_at, entry_ids, local_entries, registry_of};

use crate::entries::nodes_of_bytes;
use crate::fault::RegistryFault;
use crate::node::{Node, copies, ids_of, knows, made, slot_of};
use spl_base::NodeId;
use std::alloc::{AllocError, Global};
use std::marker::Model;

/// At most 16 nodes of different ids, in the order of their document. Contracts see the list.
#[derive(Drop)]
pub struct Registry {
    nodes: Vec<Node>,
}

impl Model for Registry {
    ghost use Rattle.std.specs.Prelude.{List};
    ghost use Rattle.spl_registry.specs.Nodes.{Entry, IsRegistry};

    ghost Value = { List Entry };

    ghost view = { λ r. r.nodes.items };

    ghost invariant = { λ r. IsRegistry r.nodes.items };
}

impl Registry {
    /// The registry that the bytes of a document spell.
    pub fn read(alloc: Global, bytes: &[u8]) -> Result<Registry, RegistryFault>
        ensures ok { IfOk result (λ r. registry_of bytes.now ≡ Ok r) }
        ensures err { IfErr result (λ e. (e ≢ RegistryFault.NoMemory) → registry_of bytes.now ≡ Err e) }
    {
        match nodes_of_bytes(alloc, bytes) {
            Ok(nodes) => Ok(Registry { nodes }),
            Err(fault) => Err(fault),
        }
    }

    /// The registry of these nodes, which are reached at this machine.
    #[tactic(auto, using(crate::proofs::Registries::made_is_registry))]
    pub fn of(alloc: Global, nodes: &[NodeId]) -> Result<Registry, AllocError>
        requires few { length nodes.now ≤ 16 }
        requires apart { AllPairs (λ a b. a ≢ b) nodes.now }
        ensures { IfOk result (λ r. r ≡ local_entries nodes.now) }
    {
        Ok(Registry {
            nodes: made(alloc, nodes)?,
        })
    }

    /// An equal registry.
    pub fn copy(&self, alloc: Global) -> Result<Registry, AllocError>
        ensures { IfOk result (λ r. r ≡ self.now) }
    {
        Ok(Registry {
            nodes: copies(alloc, self.nodes.as_slice())?,
        })
    }

    /// Whether a node is in it.
    pub fn knows(&self, n: &NodeId) -> bool
        ensures { result ≡ knows self.now n.now }
    {
        knows(self.nodes.as_slice(), n)
    }

    /// The position of a node, from 0 on.
    pub fn slot(&self, n: &NodeId) -> Option<u8>
        ensures value { result ≡ slot_of self.now n.now }
        ensures within { IfSome result (λ slot. slot < length self.now) }
    {
        match slot_of(self.nodes.as_slice(), n) {
            Some(slot) => Some(slot as u8),
            None => None,
        }
    }

    /// How many nodes there are.
    pub fn len(&self) -> u8
        ensures value { result ≡ length self.now }
        ensures registry { IsRegistry self.now }
    {
        self.nodes.len() as u8
    }

    /// The ids of its nodes, of which no two are equal, in the order of the document.
    #[tactic(auto, using(crate::proofs::Registries::ids_apart))]
    pub fn ids(&self, alloc: Global) -> Result<Vec<NodeId>, AllocError>
        ensures ids { IfOk result (λ v. v.items ≡ entry_ids self.now) }
        ensures apart { AllPairs (λ a b. a ≢ b) (entry_ids self.now) }
    {
        ids_of(alloc, self.nodes.as_slice())
    }

    /// The node at a position.
    pub fn node(&self, slot: u8) -> NodeId
        requires { slot < length self.now }
        ensures { node_at self.now slot ≡ Some result }
    {
        *self.nodes[usize::from(slot)].identity()
    }

    /// Where the node at a position is reached first.
    pub fn endpoint(&self, slot: u8) -> &[u8]
        requires { slot < length self.now }
        ensures { endpoint_at self.now slot ≡ Some result.now }
    {
        self.nodes[usize::from(slot)].endpoint()
    }
}
