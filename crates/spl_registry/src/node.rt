//! The nodes of a registry.
ghost use Rattle.std.specs.Prelude.{◌≡◌, ◌<◌, length, IfOk, IfSome};
ghost use Rattle.spl_registry.specs.Nodes.{is_of, knows, slot_of, entry_ids, local_entries};

use spl_base::{NodeId, Piece};
use std::alloc::{AllocError, Global};
use std::marker::Model;

/// A node, and where it is reached. Contracts see the bytes.
#[derive(Drop)]
pub struct Node {
    identity: NodeId,
    endpoint: Piece,
}

impl Model for Node {
    ghost use Rattle.spl_registry.specs.Nodes.{Entry};

    ghost Value = { Entry };

    ghost view = { λ n. record { identity = n.identity; endpoint = n.endpoint } };
}

impl Node {
    /// A node of this id that is reached there.
    pub(crate) fn new(alloc: Global, identity: NodeId, endpoint: &[u8]) -> Result<Node, AllocError>
        ensures { IfOk result (λ n. n ≡ record { identity = identity; endpoint = endpoint.now }) }
    {
        Ok(Node {
            identity,
            endpoint: Piece::from(alloc, endpoint)?,
        })
    }

    /// Its id.
    pub(crate) fn identity(&self) -> &NodeId
        ensures { result.now ≡ self.now.identity }
    {
        &self.identity
    }

    /// Where it is reached first.
    pub(crate) fn endpoint(&self) -> &[u8]
        ensures { result.now ≡ self.now.endpoint }
    {
        self.endpoint.bytes()
    }

    /// Whether it has this id.
    pub(crate) fn is(&self, identity: &NodeId) -> bool
        ensures { result ≡ is_of identity.now self.now }
    {
        self.identity.bytes() == identity.bytes()
    }

    /// An equal node.
    pub(crate) fn copy(&self, alloc: Global) -> Result<Node, AllocError>
        ensures { IfOk result (λ n. n ≡ self.now) }
    {
        Node::new(alloc, self.identity, self.endpoint())
    }
}

/// Whether a node of this id is among them.
pub(crate) fn knows(nodes: &[Node], identity: &NodeId) -> bool
    ensures { result ≡ knows nodes.now identity.now }
{
    nodes.iter().any(|node| node.is(identity))
}

/// The position of the node of this id.
pub(crate) fn slot_of(nodes: &[Node], identity: &NodeId) -> Option<usize>
    ensures value { result ≡ slot_of nodes.now identity.now }
    ensures within { IfSome result (λ slot. slot < length nodes.now) }
{
    nodes.iter().position(|node| node.is(identity))
}

/// The ids of nodes.
pub(crate) fn ids_of(alloc: Global, nodes: &[Node]) -> Result<Vec<NodeId>, AllocError>
    ensures { IfOk result (λ v. v.items ≡ entry_ids nodes.now) }
{
    let mut ids = Vec::new(alloc);
    for node in nodes {
        ids.push(*node.identity())?;
    }
    Ok(ids)
}

/// Equal nodes.
pub(crate) fn copies(alloc: Global, nodes: &[Node]) -> Result<Vec<Node>, AllocError>
    ensures { IfOk result (λ v. v.items ≡ nodes.now) }
{
    let mut copies = Vec::new(alloc);
    for node in nodes {
        copies.push(node.copy(alloc)?)?;
    }
    Ok(copies)
}

/// Nodes of these ids, which are reached at this machine.
pub(crate) fn made(alloc: Global, ids: &[NodeId]) -> Result<Vec<Node>, AllocError>
    ensures { IfOk result (λ v. v.items ≡ local_entries ids.now) }
{
    let mut made = Vec::new(alloc);
    for id in ids {
        made.push(Node::new(alloc, *id, b"127.0.0.1:0")?)?;
    }
    Ok(made)
}
