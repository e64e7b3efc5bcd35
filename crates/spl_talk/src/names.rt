//! Whom the first body of a connection names.
ghost use Rattle.std.specs.Prelude.{◌≡◌};
ghost use Rattle.spl_talk.specs.Talks.{expected, found_instead, is_lower_node, named_opener, opener};

use crate::fault::TalkFault;
use spl_base::NodeId;
use spl_link::{LinkFault, Opening};
use spl_registry::Registry;

/// The node that was found where another was expected.
fn found_in(fault: &LinkFault) -> Option<NodeId>
    ensures { result ≡ found_instead fault.now }
{
    match fault {
        LinkFault::WrongName { found, .. } => Some(*found),
        _ => None,
    }
}

/// The node of the registry that names itself as the one that opened a connection.
fn named(here: NodeId, registry: &Registry, body: &[u8]) -> Result<NodeId, LinkFault>
    ensures { result ≡ named_opener registry.now body.now }
{
    // A side that expects itself hears of any other node as a wrong name.
    match Opening::new(here, here, false).on_frame(registry, body) {
        Ok(named) => Ok(named.peer()),
        Err(heard) => {
            let (_, fault) = heard;
            match found_in(&fault) {
                Some(name) => Ok(name),
                None => Err(fault),
            }
        }
    }
}

/// Whether a node stands before another in the registry.
fn is_lower(registry: &Registry, low: &NodeId, high: &NodeId) -> bool
    ensures { result ≡ is_lower_node registry.now low.now high.now }
{
    match (registry.slot(low), registry.slot(high)) {
        (Some(low), Some(high)) => low < high,
        _ => false,
    }
}

/// The peer of a node to which a connection was opened: one that stands before it in the registry.
pub(crate) fn opener(here: NodeId, registry: &Registry, body: &[u8]) -> Result<NodeId, TalkFault>
    ensures { result ≡ opener registry.now here body.now }
{
    match named(here, registry, body) {
        Ok(name) => {
            if is_lower(registry, &name, &here) {
                Ok(name)
            } else {
                Err(TalkFault::NotLower)
            }
        }
        Err(fault) => Err(TalkFault::Name(fault)),
    }
}

/// The peer of a node that opened a connection: the one that it expects.
pub(crate) fn expected(
    here: NodeId,
    peer: NodeId,
    registry: &Registry,
    body: &[u8],
) -> Result<NodeId, TalkFault>
    ensures { result ≡ expected registry.now here peer body.now }
{
    match Opening::new(here, peer, true).on_frame(registry, body) {
        Ok(named) => Ok(named.peer()),
        Err(heard) => {
            let (_, fault) = heard;
            Err(TalkFault::Name(fault))
        }
    }
}
