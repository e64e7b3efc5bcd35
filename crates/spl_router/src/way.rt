//! The way of a message between services.
ghost use Rattle.std.specs.{Prelude.◌≡◌, Option.option_copied};
ghost use Rattle.spl_circuit.specs.{Rules.node_of_service, Routing.{route, way_between}};

use spl_base::{NodeId, ServiceId};
use spl_circuit::{Definition, RouteFault, Service};

/// The node that a service stands on; the first one where there are several.
#[tactic(auto, using(crate::proofs::Services::services_more))]
fn node_of_service(services: &[Service], id: &ServiceId) -> Option<NodeId>
    ensures { result ≡ node_of_service services.now id.now }
{
    for service in services {
        if service.id == *id {
            return Some(service.node);
        }
    }
    None
}

/// The way between the nodes that two services stand on, where they are services of the circuit.
fn way_between(
    from_node: &NodeId,
    from: Option<NodeId>,
    to: Option<NodeId>,
    here: &NodeId,
) -> Result<(), RouteFault>
    ensures { result ≡ way_between from_node.now from to here.now }
{
    let Some(from) = from else {
        return Err(RouteFault::SenderNotInRoster);
    };
    let Some(to) = to else {
        return Err(RouteFault::RecipientNotInRoster);
    };
    if from != *from_node {
        return Err(RouteFault::SenderNotOnNode);
    }
    if to != *here {
        return Err(RouteFault::RecipientNotHere);
    }
    Ok(())
}

/// Whether a message that comes from a node, from one service to another, may go on at the node
/// here, which has bound this definition, if any; `active` says that the circuit is open and active
/// there (docs/RULES.md, Routing). The fault is that of the first test that fails.
pub fn route(
    definition: Option<&Definition>,
    active: bool,
    from_node: &NodeId,
    from: &ServiceId,
    to: &ServiceId,
    here: &NodeId,
) -> Result<(), RouteFault>
    ensures { result ≡ route (option_copied definition.entry) active from_node.now from.now to.now here.now }
{
    let Some(definition) = definition else {
        return Err(RouteFault::CircuitDoesNotExist);
    };
    if !active {
        return Err(RouteFault::CircuitDoesNotExist);
    }
    let services = definition.services.as_slice();
    let sender = node_of_service(services, from);
    let recipient = node_of_service(services, to);
    way_between(from_node, sender, recipient, here)
}
