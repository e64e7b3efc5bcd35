//! Whether nodes are among those that are known.
ghost use Rattle.std.specs.{Prelude.◌≡◌, List.list_all};
ghost use Rattle.spl_circuit.specs.{Nodes.has_node, Rules.nodes_of as service_nodes};
ghost use Rattle.spl_sched.specs.Grammar.{event_nodes};

use spl_base::NodeId;
use spl_circuit::Service;
use spl_wire::Event;

pub(crate) fn is_known(known: &[NodeId], node: &NodeId) -> bool
    ensures { result ≡ has_node known.now node.now }
{
    for k in known {
        if k == node {
            return true;
        }
    }
    false
}

fn are_known(known: &[NodeId], nodes: &[NodeId]) -> bool
    ensures { result ≡ list_all (has_node known.now) nodes.now }
{
    nodes.iter().all(|node| is_known(known, node))
}

fn services_known(known: &[NodeId], services: &[Service]) -> bool
    ensures { result ≡ list_all (has_node known.now) (service_nodes services.now) }
{
    for service in services {
        if !is_known(known, &service.node) {
            return false;
        }
    }
    true
}

/// Each node that the event names is known.
pub(crate) fn event_known(known: &[NodeId], event: &Event) -> bool
    ensures { result ≡ list_all (has_node known.now) (event_nodes event.now) }
{
    match event {
        Event::Propose(definition) => {
            let definition = definition.get();
            are_known(known, definition.members.as_slice())
                && services_known(known, definition.services.as_slice())
        }
        Event::Route { from, .. } => is_known(known, from),
        Event::Deliver { from, .. } => is_known(known, from),
        _ => true,
    }
}
