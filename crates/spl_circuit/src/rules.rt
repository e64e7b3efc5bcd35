//! The rules of a definition, and who coordinates.
ghost use Rattle.std.specs.{Prelude.{◌≡◌, IsTrue, codes, None}, List.list_all, Str.bytes_eq};
ghost use Rattle.spl_circuit.specs.{Nodes.{is_below, sorted, same_nodes}, Rules.{ascends, ids_of, nodes_of, serves, broken, is_member, admin, service}};
ghost use Rattle.spl_circuit.specs.Rules.{service_of_node};

use crate::definition::{Definition, Service};
use spl_base::{NodeId, ServiceId, is_text};

/// How many bytes the name in a definition has at most.
pub const LONGEST_NAME: usize = 64;

fn nodes_ascend(nodes: &[NodeId]) -> bool
    ensures { result ≡ ascends nodes.now }
{
    let Some((first, others)) = nodes.split_first() else {
        return true;
    };
    let mut last = *first;
    for node in others {
        if last >= *node {
            return false;
        }
        last = *node;
    }
    true
}

fn is_id_below(a: &ServiceId, b: &ServiceId) -> bool
    ensures { result ≡ is_below a.now b.now }
{
    a.cmp(b).is_lt()
}

#[tactic(auto, using(crate::proofs::Ascents::ascends_more))]
fn services_ascend(services: &[Service]) -> bool
    ensures { result ≡ ascends (ids_of services.now) }
{
    let Some((first, others)) = services.split_first() else {
        return true;
    };
    let mut last = first.id;
    for service in others {
        if !is_id_below(&last, &service.id) {
            return false;
        }
        last = service.id;
    }
    true
}

fn are_scabbard(services: &[Service]) -> bool
    ensures { result ≡ list_all (λ s. bytes_eq s.kind (codes "scabbard")) services.now }
{
    services
        .iter()
        .all(|s| is_text(s.kind.bytes(), b"scabbard"))
}

fn is_served(services: &[Service], node: &NodeId) -> bool
    ensures { result ≡ serves services.now node.now }
{
    services.iter().any(|s| s.node == *node)
}

fn are_served(services: &[Service], members: &[NodeId]) -> bool
    ensures { result ≡ list_all (serves services.now) members.now }
{
    members.iter().all(|m| is_served(services, m))
}

/// Whether the nodes of the services, sorted, are exactly the members. Since the members ascend,
/// they are where there are as many services as members and each member has one.
fn serve_exactly(services: &[Service], members: &[NodeId]) -> bool
    requires { IsTrue (ascends members.now) }
    ensures { result ≡ same_nodes (sorted (nodes_of services.now)) members.now }
{
    services.len() == members.len() && are_served(services, members)
}

impl Definition {
    /// The number of the first rule that the definition breaks, None where it keeps all nine.
    pub fn fault(&self) -> Option<u8>
        ensures { result ≡ broken self.now }
    {
        let management = self.management.bytes().len();
        let name = self.name.bytes().len();
        let members = self.members.as_slice();
        let services = self.services.as_slice();
        if self.version != 1 && self.version != 2 {
            Some(1)
        } else if self.generation.0 == 0 {
            Some(2)
        } else if management < 1 || 32 < management {
            Some(3)
        } else if name < 1 || LONGEST_NAME < name {
            Some(4)
        } else if members.len() < 2 || 8 < members.len() {
            Some(5)
        } else if !nodes_ascend(members) {
            Some(6)
        } else if !are_scabbard(services) {
            Some(7)
        } else if !services_ascend(services) {
            Some(8)
        } else if !serve_exactly(services, members) {
            Some(9)
        } else {
            None
        }
    }

    /// Whether the node is a member.
    pub fn is_member(&self, node: &NodeId) -> bool
        ensures { result ≡ is_member self.now node.now }
    {
        self.members.as_slice().contains(node)
    }

    /// The coordinator of the admin group: the lowest member, which is the first one.
    #[tactic(auto, using(crate::proofs::Valid::admin_is_first))]
    pub fn admin_coordinator(&self) -> NodeId
        requires { broken self.now ≡ None }
        ensures { result ≡ admin self.now }
    {
        self.members.as_slice()[0]
    }

    /// The coordinator of the service group: the node of the lowest service, which is the first
    /// one.
    #[tactic(auto, using(crate::proofs::Valid::service_is_first))]
    pub fn service_coordinator(&self) -> NodeId
        requires { broken self.now ≡ None }
        ensures { result ≡ service self.now }
    {
        self.services.as_slice()[0].node
    }

    /// The service on the node; the first one where there are several.
    #[tactic(auto, using(crate::proofs::Ascents::services_more))]
    pub fn service_of(&self, node: &NodeId) -> Option<ServiceId>
        ensures { result ≡ service_of_node self.now.services node.now }
    {
        for service in self.services.as_slice() {
            if service.node == *node {
                return Some(service.id);
            }
        }
        None
    }
}
