//! The nodes and the circuits of a generated schedule.
ghost use Rattle.std.specs.Prelude.{◌≡◌, ◌≤◌, IsTrue, IfOk, length};
ghost use Rattle.spl_base.specs.Ids.{is_label};
ghost use Rattle.spl_gen.specs.Circuits.{generated_node, generated_service, id, circuit_name, circuit_members, circuit_member, generated_definition};
ghost use Rattle.spl_gen.specs.Circuits.{batch_circuit};

use spl_agree::Generation;
use spl_base::{CircuitId, Label, Listing, NodeId, ServiceId};
use spl_circuit::{Definition, Service};
use std::alloc::{AllocError, Global};

/// The id of the node with this number: its last digit counts.
pub(crate) fn node(number: u8) -> NodeId
    ensures { result ≡ generated_node number }
{
    NodeId::read(&[b'n', b'0' + number % 10]).unwrap()
}

fn service_id(number: u8) -> ServiceId
    ensures { result ≡ (generated_service number).id }
{
    ServiceId::read(&[b's', b'0', b'0', b'0' + number % 10]).unwrap()
}

fn label(text: &[u8]) -> Label
    requires { IsTrue (is_label text.now) }
    ensures { result ≡ text.now }
{
    Label::read(text).unwrap()
}

fn service(number: u8) -> Service
    ensures { result ≡ generated_service number }
{
    Service {
        id: service_id(number),
        kind: label(b"scabbard"),
        node: node(number),
    }
}

/// A circuit of a generated schedule.
#[derive(Clone, Copy, Drop)]
pub(crate) enum Circuit {
    First,
    Second,
    Third,
}

impl Circuit {
    /// The circuit of a batch, by the batch's number.
    pub(crate) fn of(batch: u64) -> Circuit
        ensures { result ≡ batch_circuit batch }
    {
        match batch % 3 {
            1 => Circuit::First,
            2 => Circuit::Second,
            _ => Circuit::Third,
        }
    }

    /// Its id.
    pub(crate) fn id(self) -> CircuitId
        ensures { result ≡ id self }
    {
        let bytes = match self {
            Circuit::First => b"Gener-00001",
            Circuit::Second => b"Gener-00002",
            Circuit::Third => b"Gener-00003",
        };
        CircuitId::read(bytes).unwrap()
    }

    fn name(self) -> Label
        ensures { result ≡ circuit_name self }
    {
        match self {
            Circuit::First => label(b"first"),
            Circuit::Second => label(b"second"),
            Circuit::Third => label(b"third"),
        }
    }

    /// The numbers of its members.
    pub(crate) fn members(self) -> &'static [u8]
        ensures value { result.now ≡ circuit_members self }
        ensures some { 1 ≤ length result.now }
    {
        match self {
            Circuit::First => &[1, 2],
            Circuit::Second => &[2, 3, 4],
            Circuit::Third => &[1, 2, 3, 4],
        }
    }

    /// The number of the member at this position, counted round.
    pub(crate) fn member(self, position: u32) -> u8
        ensures { result ≡ circuit_member self position }
    {
        let members = self.members();
        members[position as usize % members.len()]
    }

    /// Its definition.
    pub(crate) fn definition(self, alloc: Global) -> Result<Definition, AllocError>
        ensures { IfOk result (λ d. d ≡ generated_definition self) }
    {
        let mut members = Listing::new(alloc);
        let mut services = Listing::new(alloc);
        for number in self.members() {
            members.push(node(*number))?;
            services.push(service(*number))?;
        }
        Ok(Definition {
            id: self.id(),
            generation: Generation(1),
            version: 1,
            management: label(b"gen"),
            name: self.name(),
            members,
            services,
        })
    }
}
