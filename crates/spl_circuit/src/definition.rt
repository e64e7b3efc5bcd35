//! The definition of a circuit.
ghost use Rattle.std.specs.Prelude.{◌≡◌, ◌++◌, IsTrue, OnOk};

use spl_agree::Generation;
use spl_base::{
    CircuitId, Field, Label, Listing, Malformed, NodeId, Reader, ServiceId, Writer, put_list,
    take_list,
};
use std::alloc::{AllocError, Global};

/// A service of a circuit: its id, its type, and the node that it stands on.
#[derive(Drop)]
pub struct Service {
    pub id: ServiceId,
    pub kind: Label,
    pub node: NodeId,
}

/// The nodes of a circuit.
pub type Members = Listing<NodeId>;

/// The services of a circuit.
pub type Services = Listing<Service>;

/// What a circuit is: its members and the services on them.
#[derive(Drop)]
pub struct Definition {
    pub id: CircuitId,
    pub generation: Generation,
    pub version: u8,
    pub management: Label,
    pub name: Label,
    pub members: Members,
    pub services: Services,
}

impl Field for Service {
    ghost use Rattle.spl_circuit.specs.DefinitionForms.{service, exact_service};

    ghost form = { service };

    fn put_parts(&self, w: &mut Writer) -> Result<(), AllocError> {
        self.id.put_parts(w)?;
        self.kind.put_parts(w)?;
        self.node.put_parts(w)
    }

    fn take_parts(alloc: Global, r: &mut Reader) -> Result<Service, Malformed> {
        let id = ServiceId::take_parts(alloc, r)?;
        let kind = Label::take_parts(alloc, r)?;
        let node = NodeId::take_parts(alloc, r)?;
        Ok(Service { id, kind, node })
    }

    ghost exact = { exact_service };
}

impl Definition {
    ghost use Rattle.spl_circuit.specs.DefinitionForms.{lists};

    fn put_lists(&self, w: &mut Writer) -> Result<(), AllocError>
        requires { IsTrue (lists.bounded (self.now.members, self.now.services)) }
        ensures ok { OnOk result (w.new ≡ w.old ++ lists.spell (self.now.members, self.now.services)) }
        ensures fits { OnOk result (IsTrue (lists.fits (self.now.members, self.now.services))) }
    {
        put_list(self.members.as_slice(), w)?;
        put_list(self.services.as_slice(), w)
    }
}

impl Field for Definition {
    ghost use Rattle.spl_circuit.specs.DefinitionForms.{definition, exact_definition};

    ghost form = { definition };

    fn put_parts(&self, w: &mut Writer) -> Result<(), AllocError> {
        self.id.put_parts(w)?;
        self.generation.0.put_parts(w)?;
        self.version.put_parts(w)?;
        self.management.put_parts(w)?;
        self.name.put_parts(w)?;
        self.put_lists(w)
    }

    fn take_parts(alloc: Global, r: &mut Reader) -> Result<Definition, Malformed> {
        let id = CircuitId::take_parts(alloc, r)?;
        let generation = Generation(u32::take_parts(alloc, r)?);
        let version = u8::take_parts(alloc, r)?;
        let management = Label::take_parts(alloc, r)?;
        let name = Label::take_parts(alloc, r)?;
        let members = take_list(alloc, r, 16)?;
        let services = take_list(alloc, r, 16)?;
        Ok(Definition {
            id,
            generation,
            version,
            management,
            name,
            members,
            services,
        })
    }

    ghost exact = { exact_definition };
}
