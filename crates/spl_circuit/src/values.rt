//! Definitions and acts are compared and copied.
use crate::act::{Act, ActKind};
use crate::definition::{Definition, Service};
use spl_base::Value;
use std::alloc::{AllocError, Global};

impl Value for Service {
    fn same(&self, other: &Service) -> bool {
        self.id.same(&other.id) && self.kind.same(&other.kind) && self.node.same(&other.node)
    }

    fn copy(&self, alloc: Global) -> Result<Service, AllocError> {
        Ok(Service {
            id: self.id,
            kind: self.kind,
            node: self.node,
        })
    }
}

impl Value for Definition {
    fn same(&self, other: &Definition) -> bool {
        self.id.same(&other.id)
            && self.generation.0 == other.generation.0
            && self.version == other.version
            && self.management.same(&other.management)
            && self.name.same(&other.name)
            && self.members.same(&other.members)
            && self.services.same(&other.services)
    }

    fn copy(&self, alloc: Global) -> Result<Definition, AllocError> {
        Ok(Definition {
            id: self.id,
            generation: self.generation,
            version: self.version,
            management: self.management,
            name: self.name,
            members: self.members.copy(alloc)?,
            services: self.services.copy(alloc)?,
        })
    }
}

impl Value for ActKind {
    fn same(&self, other: &ActKind) -> bool {
        match (self, other) {
            (ActKind::Propose(a), ActKind::Propose(b)) => a.same(b),
            (ActKind::Accept, ActKind::Accept) => true,
            (ActKind::Reject, ActKind::Reject) => true,
            (ActKind::Remove, ActKind::Remove) => true,
            (ActKind::Disband, ActKind::Disband) => true,
            (ActKind::DisbandAccept(a), ActKind::DisbandAccept(b)) => a.0 == b.0,
            (ActKind::DisbandReject(a), ActKind::DisbandReject(b)) => a.0 == b.0,
            (ActKind::DisbandRemove(a), ActKind::DisbandRemove(b)) => a.0 == b.0,
            _ => false,
        }
    }

    fn copy(&self, alloc: Global) -> Result<ActKind, AllocError> {
        match self {
            ActKind::Propose(d) => Ok(ActKind::Propose(d.copy(alloc)?)),
            ActKind::Accept => Ok(ActKind::Accept),
            ActKind::Reject => Ok(ActKind::Reject),
            ActKind::Remove => Ok(ActKind::Remove),
            ActKind::Disband => Ok(ActKind::Disband),
            ActKind::DisbandAccept(place) => Ok(ActKind::DisbandAccept(*place)),
            ActKind::DisbandReject(place) => Ok(ActKind::DisbandReject(*place)),
            ActKind::DisbandRemove(place) => Ok(ActKind::DisbandRemove(*place)),
        }
    }
}

impl Value for Act {
    fn same(&self, other: &Act) -> bool {
        self.node.same(&other.node) && self.turn == other.turn && self.kind.same(&other.kind)
    }

    fn copy(&self, alloc: Global) -> Result<Act, AllocError> {
        Ok(Act {
            node: self.node,
            turn: self.turn,
            kind: self.kind.copy(alloc)?,
        })
    }
}
