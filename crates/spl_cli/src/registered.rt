//! The nodes of a run: those of the registry that a source gives.
ghost use Rattle.std.specs.{Prelude.{◌≡◌, ◌≤◌, Ok, length, IfErr, IfOk, OnOk}, Io.KnownBytes.Consumes};
ghost use Rattle.spl_edge.specs.Sources.{given};
ghost use Rattle.spl_registry.specs.Nodes.{registry_of};
ghost use Rattle.spl_cli.specs.Registered.{EndsReading, IsRegistryRead};

use crate::Status;
use spl_edge::{MOST_BYTES, ReadEnd, Source, read_all};
use spl_registry::{Registry, RegistryFault};
use std::alloc::Global;

/// A registry has at most sixteen nodes.
pub fn registries_are_small(registry: &Registry)
    ensures { length registry.now ≤ 16 }
{
    registry.len();
}

/// The registry that a source gives, or the status of a run that its reading ends.
pub fn read_registry<S: Source>(alloc: Global, registry: &mut S) -> Result<Registry, Status>
    ensures read { OnOk result (IsRegistryRead (given (S.view registry.old) (S.view registry.new)) (S.view registry.new).left) }
    ensures entries { IfOk result (λ r. registry_of (given (S.view registry.old) (S.view registry.new)) ≡ Ok r) }
    ensures ended { IfErr result (λ s. EndsReading s (S.view registry.old) (S.view registry.new)) }
    ensures taken { Consumes (S.view registry.old).left (S.view registry.new).left (given (S.view registry.old) (S.view registry.new)) }
{
    let reading = read_all(alloc, MOST_BYTES, registry);
    match reading.end {
        ReadEnd::Whole => match Registry::read(alloc, &reading.bytes) {
            Ok(found) => Ok(found),
            Err(RegistryFault::NoMemory) => Err(Status::NoMemory),
            Err(fault) => Err(Status::BadRegistry(fault)),
        },
        ReadEnd::TooLong => Err(Status::TooLong),
        ReadEnd::Fault => Err(Status::ReadFault),
        ReadEnd::NoMemory => Err(Status::NoMemory),
    }
}
