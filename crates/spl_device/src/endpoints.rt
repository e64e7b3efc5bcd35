//! The registry of a run over links, from which its streams have their endpoints.

use crate::file_source::FileSource;
use spl_edge::{ReadEnd, read_all};
use spl_registry::{Registry, RegistryFault};
use std::alloc::{AllocError, Global};
use std::io::Read;

/// The most bytes of a registry.
const LIMIT: usize = 67_108_864;

/// The registry that a source gives, where it gives one. An error comes where memory runs out.
pub fn registry_of<R: Read + Drop>(
    alloc: Global,
    source: &mut FileSource<R>,
) -> Result<Option<Registry>, AllocError> {
    let reading = read_all(alloc, LIMIT, source);
    match reading.end {
        ReadEnd::Whole => {}
        ReadEnd::NoMemory => return Err(AllocError),
        ReadEnd::TooLong | ReadEnd::Fault => return Ok(None),
    }
    match Registry::read(alloc, &reading.bytes) {
        Ok(registry) => Ok(Some(registry)),
        Err(RegistryFault::NoMemory) => Err(AllocError),
        Err(_) => Ok(None),
    }
}
