//! What is wrong with a registry.
ghost use Rattle.std.specs.Prelude.{◌≡◌};
ghost use Rattle.spl_registry.specs.declared.fault.RegistryFault.TheVariants.{NoMemory};

use std::alloc::{AllocError, AllocFailed};
use thiserror::Error;

/// Why bytes are no registry. Entries are numbered from 1.
#[derive(Clone, Copy, Debug, Drop, PartialEq, Eq, Error)]
pub enum RegistryFault {
    #[error("not TOML")]
    NotToml,
    #[error("entry {index}")]
    BadEntry { index: u32 },
    #[error("repeated {index}")]
    Repeated { index: u32 },
    /// More than 16; a count above 2^32 - 1 is reported as that.
    #[error("{count} entries")]
    TooMany { count: u32 },
    #[error("out of memory")]
    NoMemory,
}

impl From<AllocError> for RegistryFault {
    ghost from_gives = { λ _ e. e ≡ NoMemory };

    fn from(_: AllocError) -> Self {
        RegistryFault::NoMemory
    }
}

impl<T: Drop> From<AllocFailed<T>> for RegistryFault {
    ghost from_gives = { λ _ e. e ≡ NoMemory };

    fn from(_: AllocFailed<T>) -> Self {
        RegistryFault::NoMemory
    }
}
