//! What is wrong with a stream of frames.
ghost use Rattle.std.specs.Prelude.{◌≡◌};
ghost use Rattle.spl_frame.specs.declared.fault.FrameFault.TheVariants.{NoMemory};

use std::alloc::{AllocError, AllocFailed};
use thiserror::Error;

/// Why no more frames are read.
#[derive(Clone, Copy, Debug, Drop, PartialEq, Eq, Error)]
pub enum FrameFault {
    #[error("out of memory")]
    NoMemory,
    /// The first two bytes of a header are not version 1.
    #[error("frame of version {found}")]
    BadVersion { found: u16 },
    /// A header announces a body of more than `LONGEST_BODY` bytes.
    #[error("frame of {length} bytes")]
    TooLong { length: u32 },
}

impl From<AllocError> for FrameFault {
    ghost from_gives = { λ _ e. e ≡ NoMemory };

    fn from(_e: AllocError) -> FrameFault {
        FrameFault::NoMemory
    }
}

impl<T: Drop> From<AllocFailed<T>> for FrameFault {
    ghost from_gives = { λ _ e. e ≡ NoMemory };

    fn from(_e: AllocFailed<T>) -> FrameFault {
        FrameFault::NoMemory
    }
}
