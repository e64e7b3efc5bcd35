//! Why a line could not be read.
ghost use Rattle.std.specs.Prelude.{◌≡◌};
ghost use Rattle.spl_words.specs.declared.fault.LineFault.TheVariants.{NoMemory};

use hex::FromHexError;
use std::alloc::{AllocError, AllocFailed};
use thiserror::Error;

/// Why a line could not be read.
#[derive(Clone, Copy, Debug, PartialEq, Eq, Error)]
pub enum LineFault {
    #[error("out of memory")]
    NoMemory,
    /// The bytes are the spelling of no line.
    #[error("not a line of a schedule")]
    BadLine,
}

impl From<AllocError> for LineFault {
    ghost from_gives = { λ _ e. e ≡ NoMemory };

    fn from(_: AllocError) -> Self {
        LineFault::NoMemory
    }
}

impl<T: Drop> From<AllocFailed<T>> for LineFault {
    ghost from_gives = { λ _ e. e ≡ NoMemory };

    fn from(_: AllocFailed<T>) -> Self {
        LineFault::NoMemory
    }
}

impl From<FromHexError> for LineFault {
    ghost use Rattle.spl_words.specs.HexWords.{hex_fault};

    ghost from_gives = { λ fault e. e ≡ hex_fault fault };

    fn from(fault: FromHexError) -> Self {
        match fault {
            FromHexError::OutOfMemory => LineFault::NoMemory,
            _ => LineFault::BadLine,
        }
    }
}
