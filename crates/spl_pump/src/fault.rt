//! Why a message wasn't carried.
ghost use Rattle.std.specs.Prelude.{◌≡◌};
ghost use Rattle.spl_pump.specs.declared.fault.PumpFault.TheVariants.{NoMemory};

use spl_base::{Boxed, Piece};
use spl_edge::DeviceError;
use std::alloc::{AllocError, AllocFailed};

/// Why a message wasn't carried. After a fault nothing more is carried.
#[derive(Drop)]
pub enum PumpFault {
    /// The fabric failed.
    Link,
    /// Other bytes were taken than were put.
    Lied {
        sent: Boxed<Piece>,
        got: Boxed<Piece>,
    },
    NoMemory,
}

impl From<DeviceError> for PumpFault {
    ghost use Rattle.spl_pump.specs.Moves.{pump_fault};

    ghost from_gives = { λ d e. e ≡ pump_fault d };

    fn from(e: DeviceError) -> Self {
        match e {
            DeviceError::Failed => PumpFault::Link,
            DeviceError::NoMemory => PumpFault::NoMemory,
        }
    }
}

impl From<AllocError> for PumpFault {
    ghost from_gives = { λ _ e. e ≡ NoMemory };

    fn from(_: AllocError) -> Self {
        PumpFault::NoMemory
    }
}

impl<T: Drop> From<AllocFailed<T>> for PumpFault {
    ghost from_gives = { λ _ e. e ≡ NoMemory };

    fn from(_: AllocFailed<T>) -> Self {
        PumpFault::NoMemory
    }
}
