//! Why a call of the outside failed.
ghost use Rattle.std.specs.Prelude.{◌≡◌, ◌≤◌, ◌<◌, ◌↔◌, ◌-◌, ◌^◌};
ghost use Rattle.spl_edge.specs.{Devices.Rose, declared.fault.DeviceError.TheVariants.NoMemory};

use std::alloc::{AllocError, AllocFailed};
use thiserror::Error;

/// Why a call of the outside failed. `Failed` comes only where the object's count of faults rose in that call: a device
/// whose count has no room for one more answers `NoMemory`.
#[derive(Clone, Copy, Debug, PartialEq, Eq, Error)]
pub enum DeviceError {
    #[error("the device failed")]
    Failed,
    #[error("out of memory")]
    NoMemory,
}

impl From<AllocError> for DeviceError {
    ghost from_gives = { λ _ e. e ≡ NoMemory };

    fn from(_: AllocError) -> Self {
        DeviceError::NoMemory
    }
}

impl<T: Drop> From<AllocFailed<T>> for DeviceError {
    ghost from_gives = { λ _ e. e ≡ NoMemory };

    fn from(_: AllocFailed<T>) -> Self {
        DeviceError::NoMemory
    }
}

/// Counts a fault, and says what the call answers.
pub fn count_fault(faults: &mut u64) -> DeviceError
    ensures later { faults.old ≤ faults.new }
    ensures failed { result ≡ DeviceError.Failed → Rose faults.old faults.new }
    ensures room { (result ≡ DeviceError.Failed) ↔ (faults.old < 2 ^ 64 - 1) }
{
    match faults.checked_add(1) {
        Some(more) => {
            *faults = more;
            DeviceError::Failed
        }
        None => DeviceError::NoMemory,
    }
}
