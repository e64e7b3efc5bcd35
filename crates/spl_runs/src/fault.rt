//! How a run ended.
ghost use Rattle.std.specs.Prelude.{◌≡◌};
ghost use Rattle.spl_runs.specs.{Faults.{run_fault, world_fault}, declared.fault.RunFault.TheVariants.{NoMemory, World, Write}};

use spl_edge::DeviceError;
use spl_world::WorldFault;
use std::alloc::AllocError;

/// How a run ended that ran all lines given.
#[derive(Clone, Copy, PartialEq, Eq)]
pub enum RunEnd {
    /// The source is at its end, and nothing stands after its last line.
    Whole,
    /// The source gave too many bytes.
    TooLong,
    /// The source failed.
    Read,
}

/// Why a run ended before its last line.
#[derive(Drop)]
pub enum RunFault {
    /// A schedule may not have the line of this number there, also for lack of its line feed.
    BadLine(u32),
    /// A line, or the calm after it, ended with this error, which is none of memory.
    World(WorldFault),
    /// An answer could not be written.
    Write,
    /// Memory ran out.
    NoMemory,
}

impl From<AllocError> for RunFault {
    ghost from_gives = { λ _ e. e ≡ NoMemory };

    fn from(_: AllocError) -> Self {
        RunFault::NoMemory
    }
}

impl From<WorldFault> for RunFault {
    ghost from_gives = { λ fault e. e ≡ world_fault fault };

    fn from(fault: WorldFault) -> Self {
        match fault {
            WorldFault::NoMemory => RunFault::NoMemory,
            fault => RunFault::World(fault),
        }
    }
}

impl From<DeviceError> for RunFault {
    ghost from_gives = { λ fault e. e ≡ run_fault fault };

    fn from(fault: DeviceError) -> Self {
        match fault {
            DeviceError::Failed => RunFault::Write,
            DeviceError::NoMemory => RunFault::NoMemory,
        }
    }
}
