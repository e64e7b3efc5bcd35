//! Why a process that serves ends.
ghost use Rattle.std.specs.Prelude.{◌≡◌};
ghost use Rattle.spl_serve.specs.declared.fault.ServeFault.TheVariants.{NoMemory};

use crate::outside::PortFault;
use spl_journal::JournalFault;
use std::alloc::AllocError;

/// Why a process ends.
#[derive(Clone, Copy, PartialEq, Eq)]
pub enum ServeFault {
    /// A disk failed.
    Disk,
    /// Nothing comes and leaves any more.
    Ports,
    NoMemory,
}

impl From<AllocError> for ServeFault {
    ghost from_gives = { λ _ e. e ≡ NoMemory };

    fn from(_: AllocError) -> ServeFault {
        ServeFault::NoMemory
    }
}

impl From<JournalFault> for ServeFault {
    ghost use Rattle.spl_serve.specs.Faults.{fault_of_journal};

    ghost from_gives = { λ fault e. e ≡ fault_of_journal fault };

    fn from(fault: JournalFault) -> ServeFault {
        match fault {
            JournalFault::NoMemory => ServeFault::NoMemory,
            _ => ServeFault::Disk,
        }
    }
}

impl From<PortFault> for ServeFault {
    ghost use Rattle.spl_serve.specs.Faults.{fault_of_ports};

    ghost from_gives = { λ fault e. e ≡ fault_of_ports fault };

    fn from(fault: PortFault) -> ServeFault {
        match fault {
            PortFault::NoMemory => ServeFault::NoMemory,
            PortFault::Failed => ServeFault::Ports,
        }
    }
}
