//! What a journal's records are, and why a call of it failed.
ghost use Rattle.std.specs.Prelude.{◌≡◌, IfOk, IfSome, is_some, ℕ, List, Bool};
ghost use Rattle.spl_journal.specs.{Faults.fault_of, declared.form.JournalFault.TheVariants.NoMemory};

use spl_edge::DeviceError;
use std::alloc::{AllocError, Global};
use thiserror::Error;

/// A kind of records.
pub trait Form {
    /// Whether bytes are exactly one record.
    ghost is_record: { List ℕ → Bool };

    /// What a record is read as.
    type Read: Drop;

    /// The bytes of a record that was read.
    ghost bytes_of: { Self.Read → List ℕ };

    /// The record that bytes are, or None where they aren't one. The only error is that memory ran out.
    fn read(alloc: Global, bytes: Vec<u8>) -> Result<Option<Self::Read>, AllocError>
        ensures record { IfOk result (λ found. is_some found ≡ is_record bytes.items) }
        ensures bytes { IfOk result (λ found. IfSome found (λ r. bytes_of r ≡ bytes.items)) };
}

/// Why a call of a journal failed. `Disk` comes only where the disk's count of faults rose in that call.
#[derive(Clone, Copy, Debug, PartialEq, Eq, Error)]
pub enum JournalFault {
    #[error("the disk failed")]
    Disk,
    #[error("not a journal at {at}")]
    NotAJournal { at: u64 },
    #[error("out of memory")]
    NoMemory,
}

impl From<AllocError> for JournalFault {
    ghost from_gives = { λ _ e. e ≡ NoMemory };

    fn from(_: AllocError) -> Self {
        JournalFault::NoMemory
    }
}

impl From<DeviceError> for JournalFault {
    ghost from_gives = { λ fault e. e ≡ fault_of fault };

    fn from(fault: DeviceError) -> Self {
        fault_of(fault)
    }
}

/// The fault of a journal at a fault of its disk.
pub fn fault_of(fault: DeviceError) -> JournalFault
    ensures { result ≡ fault_of fault }
{
    match fault {
        DeviceError::Failed => JournalFault::Disk,
        DeviceError::NoMemory => JournalFault::NoMemory,
    }
}
