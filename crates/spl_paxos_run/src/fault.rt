//! Why a run of Paxos Commit ended.
ghost use Rattle.std.specs.Prelude.{◌≡◌};
ghost use Rattle.spl_paxos_run.specs.declared.fault.PaxosFault.TheVariants.{NoMemory};

use spl_acceptor::Name;
use spl_journal::JournalFault;
use std::alloc::AllocError;

/// Why a run ended before its last line.
#[derive(Clone, Copy, PartialEq, Eq)]
pub enum PaxosFault {
    /// A schedule may not have the line of this number there, also for lack of its line feed.
    BadLine(u32),
    /// With the line the run would have more than the limit of this number allows: 1 is events, 2 is stops.
    TooMany { which: u8 },
    /// The disk of this process failed.
    Disk(Name),
    /// An answer could not be written.
    Write,
    /// Memory ran out.
    NoMemory,
}

impl From<AllocError> for PaxosFault {
    ghost from_gives = { λ _ e. e ≡ NoMemory };

    fn from(_: AllocError) -> Self {
        PaxosFault::NoMemory
    }
}

/// What the fault of a process's journal is to the run.
pub(crate) fn fault_at(name: Name, fault: JournalFault) -> PaxosFault
    ensures disk { fault ≡ JournalFault.Disk → result ≡ PaxosFault.Disk name }
    ensures other { (fault ≡ JournalFault.Disk → ⊥) → result ≡ PaxosFault.NoMemory }
{
    match fault {
        JournalFault::Disk => PaxosFault::Disk(name),
        _ => PaxosFault::NoMemory,
    }
}
