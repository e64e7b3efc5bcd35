//! Why a line has no answer.
ghost use Rattle.std.specs.Prelude.{◌≡◌, ℕ, false};
ghost use Rattle.spl_world.specs.{Disks.is_of_journal, Links.{carry_fault, is_of_links}, declared.fault.WorldFault.TheVariants.NoMemory};

use spl_base::{Boxed, Piece};
use spl_journal::JournalFault;
use spl_pump::PumpFault;
use std::alloc::AllocError;
use std::fmt;
use thiserror::Error;

/// Why a line has no answer. The world is halted then. The bytes of a lie are on the heap, so that a result with a fault
/// stays small.
#[derive(Drop, Error)]
pub enum WorldFault {
    /// The run would have more than the limit of this number allows: 1 is events.
    #[error("over limit {which}")]
    TooMany {
        which: u8,
    },
    /// A disk of the node at this position of the registry failed.
    #[error("a disk of node {position} failed")]
    Disk {
        position: u8,
    },
    /// The bytes that were read from the disks of the node at this position, where it was to come up,
    /// are no journal, and this is the place where they aren't one.
    #[error("the disks of node {position} hold no journal at {at}")]
    NotAJournal {
        position: u8,
        at: u64,
    },
    /// What carries messages between the nodes failed.
    #[error("a link failed")]
    Link,
    /// Where a message was to go between the nodes at these positions, other bytes came than were
    /// sent.
    #[error("other bytes came from node {from} to node {to} than were sent")]
    Lied {
        from: u8,
        to: u8,
        sent: Boxed<Piece>,
        got: Boxed<Piece>,
    },
    #[error("out of memory")]
    NoMemory,
}

impl fmt::Debug for WorldFault {
    fn fmt<W: fmt::Write>(&self, f: &mut fmt::Formatter<W>) -> fmt::Result {
        fmt::Display::fmt(self, f)
    }
}

impl From<AllocError> for WorldFault {
    ghost from_gives = { λ _ e. e ≡ NoMemory };

    fn from(_: AllocError) -> Self {
        WorldFault::NoMemory
    }
}

/// What a fault of the journal of the node at this position is to the world.
pub(crate) fn journal_fault(fault: JournalFault, position: u8) -> WorldFault
    ensures disk { (i : ℕ) → result ≡ WorldFault.Disk i → (i ≡ position) × (fault ≡ JournalFault.Disk) }
    ensures journal { (i at : ℕ) → result ≡ WorldFault.NotAJournal i at → (i ≡ position) × (fault ≡ JournalFault.NotAJournal at) }
    ensures sound { ((at : ℕ) → fault ≡ JournalFault.NotAJournal at → ⊥) → is_of_journal result ≡ false }
    ensures few { (which : ℕ) → result ≡ WorldFault.TooMany which → ⊥ }
    ensures unlinked { is_of_links result ≡ false }
{
    match fault {
        JournalFault::Disk => WorldFault::Disk { position },
        JournalFault::NotAJournal { at } => WorldFault::NotAJournal { position, at },
        JournalFault::NoMemory => WorldFault::NoMemory,
    }
}

/// What a fault of the carrier is to the world, where it was asked to carry a message between the
/// nodes at these positions.
pub(crate) fn carry_fault(fault: PumpFault, from: u8, to: u8) -> WorldFault
    ensures fault { result ≡ carry_fault from to fault }
    ensures sound { is_of_journal result ≡ false }
{
    match fault {
        PumpFault::Link => WorldFault::Link,
        PumpFault::Lied { sent, got } => WorldFault::Lied {
            from,
            to,
            sent,
            got,
        },
        PumpFault::NoMemory => WorldFault::NoMemory,
    }
}
