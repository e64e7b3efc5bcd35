//! Why bodies aren't those of messages.
ghost use Rattle.std.specs.Prelude.{◌≡◌};
ghost use Rattle.spl_fragments.specs.declared.fault.JoinFault.TheVariants.{NoMemory};

use spl_base::Malformed;
use std::alloc::{AllocError, AllocFailed};
use thiserror::Error;

/// Why no more messages are read.
#[derive(Clone, Copy, Debug, Drop, PartialEq, Eq, Error)]
pub enum JoinFault {
    /// A body is neither a message nor a part, or doesn't come where it may.
    #[error("bad part")]
    BadPart,
    /// The parts of a message have more than `LONGEST_MESSAGE` bytes.
    #[error("message of {length} bytes")]
    TooLong { length: usize },
    /// The bytes aren't exactly one message: the first unreadable field begins here, or the message ends here and bytes
    /// follow it.
    #[error("malformed message at {at}")]
    Malformed { at: usize },
    #[error("out of memory")]
    NoMemory,
}

impl From<AllocError> for JoinFault {
    ghost from_gives = { λ _ e. e ≡ NoMemory };

    fn from(_e: AllocError) -> JoinFault {
        JoinFault::NoMemory
    }
}

impl<T: Drop> From<AllocFailed<T>> for JoinFault {
    ghost from_gives = { λ _ e. e ≡ NoMemory };

    fn from(_e: AllocFailed<T>) -> JoinFault {
        JoinFault::NoMemory
    }
}

impl From<Malformed> for JoinFault {
    ghost use Rattle.spl_fragments.specs.Joining.{join_fault};

    ghost from_gives = { λ m e. e ≡ join_fault m };

    fn from(e: Malformed) -> JoinFault {
        match e {
            Malformed::At { at } => JoinFault::Malformed { at },
            Malformed::NoMemory => JoinFault::NoMemory,
        }
    }
}
