//! Why bytes could not be read.
ghost use Rattle.std.specs.Prelude.{◌≡◌};
ghost use Rattle.spl_base.specs.declared.fault.Malformed.TheVariants.{NoMemory, At};

use std::alloc::{AllocError, AllocFailed};

/// A field that could not be taken.
#[derive(Clone, Copy, PartialEq, Eq)]
pub enum FieldFault {
    /// Too few bytes remain for the field that begins here.
    Short { at: usize },
    /// A length is above its bound.
    TooLong { at: usize },
}

impl FieldFault {
    ghost use Rattle.spl_base.specs.Form.{place_of};

    /// Where the field begins.
    pub fn at(self) -> usize
        ensures { result ≡ place_of self }
    {
        match self {
            FieldFault::Short { at } => at,
            FieldFault::TooLong { at } => at,
        }
    }
}

/// Why a value could not be read from the beginning of bytes.
#[derive(Clone, Copy, PartialEq, Eq)]
pub enum Malformed {
    /// Memory ran out.
    NoMemory,
    /// The first unreadable field begins here.
    At { at: usize },
}

impl From<AllocError> for Malformed {
    ghost from_gives = { λ _ e. e ≡ NoMemory };

    fn from(_e: AllocError) -> Malformed {
        Malformed::NoMemory
    }
}

impl<T: Drop> From<AllocFailed<T>> for Malformed {
    ghost from_gives = { λ _ e. e ≡ NoMemory };

    fn from(_e: AllocFailed<T>) -> Malformed {
        Malformed::NoMemory
    }
}

impl From<FieldFault> for Malformed {
    ghost use Rattle.std.specs.Prelude.{◌≡◌};
    ghost use Rattle.spl_base.specs.{Form.place_of, declared.fault.Malformed.TheVariants.At};

    ghost from_gives = { λ f e. e ≡ At (place_of f) };

    fn from(e: FieldFault) -> Malformed {
        Malformed::At { at: e.at() }
    }
}
