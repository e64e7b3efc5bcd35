//! Byte strings, which contracts see as lists.
ghost use Rattle.std.specs.Prelude.{◌≡◌, ◌≤◌, [], length, IfOk};

use std::alloc::{AllocError, Global};
use std::marker::Model;

/// How many bytes a byte string has at most that stands in the value itself.
const ROOM: usize = 15;

/// A value of a state. A copy of at most 15 bytes takes no memory.
#[derive(Drop)]
pub(crate) struct Piece {
    bytes: Bytes,
}

#[derive(Drop)]
enum Bytes {
    Short(Short),
    Long(Vec<u8>),
}

impl Model for Piece {
    ghost use Rattle.std.specs.Prelude.{List, ℕ};
    ghost use Rattle.spl_state.specs.declared.piece.Bytes.TheVariants.{Short, Long};

    ghost Value = { List ℕ };

    ghost view = { λ p. elim p.bytes as (λ b. List ℕ) [ Short bytes ↦ bytes | Long bytes ↦ bytes.items ] };
}

/// At most 15 bytes, the first of these cells.
#[derive(Drop)]
struct Short {
    cells: [u8; ROOM],
    count: u8,
}

impl Model for Short {
    ghost use Rattle.std.specs.Prelude.{List, ℕ, ◌≤◌, take};

    ghost Value = { List ℕ };

    ghost view = { λ s. take s.count s.cells };

    ghost invariant = { λ s. s.count ≤ 15 };
}

impl Short {
    fn new(bytes: &[u8]) -> Short
        requires { length bytes.now ≤ 15 }
        ensures { result ≡ bytes.now }
    {
        let mut cells = [0; ROOM];
        cells[..bytes.len()].copy_from_slice(bytes);
        Short {
            cells,
            count: bytes.len() as u8,
        }
    }

    fn bytes(&self) -> &[u8]
        ensures { result.now ≡ self.now }
    {
        &self.cells[..self.count as usize]
    }

    fn copy(&self) -> Short
        ensures { result ≡ self.now }
    {
        Short {
            cells: self.cells,
            count: self.count,
        }
    }
}

impl Piece {
    /// No byte. It takes no memory.
    pub(crate) fn none(alloc: Global) -> Piece
        ensures { result ≡ [] }
    {
        Piece {
            bytes: Bytes::Long(Vec::new(alloc)),
        }
    }

    /// These bytes.
    pub(crate) fn from(alloc: Global, bytes: &[u8]) -> Result<Piece, AllocError>
        ensures { IfOk result (λ p. p ≡ bytes.now) }
    {
        let bytes = if bytes.len() <= ROOM {
            Bytes::Short(Short::new(bytes))
        } else {
            Bytes::Long(Vec::from_slice(alloc, bytes)?)
        };
        Ok(Piece { bytes })
    }

    /// The bytes.
    pub(crate) fn bytes(&self) -> &[u8]
        ensures { result.now ≡ self.now }
    {
        match &self.bytes {
            Bytes::Short(bytes) => bytes.bytes(),
            Bytes::Long(bytes) => bytes.as_slice(),
        }
    }
}

impl Clone for Piece {
    ghost is_clone = { λ x y. y ≡ x };

    fn clone(&self) -> Result<Piece, AllocError> {
        match &self.bytes {
            Bytes::Short(bytes) => Ok(Piece {
                bytes: Bytes::Short(bytes.copy()),
            }),
            Bytes::Long(bytes) => Ok(Piece {
                bytes: Bytes::Long(bytes.clone()?),
            }),
        }
    }
}
