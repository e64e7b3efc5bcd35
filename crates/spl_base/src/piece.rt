//! Byte strings.
ghost use Rattle.std.specs.Prelude.{◌≡◌, ◌≤◌, ◌<◌, ◌^◌, length, IfOk};

use crate::fault::Malformed;
use crate::field::Field;
use crate::reader::Reader;
use crate::short::Short;
use crate::writer::Writer;
use std::alloc::{AllocError, Global};
use std::marker::Model;

/// How many bytes a byte string has at most where it is read.
pub const LONGEST_PIECE: u16 = 8192;

/// How many bytes a byte string has at most that stands in the value itself.
const ROOM: usize = 15;

/// A byte string. A copy of at most 15 bytes takes no memory. Contracts see the bytes.
#[derive(Debug, Drop)]
pub struct Piece {
    bytes: Bytes,
}

#[derive(Debug, Drop)]
enum Bytes {
    Short(Short<ROOM>),
    Long(Vec<u8>),
}

impl Model for Piece {
    ghost use Rattle.std.specs.Prelude.{List, ℕ};
    ghost use Rattle.spl_base.specs.Pieces.{bytes_of};

    ghost Value = { List ℕ };

    ghost view = { λ a. bytes_of a.bytes };
}

impl Piece {
    /// The bytes of a vector, which moves into it.
    pub fn from_vec(bytes: Vec<u8>) -> Piece
        ensures { result ≡ bytes.items }
    {
        Piece {
            bytes: Bytes::Long(bytes),
        }
    }

    /// A copy of the bytes. The only error is that memory ran out.
    pub fn from(alloc: Global, bytes: &[u8]) -> Result<Piece, AllocError>
        ensures { IfOk result (λ p. p ≡ bytes.now) }
    {
        let bytes = if bytes.len() <= ROOM {
            Bytes::Short(Short::new(bytes))
        } else {
            Bytes::Long(Vec::from_slice(alloc, bytes)?)
        };
        Ok(Piece { bytes })
    }

    /// Its bytes.
    pub fn bytes(&self) -> &[u8]
        ensures { result.now ≡ self.now }
    {
        match &self.bytes {
            Bytes::Short(bytes) => bytes.bytes(),
            Bytes::Long(bytes) => bytes.as_slice(),
        }
    }
}

impl Field for Piece {
    ghost use Rattle.std.proofs.Common.{lit<};
    ghost use Rattle.spl_base.specs.{Form.string, FormLaws.exact_string, declared.piece.TheConstants.LONGEST_PIECE};

    ghost form = { string LONGEST_PIECE };

    #[tactic(auto, unfolding(crate::specs::Form::number_bytes))]
    fn put_parts(&self, w: &mut Writer) -> Result<(), AllocError> {
        w.put_text(self.bytes())
    }

    fn take_parts(alloc: Global, r: &mut Reader) -> Result<Piece, Malformed> {
        let bytes = r.take_text(LONGEST_PIECE)?;
        Ok(Piece::from(alloc, bytes)?)
    }

    ghost exact = { exact_string LONGEST_PIECE (lit< tt) };
}
