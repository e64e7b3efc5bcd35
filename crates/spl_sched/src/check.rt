//! The words of a line that checks a proof.
ghost use Rattle.std.specs.{Prelude.{◌≡◌, ◌++◌, OnOk}, List.join_with_byte, Option.option_map};
ghost use Rattle.spl_sched.specs.Checks.{check, check_of, words_of_check};
ghost use Rattle.spl_sched.specs.declared.line.Line.TheVariants as line;
ghost use Rattle.spl_words.specs.Words.{Reads};

use crate::address::AddressText;
use crate::line::{Line, ProofCheck};
use spl_base::{Boxed, Piece, Writer};
use spl_words::{
    LineFault, Word, WordReader, after, put_bytes, put_next, read_bytes, read_cells, take,
};
use std::alloc::{AllocError, Global};

/// A root, in digits.
struct RootText;

impl Word for RootText {
    ghost use Rattle.spl_sched.specs.Checks.{root};

    type Value = [u8; 32];

    ghost word = { root };

    fn read(_alloc: Global, bytes: &[u8]) -> Result<[u8; 32], LineFault> {
        let mut cells = [0; 32];
        if !read_cells(bytes, &mut cells) {
            return Err(LineFault::BadLine);
        }
        Ok(cells)
    }

    fn put(value: &[u8; 32], w: &mut Writer) -> Result<(), AllocError> {
        put_bytes(value, w)
    }
}

/// A claimed value in digits after `=`, or `-` for none.
struct ClaimText;

impl Word for ClaimText {
    ghost use Rattle.spl_sched.specs.Checks.{claim};

    type Value = Option<Piece>;

    ghost word = { claim };

    fn read(alloc: Global, bytes: &[u8]) -> Result<Option<Piece>, LineFault> {
        if bytes == b"-".as_slice() {
            return Ok(None);
        }
        match after(b"=", bytes) {
            Some(digits) => Ok(Some(Piece::read(alloc, digits)?)),
            None => Err(LineFault::BadLine),
        }
    }

    fn put(value: &Option<Piece>, w: &mut Writer) -> Result<(), AllocError> {
        match value {
            Some(bytes) => {
                w.put_raw(b"=")?;
                put_bytes(bytes.bytes(), w)
            }
            None => w.put_raw(b"-"),
        }
    }
}

/// Bytes in digits, at least one.
struct FilledText;

impl Word for FilledText {
    ghost use Rattle.spl_sched.specs.Checks.{nonempty_hex};

    type Value = Piece;

    ghost word = { nonempty_hex };

    fn read(alloc: Global, bytes: &[u8]) -> Result<Piece, LineFault> {
        let read = read_bytes(alloc, bytes)?;
        if read.bytes().is_empty() {
            return Err(LineFault::BadLine);
        }
        Ok(read)
    }

    fn put(value: &Piece, w: &mut Writer) -> Result<(), AllocError> {
        put_bytes(value.bytes(), w)
    }
}

/// The line that the words after `check` spell.
pub(crate) fn read_check(alloc: Global, words: &mut WordReader) -> Result<Line, LineFault>
    ensures { Reads result (option_map (λ x. line.Check (check_of x)) (check.read words.old)) }
{
    let root = take::<RootText>(alloc, words)?;
    let address = take::<AddressText>(alloc, words)?;
    let claim = take::<ClaimText>(alloc, words)?;
    let bytes = take::<FilledText>(alloc, words)?;
    words.end()?;
    let check = ProofCheck {
        root,
        address,
        claim,
        bytes,
    };
    Ok(Line::Check(Boxed::new(alloc, check)?))
}

/// Appends the words of a check, with spaces between them.
pub(crate) fn put_check(check: &ProofCheck, w: &mut Writer) -> Result<(), AllocError>
    ensures { OnOk result (w.new ≡ w.old ++ join_with_byte 32 (words_of_check check.now)) }
{
    w.put_raw(b"check")?;
    put_next::<RootText>(&check.root, w)?;
    put_next::<AddressText>(&check.address, w)?;
    put_next::<ClaimText>(&check.claim, w)?;
    put_next::<FilledText>(&check.bytes, w)
}
