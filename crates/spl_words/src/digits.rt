//! Bytes in two digits.
ghost use Rattle.std.specs.{Prelude.{◌≡◌, ◌≢◌, ◌<◌, ◌++◌, true, false, Some, OnOk, length, List, ℕ}, List.{flat_map, list_all}};
ghost use Rattle.spl_words.specs.{HexWords.is_lower_digit, Words.{hex_byte, hex_value, read_hex, read_hex_string, hex_string, Reads}};

use crate::fault::LineFault;
use crate::word::Word;
use hex::{decode, encode_to_slice};
use spl_base::{Piece, Writer};
use std::alloc::{AllocError, Global};

fn is_lower_digit(b: u8) -> bool
    ensures { result ≡ is_lower_digit b }
{
    matches!(b, b'0'..=b'9' | b'a'..=b'f')
}

// It looks at all bytes, so that many are tested at once.
fn are_digits(bytes: &[u8]) -> bool
    ensures { result ≡ list_all is_lower_digit bytes.now }
{
    let mut all = true;
    for b in bytes {
        all &= is_lower_digit(*b);
    }
    all
}

/// Reads as many bytes as there are cells, two digits for each, and says whether that is what the
/// digits spell.
pub fn read_cells(digits: &[u8], cells: &mut [u8]) -> bool
    ensures read { result ≡ true → read_hex_string digits.now ≡ Some cells.new }
    ensures unread { result ≡ false → (bytes : List ℕ) → read_hex_string digits.now ≡ Some bytes → length bytes ≢ length cells.old }
{
    if digits.len() % 2 != 0 || digits.len() / 2 != cells.len() {
        return false;
    }
    if !are_digits(digits) {
        return false;
    }
    for i in 0..cells.len() {
        cells[i] = 16 * value_of(digits[2 * i]) + value_of(digits[2 * i + 1]);
    }
    true
}

// What a digit counts.
fn value_of(digit: u8) -> u8
    requires digit { is_lower_digit digit ≡ true }
    ensures value { hex_value digit ≡ Some result }
    ensures small { result < 16 }
{
    digit % 16 + 9 * (digit / 64)
}

/// The byte that two digits spell.
fn read_hex(digits: &[u8]) -> Option<u8>
    ensures { result ≡ read_hex digits.now }
{
    let mut cells = [0];
    if read_cells(digits, &mut cells) {
        Some(cells[0])
    } else {
        None
    }
}

/// Appends the byte in two digits.
pub fn put_hex(b: u8, w: &mut Writer) -> Result<(), AllocError>
    ensures { OnOk result (w.new ≡ w.old ++ hex_byte b) }
{
    let mut digits = [0; 2];
    encode_to_slice([b].as_slice(), &mut digits).unwrap();
    w.put_raw(&digits)
}

/// The bytes that digits spell, two for each.
pub fn read_bytes(alloc: Global, digits: &[u8]) -> Result<Piece, LineFault>
    ensures { Reads result (hex_string.read digits.now) }
{
    if !are_digits(digits) {
        return Err(LineFault::BadLine);
    }
    match decode(alloc, digits) {
        Ok(bytes) => Ok(Piece::from_vec(bytes)),
        Err(fault) => Err(LineFault::from(fault)),
    }
}

/// Appends bytes, each in two digits.
pub fn put_bytes(bytes: &[u8], w: &mut Writer) -> Result<(), AllocError>
    ensures { OnOk result (w.new ≡ w.old ++ flat_map hex_byte bytes.now) }
{
    for b in bytes {
        put_hex(*b, w)?;
    }
    Ok(())
}

impl Word for Piece {
    ghost use Rattle.spl_words.specs.Words.{hex_string};

    type Value = Piece;

    ghost word = { hex_string };

    fn read(alloc: Global, bytes: &[u8]) -> Result<Piece, LineFault> {
        read_bytes(alloc, bytes)
    }

    fn put(value: &Piece, w: &mut Writer) -> Result<(), AllocError> {
        put_bytes(value.bytes(), w)
    }
}

/// A byte in two digits.
pub struct Hex;

impl Word for Hex {
    ghost use Rattle.spl_words.specs.Words.{hex};

    type Value = u8;

    ghost word = { hex };

    fn read(_alloc: Global, bytes: &[u8]) -> Result<u8, LineFault> {
        read_hex(bytes).ok_or(LineFault::BadLine)
    }

    fn put(value: &u8, w: &mut Writer) -> Result<(), AllocError> {
        put_hex(*value, w)
    }
}
