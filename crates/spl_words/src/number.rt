//! Numbers in decimal digits.
ghost use Rattle.std.specs.{Prelude.{◌≡◌, ◌++◌, ◌^◌, OnOk, IsTrue, decimal, MatchOption, SomeIff, ◌+◌, ◌-◌, ◌*◌, ◌<◌, ◌≤◌}, List.list_all};
ghost use Rattle.spl_base.specs.Ids.{is_digit};
ghost use Rattle.spl_words.specs.Words.{is_decimal, value, number};

use crate::fault::LineFault;
use crate::word::Word;
use spl_base::{BatchId, Writer};
use std::alloc::{AllocError, Global};

fn all_digits(bytes: &[u8]) -> bool
    ensures { result ≡ list_all is_digit bytes.now }
{
    bytes.iter().all(|b| b.is_ascii_digit())
}

fn is_decimal(bytes: &[u8]) -> bool
    ensures { result ≡ is_decimal bytes.now }
{
    !bytes.is_empty() && all_digits(bytes) && (bytes.len() == 1 || bytes[0] != b'0')
}

/// The number with one more digit, where it has 64 bits.
fn pushed(n: u64, digit: u8) -> Option<u64>
    requires { IsTrue (is_digit digit) }
    ensures { SomeIff result (n * 10 + (digit - 48) < 2 ^ 64) (n * 10 + (digit - 48)) }
{
    match n.checked_mul(10) {
        Some(tens) => tens.checked_add(u64::from(digit - b'0')),
        None => None,
    }
}

/// The number that digits stand for, where it has 64 bits.
fn value(digits: &[u8]) -> Option<u64>
    requires { IsTrue (list_all is_digit digits.now) }
    ensures { MatchOption result (2 ^ 64 ≤ value digits.now) (λ n. n ≡ value digits.now) }
{
    let mut n: u64 = 0;
    for b in digits {
        match pushed(n, *b) {
            Some(more) => n = more,
            None => return None,
        }
    }
    Some(n)
}

/// The number of 64 bits that the bytes spell.
fn number(bytes: &[u8]) -> Option<u64>
    ensures { result ≡ (number (2 ^ 64)).read bytes.now }
{
    if is_decimal(bytes) {
        value(bytes)
    } else {
        None
    }
}

/// Appends the number in decimal digits.
#[tactic(auto, using(std::proofs::lemmas::Fmt::decimal_digit))]
fn put_number(n: u64, w: &mut Writer) -> Result<(), AllocError>
    ensures { OnOk result (w.new ≡ w.old ++ decimal n) }
{
    if n < 10 {
        return w.put_u8(b'0' + n as u8);
    }
    put_number(n / 10, w)?;
    w.put_u8(b'0' + (n % 10) as u8)
}

impl Word for u32 {
    ghost use Rattle.std.specs.Prelude.{◌^◌};
    ghost use Rattle.spl_words.specs.Words.{number};

    type Value = u32;

    ghost word = { number (2 ^ 32) };

    fn read(_alloc: Global, bytes: &[u8]) -> Result<u32, LineFault> {
        match number(bytes) {
            Some(n) => u32::try_from(n).or(Err(LineFault::BadLine)),
            None => Err(LineFault::BadLine),
        }
    }

    fn put(value: &u32, w: &mut Writer) -> Result<(), AllocError> {
        put_number(u64::from(*value), w)
    }
}

impl Word for u8 {
    ghost use Rattle.std.specs.Prelude.{◌^◌};
    ghost use Rattle.spl_words.specs.Words.{number};

    type Value = u8;

    ghost word = { number (2 ^ 8) };

    fn read(_alloc: Global, bytes: &[u8]) -> Result<u8, LineFault> {
        match number(bytes) {
            Some(n) => u8::try_from(n).or(Err(LineFault::BadLine)),
            None => Err(LineFault::BadLine),
        }
    }

    fn put(value: &u8, w: &mut Writer) -> Result<(), AllocError> {
        put_number(u64::from(*value), w)
    }
}

impl Word for BatchId {
    ghost use Rattle.std.specs.Prelude.{◌^◌};
    ghost use Rattle.spl_words.specs.Words.{number};

    type Value = BatchId;

    ghost word = { number (2 ^ 64) };

    fn read(_alloc: Global, bytes: &[u8]) -> Result<BatchId, LineFault> {
        match number(bytes) {
            Some(n) => Ok(BatchId(n)),
            None => Err(LineFault::BadLine),
        }
    }

    fn put(value: &BatchId, w: &mut Writer) -> Result<(), AllocError> {
        put_number(value.0, w)
    }
}
