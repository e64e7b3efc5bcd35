//! Addresses and prefixes, as words.
ghost use Rattle.std.specs.Prelude.{◌≡◌};
ghost use Rattle.spl_words.specs.Words.{Reads};
ghost use Rattle.spl_sched.specs.Transactions.{prefix_word};

use spl_base::Writer;
use spl_state::{Address, Prefix};
use spl_words::{LineFault, Word, put_bytes, read_bytes, read_cells};
use std::alloc::{AllocError, Global};

/// An address, in digits.
pub(crate) struct AddressText;

impl Word for AddressText {
    ghost use Rattle.spl_sched.specs.Transactions.{address_word};

    type Value = Address;

    ghost word = { address_word };

    fn read(_alloc: Global, bytes: &[u8]) -> Result<Address, LineFault> {
        let mut cells = [0; 35];
        if !read_cells(bytes, &mut cells) {
            return Err(LineFault::BadLine);
        }
        Ok(Address(cells))
    }

    fn put(value: &Address, w: &mut Writer) -> Result<(), AllocError> {
        put_bytes(&value.0, w)
    }
}

/// The prefix that digits spell.
pub(crate) fn read_prefix(alloc: Global, digits: &[u8]) -> Result<Prefix, LineFault>
    ensures { Reads result (prefix_word.read digits.now) }
{
    let read = read_bytes(alloc, digits)?;
    Prefix::read(read.bytes()).ok_or(LineFault::BadLine)
}

/// A prefix in digits, `-` for the empty one.
pub(crate) struct PrefixText;

impl Word for PrefixText {
    ghost use Rattle.spl_sched.specs.Transactions.{dashed};

    type Value = Prefix;

    ghost word = { dashed };

    fn read(alloc: Global, bytes: &[u8]) -> Result<Prefix, LineFault> {
        if bytes == b"-".as_slice() {
            return Prefix::read(b"").ok_or(LineFault::BadLine);
        }
        let prefix = read_prefix(alloc, bytes)?;
        if prefix.bytes().is_empty() {
            return Err(LineFault::BadLine);
        }
        Ok(prefix)
    }

    fn put(value: &Prefix, w: &mut Writer) -> Result<(), AllocError> {
        if value.bytes().is_empty() {
            w.put_raw(b"-")
        } else {
            put_bytes(value.bytes(), w)
        }
    }
}
