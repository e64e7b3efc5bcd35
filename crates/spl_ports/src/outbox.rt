//! Bytes that wait to be written.
ghost use Rattle.std.specs.Prelude.{◌≡◌, ◌≢◌, ◌≤◌, ◌+◌, ◌++◌, [], drop, length, Ok, true, OnErr};
ghost use Rattle.spl_ports.specs.declared.outbox.TheConstants.{MOST_WAITING};

use crate::front::drop_front;
use std::alloc::{AllocError, Global};
use std::marker::Model;

/// How many bytes wait at most on a connection.
pub(crate) const MOST_WAITING: usize = 4_194_304;

/// Bytes that wait to be written on a connection, in their order. Contracts see them.
#[derive(Drop)]
pub(crate) struct Outbox {
    bytes: Vec<u8>,
    start: usize,
}

impl Model for Outbox {
    ghost use Rattle.std.specs.Prelude.{List, ℕ, drop, vec_len, ◌≤◌};

    ghost Value = { List ℕ };

    ghost view = { λ o. drop o.start o.bytes.items };

    ghost invariant = { λ o. o.start ≤ vec_len o.bytes };
}

impl Outbox {
    pub(crate) fn new(alloc: Global) -> Outbox
        ensures { result ≡ [] }
    {
        Outbox {
            bytes: Vec::new(alloc),
            start: 0,
        }
    }

    pub(crate) fn len(&self) -> usize
        ensures { result ≡ length self.now }
    {
        self.bytes.len() - self.start
    }

    pub(crate) fn waiting(&self) -> &[u8]
        ensures { result.now ≡ self.now }
    {
        &self.bytes[self.start..]
    }

    /// So many of them were written.
    pub(crate) fn advance(&mut self, count: usize)
        requires { count ≤ length self.old }
        ensures { self.new ≡ drop count self.old }
    {
        self.start += count;
    }

    /// Drops what was written, once that is no less than what waits, so that each byte is moved once at most.
    fn shift(&mut self)
        ensures { self.new ≡ self.old }
    {
        let rest = self.bytes.len() - self.start;
        if self.start < rest {
            return;
        }
        drop_front(&mut self.bytes, self.start);
        self.start = 0;
    }

    /// Puts bytes behind those that wait, all of them or none, and says whether there was room.
    pub(crate) fn put(&mut self, bytes: &[u8]) -> Result<bool, AllocError>
        ensures put { result ≡ Ok true → self.new ≡ self.old ++ bytes.now }
        ensures room { result ≡ Ok true → length self.old + length bytes.now ≤ MOST_WAITING }
        ensures dropped { result ≢ Ok true → self.new ≡ self.old }
    {
        let waiting = self.len();
        if waiting > MOST_WAITING || bytes.len() > MOST_WAITING - waiting {
            return Ok(false);
        }
        self.shift();
        self.bytes.extend_from_slice(bytes)?;
        Ok(true)
    }
}
