//! A connection: its stream, and the bytes that wait to be written on it.
ghost use Rattle.std.specs.Prelude.{◌≤◌, length};

use crate::outbox::Outbox;
use crate::stream::Stream;
use mio::Poll;
use std::alloc::{AllocError, Global};
use std::io::ErrorKind;

/// How many writes are made on a connection at once, at most.
const MOST_WRITES: u32 = 256;

/// A connection that doesn't wait. The system tells once that there is something to read, or room to write, and not again
/// before a call had to give up.
#[derive(Drop)]
pub(crate) struct Connection {
    stream: Stream,
    /// By which the system names it; no other connection has it.
    token: usize,
    outbox: Outbox,
    /// When it was made, in milliseconds.
    since: u64,
    /// The two ends know each other.
    stands: bool,
    is_readable: bool,
    is_writable: bool,
    /// The other end sends no more.
    has_ended: bool,
    is_broken: bool,
}

impl Connection {
    /// A connection over a stream, which the system reports from now on; None where it can't.
    pub(crate) fn new(
        alloc: Global,
        poll: &Poll,
        stream: Stream,
        token: usize,
        now: u64,
    ) -> Option<Connection> {
        let mut stream = stream;
        stream.register(poll, token).ok()?;
        Some(Connection {
            stream,
            token,
            outbox: Outbox::new(alloc),
            since: now,
            stands: false,
            is_readable: true,
            is_writable: true,
            has_ended: false,
            is_broken: false,
        })
    }

    pub(crate) fn token(&self) -> usize {
        self.token
    }

    pub(crate) fn since(&self) -> u64 {
        self.since
    }

    /// Whether something may be read.
    pub(crate) fn may_read(&self) -> bool {
        self.stands && self.is_readable && !self.has_ended && !self.is_broken
    }

    /// Whether bytes wait to be written.
    pub(crate) fn waits(&self) -> bool {
        self.outbox.len() > 0
    }

    pub(crate) fn has_ended(&self) -> bool {
        self.has_ended
    }

    pub(crate) fn is_broken(&self) -> bool {
        self.is_broken
    }

    /// Takes nothing that comes from now on.
    pub(crate) fn end(&mut self) {
        self.has_ended = true;
    }

    /// Ends it at once.
    pub(crate) fn cut(&mut self) {
        self.is_broken = true;
    }

    /// The system told that something changed.
    pub(crate) fn wake(&mut self) {
        self.is_readable = true;
        self.is_writable = true;
    }

    /// Looks whether a connection that was begun stands.
    pub(crate) fn look(&mut self) {
        if self.stands || !self.is_writable {
            return;
        }
        match self.stream.stands() {
            Ok(true) => self.stands = true,
            Ok(false) => self.is_writable = false,
            Err(_) => self.is_broken = true,
        }
    }

    /// Puts bytes behind those that wait, all of them or none, and says whether there was room.
    pub(crate) fn put(&mut self, bytes: &[u8]) -> Result<bool, AllocError> {
        self.outbox.put(bytes)
    }

    // Writes once; says whether more may be written at once.
    fn write(&mut self) -> bool {
        match self.stream.write(self.outbox.waiting()) {
            Ok(0) => self.is_broken = true,
            Ok(count) => self.outbox.advance(count),
            Err(error) if error.kind() == ErrorKind::Interrupted => {}
            Err(error) if error.kind() == ErrorKind::WouldBlock => self.is_writable = false,
            Err(_) => self.is_broken = true,
        }
        self.is_writable && !self.is_broken
    }

    /// Writes what waits, as far as the system takes it.
    pub(crate) fn flush(&mut self) {
        if !self.stands || !self.is_writable || self.is_broken {
            return;
        }
        for _ in 0..MOST_WRITES {
            if !self.waits() || !self.write() {
                return;
            }
        }
    }

    /// Reads once, and says how many bytes came.
    pub(crate) fn read(&mut self, buf: &mut [u8]) -> usize
        ensures { result ≤ length buf.new }
    {
        if !self.may_read() {
            return 0;
        }
        match self.stream.read(buf) {
            Ok(0) => self.has_ended = true,
            Ok(count) => return count,
            Err(error) if error.kind() == ErrorKind::Interrupted => {}
            Err(error) if error.kind() == ErrorKind::WouldBlock => self.is_readable = false,
            Err(_) => self.has_ended = true,
        }
        0
    }
}
