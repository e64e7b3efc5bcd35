//! The operators of a node, who ask it lines.
use crate::connection::Connection;
use crate::line_buffer::{LineBuffer, NextLine};
use crate::metrics::Asked;
use crate::stream::Stream;
use mio::Poll;
use mio::net::{UnixListener, UnixStream};
use spl_base::Piece;
use std::alloc::{AllocError, Global};
use std::io::ErrorKind;

/// How many operators are connected at most; the oldest gives way to the next.
const MOST: usize = 16;

/// What a line is answered that isn't one.
const BAD_LINE: &[u8] = b"bad line\n";

/// One operator: its next line is taken once the last one is answered.
#[derive(Drop)]
struct Operator {
    connection: Connection,
    lines: LineBuffer,
    /// A line of it was taken, and isn't answered yet.
    is_asking: bool,
    /// A line of it was too long.
    is_cut: bool,
}

impl Operator {
    fn new(alloc: Global, connection: Connection) -> Operator {
        Operator {
            connection,
            lines: LineBuffer::new(alloc),
            is_asking: false,
            is_cut: false,
        }
    }

    // Whether more may be taken without a wait.
    fn may_ask(&self) -> bool {
        !self.is_asking && (self.lines.has_line() || self.connection.may_read())
    }

    fn is_over(&self) -> bool {
        if self.connection.is_broken() {
            return true;
        }
        let is_quiet = !self.is_asking && !self.lines.has_line();
        self.connection.has_ended() && is_quiet && !self.connection.waits()
    }

    // The next line that was read already. A line that is too long is answered, and is the last one.
    fn take_line(&mut self, alloc: Global) -> Result<Option<Piece>, AllocError> {
        match self.lines.next(alloc)? {
            NextLine::Line(line) => {
                self.is_asking = true;
                Ok(Some(line))
            }
            NextLine::Part => Ok(None),
            NextLine::TooLong => {
                self.is_cut = true;
                self.lines.clear();
                self.connection.end();
                self.tell(BAD_LINE)?;
                Ok(None)
            }
        }
    }

    // The next line; reads once where none was read already.
    fn next(&mut self, alloc: Global, buf: &mut [u8]) -> Result<Option<Piece>, AllocError> {
        if self.is_asking || self.connection.is_broken() {
            return Ok(None);
        }
        if let Some(line) = self.take_line(alloc)? {
            return Ok(Some(line));
        }
        let count = self.connection.read(buf);
        if count == 0 {
            return Ok(None);
        }
        self.lines.feed(&buf[..count])?;
        self.take_line(alloc)
    }

    // Whether a line of it was too long since this was asked last.
    fn take_cut(&mut self) -> bool {
        let was = self.is_cut;
        self.is_cut = false;
        was
    }

    // Puts a text; one who reads too little of what it is told is cut off.
    fn tell(&mut self, text: &[u8]) -> Result<(), AllocError> {
        if !self.connection.put(text)? {
            self.connection.cut();
        }
        Ok(())
    }
}

/// The operators that are connected, and the socket where they come.
#[derive(Drop)]
pub(crate) struct Operators {
    listener: UnixListener,
    is_ready: bool,
    all: Vec<Operator>,
    turn: usize,
    asked: Asked,
}

impl Operators {
    pub(crate) fn new(alloc: Global, listener: UnixListener) -> Operators {
        Operators {
            listener,
            is_ready: true,
            all: Vec::new(alloc),
            turn: 0,
            asked: Asked::new(),
        }
    }

    /// What they asked so far.
    pub(crate) fn asked(&self) -> Asked {
        self.asked
    }

    /// Somebody may have come.
    pub(crate) fn ring(&mut self) {
        self.is_ready = true;
    }

    /// Whether somebody may wait to come in.
    pub(crate) fn is_ready(&self) -> bool {
        self.is_ready
    }

    /// The next one who came.
    pub(crate) fn accept(&mut self) -> Option<UnixStream> {
        match self.listener.accept() {
            Ok((stream, _)) => Some(stream),
            Err(error) => {
                self.is_ready = error.kind() != ErrorKind::WouldBlock;
                None
            }
        }
    }

    /// Takes one in, and lets the oldest go where there are too many.
    pub(crate) fn admit(
        &mut self,
        alloc: Global,
        poll: &Poll,
        stream: UnixStream,
        token: usize,
        now: u64,
    ) -> Result<(), AllocError> {
        if self.all.len() >= MOST {
            let _ = self.all.remove(0);
        }
        if let Some(connection) = Connection::new(
            alloc,
            poll,
            Stream::Operator(stream),
            token,
            now,
        ) {
            self.all.push(Operator::new(alloc, connection))?;
            self.asked.add_operator();
        }
        Ok(())
    }

    /// The system told that something changed on a connection.
    pub(crate) fn wake(&mut self, token: usize) {
        for operator in self.all.iter_mut() {
            if operator.connection.token() == token {
                operator.connection.wake();
            }
        }
    }

    /// Looks which connections stand, and drops those that are over.
    pub(crate) fn look(&mut self) {
        for operator in self.all.iter_mut() {
            operator.connection.look();
        }
        self.all.retain(|operator| !operator.is_over());
    }

    pub(crate) fn flush(&mut self) {
        for operator in self.all.iter_mut() {
            operator.connection.flush();
        }
    }

    /// Whether an answer waits to be written.
    pub(crate) fn waits(&self) -> bool {
        self.all.iter().any(|operator| {
            operator.connection.waits() && !operator.connection.is_broken()
        })
    }

    /// Whether a line may be taken without a wait.
    pub(crate) fn may_ask(&self) -> bool {
        self.all.iter().any(|operator| operator.may_ask())
    }

    /// The next line, of one operator after another, and the number of its connection.
    pub(crate) fn next(
        &mut self,
        alloc: Global,
        buf: &mut [u8],
    ) -> Result<Option<(usize, Piece)>, AllocError> {
        for _ in 0..MOST {
            self.turn = self.turn.wrapping_add(1) % MOST;
            if let Some(operator) = self.all.get_mut(self.turn) {
                if let Some(line) = operator.next(alloc, buf)? {
                    self.asked.add_line();
                    return Ok(Some((operator.connection.token(), line)));
                }
                if operator.take_cut() {
                    self.asked.add_line();
                    self.asked.add_bad_line();
                }
            }
        }
        Ok(None)
    }

    /// Answers the line of an operator, who may ask the next one then. One who went away is told nothing.
    pub(crate) fn answer(&mut self, caller: usize, text: &[u8]) -> Result<(), AllocError> {
        if text == BAD_LINE {
            self.asked.add_bad_line();
        }
        for operator in self.all.iter_mut() {
            if operator.connection.token() == caller {
                operator.is_asking = false;
                operator.tell(text)?;
            }
        }
        Ok(())
    }
}
