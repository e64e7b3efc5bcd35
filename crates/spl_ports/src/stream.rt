//! A stream of the system that doesn't wait.
ghost use Rattle.std.specs.Prelude.{◌≤◌, length, IfOk};

use mio::net::{TcpStream, UnixStream};
use mio::{Interest, Poll, Token};
use std::io;
use std::io::{Read, Write};

/// A stream to a peer, or to an operator.
#[derive(Drop)]
pub(crate) enum Stream {
    Peer(TcpStream),
    Operator(UnixStream),
}

impl Stream {
    pub(crate) fn read(&mut self, buf: &mut [u8]) -> io::Result<usize>
        ensures { IfOk result (λ n. n ≤ length buf.new) }
    {
        match self {
            Stream::Peer(stream) => stream.read(buf),
            Stream::Operator(stream) => stream.read(buf),
        }
    }

    pub(crate) fn write(&mut self, bytes: &[u8]) -> io::Result<usize>
        ensures { IfOk result (λ n. n ≤ length bytes.now) }
    {
        match self {
            Stream::Peer(stream) => stream.write(bytes),
            Stream::Operator(stream) => stream.write(bytes),
        }
    }

    /// From now on the poll tells by this token where there is something to read or room to write.
    pub(crate) fn register(&mut self, poll: &Poll, token: usize) -> io::Result<()> {
        let both = Interest::READABLE | Interest::WRITABLE;
        match self {
            Stream::Peer(stream) => poll.registry().register(stream, Token(token), both),
            Stream::Operator(stream) => poll.registry().register(stream, Token(token), both),
        }
    }

    /// Whether a stream that was begun stands; an error where it never will.
    pub(crate) fn stands(&self) -> io::Result<bool> {
        match self {
            Stream::Peer(stream) => match stream.take_error()? {
                Some(error) => Err(error),
                None => Ok(stream.peer_addr().is_ok()),
            },
            Stream::Operator(_) => Ok(true),
        }
    }
}
