//! Those who came to the endpoint of a node and haven't named themselves yet.
use crate::connection::Connection;
use crate::link::{Heard, Link};
use crate::stream::Stream;
use mio::Poll;
use mio::net::{TcpListener, TcpStream};
use spl_base::NodeId;
use spl_registry::Registry;
use spl_talk::Talk;
use std::alloc::{AllocError, Global};
use std::io::ErrorKind;

/// How many strangers are connected at most; the oldest gives way to the next.
const MOST: usize = 16;

/// How many milliseconds a connection may take until its peer has named itself.
pub(crate) const PATIENCE: u64 = 5_000;

/// The strangers that are connected, and the endpoint where they come.
#[derive(Drop)]
pub(crate) struct Strangers {
    listener: TcpListener,
    is_ready: bool,
    all: Vec<Link>,
}

impl Strangers {
    pub(crate) fn new(alloc: Global, listener: TcpListener) -> Strangers {
        Strangers {
            listener,
            is_ready: true,
            all: Vec::new(alloc),
        }
    }

    /// Somebody may have come.
    pub(crate) fn ring(&mut self) {
        self.is_ready = true;
    }

    /// Whether somebody may wait to come in.
    pub(crate) fn is_ready(&self) -> bool {
        self.is_ready
    }

    /// The next one who came.
    pub(crate) fn accept(&mut self) -> Option<TcpStream> {
        match self.listener.accept() {
            Ok((stream, _)) => Some(stream),
            Err(error) => {
                self.is_ready = error.kind() != ErrorKind::WouldBlock;
                None
            }
        }
    }

    /// Takes one in, and lets the oldest go where there are too many.
    pub(crate) fn admit(
        &mut self,
        alloc: Global,
        poll: &Poll,
        here: NodeId,
        stream: TcpStream,
        token: usize,
        now: u64,
    ) -> Result<(), AllocError> {
        if self.all.len() >= MOST {
            let _ = self.all.remove(0);
        }
        let _ = stream.set_nodelay(true);
        if let Some(connection) = Connection::new(alloc, poll, Stream::Peer(stream), token, now) {
            self.all
                .push(Link::new(connection, Talk::listen(alloc, here)))?;
        }
        Ok(())
    }

    /// The system told that something changed on a connection.
    pub(crate) fn wake(&mut self, token: usize) {
        for link in self.all.iter_mut() {
            if link.token() == token {
                link.wake();
            }
        }
    }

    /// Looks which connections stand, and drops those that are over or took too long.
    pub(crate) fn look(&mut self, now: u64) {
        for link in self.all.iter_mut() {
            link.look();
        }
        self.all.retain(|link| !link.is_over() && now <= link.since().saturating_add(PATIENCE));
    }

    /// Whether one may be heard without a wait.
    pub(crate) fn may_hear(&self) -> bool {
        self.all.iter().any(|link| link.may_hear())
    }

    // Hears the stranger at a place; says who it is, where it has named itself.
    fn hear_at(
        &mut self,
        at: usize,
        alloc: Global,
        registry: &Registry,
        buf: &mut [u8],
    ) -> Result<Option<NodeId>, AllocError> {
        let Some(link) = self.all.get_mut(at) else {
            return Ok(None);
        };
        match link.hear(alloc, registry, buf)? {
            Heard::Name(peer) => Ok(Some(peer)),
            _ => Ok(None),
        }
    }

    /// The next stranger that has named itself, who is none any more.
    pub(crate) fn next(
        &mut self,
        alloc: Global,
        registry: &Registry,
        buf: &mut [u8],
    ) -> Result<Option<(NodeId, Link)>, AllocError> {
        for at in 0..self.all.len() {
            if let Some(peer) = self.hear_at(at, alloc, registry, buf)? {
                if at < self.all.len() {
                    return Ok(Some((peer, self.all.remove(at))));
                }
            }
        }
        Ok(None)
    }
}
