//! The other nodes of the registry.
ghost use Rattle.std.specs.Prelude.{IfOk};
ghost use Rattle.spl_ports.specs.Heard.{IsMessageWritable};

use crate::connection::Connection;
use crate::link::Link;
use crate::peer::{Counts, Peer, State};
use crate::stream::Stream;
use mio::Poll;
use mio::net::TcpStream;
use spl_base::{Boxed, NodeId, Piece};
use spl_registry::Registry;
use spl_talk::Talk;
use spl_wire::Message;
use std::alloc::{AllocError, Global};
use std::net::{Net, SocketAddr};

/// A connection to be begun: to which node, at which address, by which token the system is to name it, and when that is.
#[derive(Clone, Copy)]
struct Dialled {
    peer: NodeId,
    address: SocketAddr,
    token: usize,
    now: u64,
}

/// The other nodes of the registry, in its order.
#[derive(Drop)]
pub(crate) struct Peers {
    here: NodeId,
    /// The position of this node: it dials those behind it.
    position: u8,
    registry: Registry,
    all: Vec<Peer>,
    turn: usize,
}

// A link to a peer, on which this node names itself first; None where none could be begun.
fn begin<N: Net>(
    alloc: Global,
    net: &N,
    poll: &Poll,
    here: NodeId,
    dialled: Dialled,
) -> Result<Option<Link>, AllocError> {
    let Ok(stream) = TcpStream::connect(net, dialled.address) else {
        return Ok(None);
    };
    let _ = stream.set_nodelay(true);
    let (talk, hello) = Talk::open(alloc, here, dialled.peer)?;
    let stream = Stream::Peer(stream);
    let Some(connection) = Connection::new(alloc, poll, stream, dialled.token, dialled.now) else {
        return Ok(None);
    };
    let mut link = Link::new(connection, talk);
    link.put(hello.bytes())?;
    Ok(Some(link))
}

// The words about a peer.
fn words_of(alloc: Global, peer: &Peer, now: u64) -> Result<Vec<u8>, AllocError> {
    let mut text = Vec::from_slice(alloc, b" ")?;
    text.extend_from_slice(peer.id().bytes())?;
    let state = match peer.state() {
        State::Down => "down",
        State::Up => "up",
        State::Old => "old",
    };
    let seconds = now.saturating_sub(peer.since()) / 1_000;
    let counts = peer.counts();
    let passed = format!(in alloc;
        " {state} {seconds} out {} {} in {} {} dropped {} heard ",
        counts.sent, counts.sent_bytes, counts.heard, counts.heard_bytes, counts.dropped
    )?;
    text.extend_from_slice(passed.as_bytes())?;
    match peer.last_heard() {
        Some(at) => {
            let seconds = now.saturating_sub(at) / 1_000;
            let heard = format!(in alloc; "{seconds}")?;
            text.extend_from_slice(heard.as_bytes())?;
        }
        None => text.push(b'-')?,
    }
    Ok(text)
}

impl Peers {
    /// The other nodes of a registry as the node at a position sees them, none of them connected yet.
    pub(crate) fn new(
        alloc: Global,
        here: NodeId,
        registry: Registry,
        position: u8,
        now: u64,
    ) -> Result<Peers, AllocError> {
        let mut all = Vec::new(alloc);
        for slot in 0..registry.len() {
            if slot != position {
                all.push(Peer::new(alloc, registry.node(slot), slot, now))?;
            }
        }
        Ok(Peers {
            here,
            position,
            registry,
            all,
            turn: 0,
        })
    }

    pub(crate) fn here(&self) -> NodeId {
        self.here
    }

    pub(crate) fn registry(&self) -> &Registry {
        &self.registry
    }

    // Whether this node dials a peer, which comes by itself otherwise.
    fn dials(&self, peer: &Peer) -> bool {
        peer.is_away() && self.position < peer.slot()
    }

    /// How many milliseconds pass until a peer is dialled, at most this many.
    pub(crate) fn dial_pause(&self, now: u64, most: u64) -> u64 {
        let mut least = most;
        for peer in self.all.iter() {
            if self.dials(peer) {
                least = least.min(peer.dial_pause(now));
            }
        }
        least
    }

    /// Dials the peer at a place, if that is due, on a connection of this token.
    pub(crate) fn dial<N: Net>(
        &mut self,
        at: usize,
        alloc: Global,
        net: &N,
        poll: &Poll,
        token: usize,
        now: u64,
    ) -> Result<(), AllocError> {
        let Some(peer) = self.all.get_mut(at) else {
            return Ok(());
        };
        let slot = peer.slot();
        let is_due = peer.is_away() && self.position < slot && peer.dial_pause(now) == 0;
        if !is_due || slot >= self.registry.len() {
            return Ok(());
        }
        let link = match peer.address(net, self.registry.endpoint(slot), now) {
            Some(address) => {
                let dialled = Dialled {
                    peer: peer.id(),
                    address,
                    token,
                    now,
                };
                begin(alloc, net, poll, self.here, dialled)?
            }
            None => None,
        };
        peer.dial(link, now);
        Ok(())
    }

    pub(crate) fn len(&self) -> usize {
        self.all.len()
    }

    /// A peer came on this link and named itself.
    pub(crate) fn admit(&mut self, id: &NodeId, link: Link, now: u64) {
        for peer in self.all.iter_mut() {
            if peer.id() == *id {
                peer.admit(link, now);
                return;
            }
        }
    }

    /// The system told that something changed on a connection.
    pub(crate) fn wake(&mut self, token: usize) {
        for peer in self.all.iter_mut() {
            peer.wake(token);
        }
    }

    /// Looks which links stand, and drops those that are over.
    pub(crate) fn look(&mut self, now: u64) {
        for peer in self.all.iter_mut() {
            peer.look(now);
        }
    }

    pub(crate) fn flush(&mut self) {
        for peer in self.all.iter_mut() {
            peer.flush();
        }
    }

    /// Whether one may be heard without a wait.
    pub(crate) fn may_hear(&self) -> bool {
        self.all.iter().any(|peer| peer.may_hear())
    }

    /// The next peer of which something else is known than when this was asked last, and what.
    pub(crate) fn next_change(&mut self) -> Option<(NodeId, State)> {
        for peer in self.all.iter_mut() {
            if let Some(state) = peer.change_of_state() {
                return Some((peer.id(), state));
            }
        }
        None
    }

    /// The next message, of one peer after another, and who it is from.
    pub(crate) fn next(
        &mut self,
        alloc: Global,
        buf: &mut [u8],
        now: u64,
    ) -> Result<Option<(NodeId, Boxed<Message>)>, AllocError>
        ensures { IfOk result IsMessageWritable }
    {
        let count = self.all.len();
        for _ in 0..count {
            self.turn = self.turn.wrapping_add(1) % count;
            if let Some(peer) = self.all.get_mut(self.turn) {
                if let Some(came) = peer.next(alloc, &self.registry, buf, now)? {
                    return Ok(Some(came));
                }
            }
        }
        Ok(None)
    }

    /// Sends the frames of a message to a peer, or drops them.
    pub(crate) fn send(&mut self, to: &NodeId, frames: &[u8]) -> Result<(), AllocError> {
        for peer in self.all.iter_mut() {
            if peer.id() == *to {
                peer.send(frames)?;
            }
        }
        Ok(())
    }

    /// How much passed to and from all of them.
    pub(crate) fn counts(&self) -> Counts {
        let mut all = Counts::new();
        for peer in self.all.iter() {
            all = all.with(&peer.counts());
        }
        all
    }

    /// The answer to the line `peers`.
    pub(crate) fn report(&self, alloc: Global, now: u64) -> Result<Piece, AllocError> {
        let mut text = Vec::from_slice(alloc, b"ok peers")?;
        for peer in self.all.iter() {
            let words = words_of(alloc, peer, now)?;
            text.extend_from_slice(&words)?;
        }
        text.push(b'\n')?;
        Piece::from(alloc, &text)
    }
}
