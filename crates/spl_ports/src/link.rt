//! A connection to another node, and what is said on it.
ghost use Rattle.std.specs.Prelude.{◌≡◌, IfOk, IfSome};
ghost use Rattle.spl_talk.specs.Talks.{HasForm};
ghost use Rattle.spl_ports.specs.Heard.{CanBeWritten};

use crate::connection::Connection;
use spl_base::{Boxed, NodeId, Piece};
use spl_registry::Registry;
use spl_talk::{Spoken, Talk, TalkFault};
use spl_wire::Message;
use std::alloc::{AllocError, Global};

/// How many frames are heard on a link at once, at most.
const MOST_HEARD: u32 = 64;

/// What is heard on a link.
#[derive(Drop)]
pub(crate) enum Heard {
    /// Nothing more now.
    Nothing,
    /// Who the other end is.
    Name(NodeId),
    Message {
        from: NodeId,
        message: Boxed<Message>,
    },
}

/// A connection on which frames come and go. Bytes that are none of a node's end it.
#[derive(Drop)]
pub(crate) struct Link {
    connection: Connection,
    talk: Talk,
    /// No whole frame is left of the bytes that came.
    is_drained: bool,
    /// How many bytes came since this was asked last.
    received: u64,
}

impl Link {
    pub(crate) fn new(connection: Connection, talk: Talk) -> Link {
        Link {
            connection,
            talk,
            is_drained: true,
            received: 0,
        }
    }

    pub(crate) fn token(&self) -> usize {
        self.connection.token()
    }

    pub(crate) fn since(&self) -> u64 {
        self.connection.since()
    }

    pub(crate) fn wake(&mut self) {
        self.connection.wake();
    }

    pub(crate) fn look(&mut self) {
        self.connection.look();
    }

    pub(crate) fn flush(&mut self) {
        self.connection.flush();
    }

    /// Puts frames behind those that wait, all of them or none, and says whether there was room.
    pub(crate) fn put(&mut self, frames: &[u8]) -> Result<bool, AllocError> {
        self.connection.put(frames)
    }

    /// Whether more may be heard without a wait.
    pub(crate) fn may_hear(&self) -> bool {
        !self.is_over() && (!self.is_drained || self.connection.may_read())
    }

    /// Whether nothing more can be heard.
    pub(crate) fn is_over(&self) -> bool {
        self.connection.is_broken() || (self.connection.has_ended() && self.is_drained)
    }

    /// How many bytes came since this was asked last.
    pub(crate) fn take_received(&mut self) -> u64 {
        let received = self.received;
        self.received = 0;
        received
    }

    // What the next frame says; None where no whole one is left.
    fn next(&mut self, alloc: Global, registry: &Registry) -> Result<Option<Spoken>, AllocError>
        ensures { IfOk result (λ o. IfSome o HasForm) }
    {
        match self.talk.next(alloc, registry) {
            Ok(spoken) => {
                self.is_drained = spoken.is_none();
                Ok(spoken)
            }
            Err(TalkFault::NoMemory) => Err(AllocError),
            Err(_) => {
                self.connection.cut();
                Ok(None)
            }
        }
    }

    // Takes bytes that came.
    fn feed(&mut self, piece: &[u8]) -> Result<(), AllocError> {
        match self.talk.feed(piece) {
            Ok(()) => {
                self.is_drained = false;
                Ok(())
            }
            Err(TalkFault::NoMemory) => Err(AllocError),
            Err(_) => {
                self.connection.cut();
                Ok(())
            }
        }
    }

    // Greets the other end in turn, where that is due.
    fn greet(&mut self, hello: Option<Piece>) -> Result<(), AllocError> {
        let Some(hello) = hello else {
            return Ok(());
        };
        if !self.connection.put(hello.bytes())? {
            self.connection.cut();
        }
        Ok(())
    }

    // What a frame said; None of a part of a message.
    fn heard_in(&mut self, spoken: Spoken) -> Result<Option<Heard>, AllocError>
        ensures { IfOk result (λ o. HasForm spoken → IfSome o CanBeWritten) }
    {
        match spoken {
            Spoken::Part => Ok(None),
            Spoken::Message { from, message } => Ok(Some(Heard::Message { from, message })),
            Spoken::Name { peer, hello } => {
                self.greet(hello)?;
                Ok(Some(Heard::Name(peer)))
            }
        }
    }

    /// What is heard next; reads where no whole frame is left.
    pub(crate) fn hear(
        &mut self,
        alloc: Global,
        registry: &Registry,
        buf: &mut [u8],
    ) -> Result<Heard, AllocError>
        ensures { IfOk result CanBeWritten }
    {
        for _ in 0..MOST_HEARD {
            if self.connection.is_broken() {
                return Ok(Heard::Nothing);
            }
            if let Some(spoken) = self.next(alloc, registry)? {
                if let Some(heard) = self.heard_in(spoken)? {
                    return Ok(heard);
                }
                continue;
            }
            let count = self.connection.read(buf);
            if count == 0 {
                return Ok(Heard::Nothing);
            }
            self.received = self.received.saturating_add(count as u64);
            self.feed(&buf[..count])?;
        }
        Ok(Heard::Nothing)
    }
}
