//! Another node of the registry: the link to it, when it is dialled, and what passed.
ghost use Rattle.std.specs.Prelude.{IfOk};
ghost use Rattle.spl_ports.specs.Heard.{CanBeWritten, IsMessageWritable};

use crate::endpoint::{address_of, look_up};
use crate::link::{Heard, Link};
use crate::rounds::Rounds;
use crate::strangers::PATIENCE;
use spl_base::{Boxed, NodeId};
use spl_registry::Registry;
use spl_wire::Message;
use std::alloc::{AllocError, Global};
use std::net::{Net, SocketAddr};

/// How many milliseconds pass until a peer is dialled again, at first and at most.
const FIRST_PAUSE: u64 = 100;

const LONGEST_PAUSE: u64 = 3_000;

/// How many milliseconds pass at least between two look-ups of its name.
const LOOK_UP_PAUSE: u64 = 30_000;

/// How many messages and bytes passed since the process began.
#[derive(Clone, Copy, Drop)]
pub(crate) struct Counts {
    pub(crate) sent: u64,
    pub(crate) sent_bytes: u64,
    pub(crate) heard: u64,
    pub(crate) heard_bytes: u64,
    pub(crate) dropped: u64,
    /// How often it came up.
    pub(crate) connections: u64,
}

impl Counts {
    pub(crate) fn new() -> Counts {
        Counts {
            sent: 0,
            sent_bytes: 0,
            heard: 0,
            heard_bytes: 0,
            dropped: 0,
            connections: 0,
        }
    }

    /// These and others.
    pub(crate) fn with(&self, others: &Counts) -> Counts {
        Counts {
            sent: self.sent.saturating_add(others.sent),
            sent_bytes: self.sent_bytes.saturating_add(others.sent_bytes),
            heard: self.heard.saturating_add(others.heard),
            heard_bytes: self.heard_bytes.saturating_add(others.heard_bytes),
            dropped: self.dropped.saturating_add(others.dropped),
            connections: self.connections.saturating_add(others.connections),
        }
    }
}

/// What is known of another node.
#[derive(Clone, Copy, PartialEq, Eq, Drop)]
pub(crate) enum State {
    Down,
    Up,
    /// It is up, and asked for votes by a round below one that it used: its files are an old copy.
    Old,
}

/// Another node of the registry.
#[derive(Drop)]
pub(crate) struct Peer {
    id: NodeId,
    slot: u8,
    link: Option<Link>,
    /// The two nodes know each other on this link.
    is_up: bool,
    /// Since when it is up, or isn't, in milliseconds.
    since: u64,
    /// When it is dialled next, and the pause after that.
    dial_at: u64,
    pause: u64,
    /// What was found under its endpoint's name last, and when it may be looked up again.
    found: Option<SocketAddr>,
    look_up_at: u64,
    counts: Counts,
    last_heard: Option<u64>,
    /// The rounds by which it asked for votes since the process began.
    rounds: Rounds,
    /// It asked by a round below one that it used.
    is_old: bool,
    /// What was said of it last.
    said: State,
}

impl Peer {
    pub(crate) fn new(alloc: Global, id: NodeId, slot: u8, now: u64) -> Peer {
        Peer {
            id,
            slot,
            link: None,
            is_up: false,
            since: now,
            dial_at: now,
            pause: FIRST_PAUSE,
            found: None,
            look_up_at: now,
            counts: Counts::new(),
            last_heard: None,
            rounds: Rounds::new(alloc),
            is_old: false,
            said: State::Down,
        }
    }

    pub(crate) fn id(&self) -> NodeId {
        self.id
    }

    pub(crate) fn slot(&self) -> u8 {
        self.slot
    }

    pub(crate) fn state(&self) -> State {
        match (self.is_up, self.is_old) {
            (false, _) => State::Down,
            (true, false) => State::Up,
            (true, true) => State::Old,
        }
    }

    pub(crate) fn since(&self) -> u64 {
        self.since
    }

    pub(crate) fn counts(&self) -> Counts {
        self.counts
    }

    /// When something was heard of it last, in milliseconds.
    pub(crate) fn last_heard(&self) -> Option<u64> {
        self.last_heard
    }

    /// What is known of it, if that changed since this was asked last.
    pub(crate) fn change_of_state(&mut self) -> Option<State> {
        let state = self.state();
        if self.said == state {
            return None;
        }
        self.said = state;
        Some(state)
    }

    /// Whether it has no connection, not even one that is begun.
    pub(crate) fn is_away(&self) -> bool {
        self.link.is_none()
    }

    /// How many milliseconds pass until it is dialled.
    pub(crate) fn dial_pause(&self, now: u64) -> u64 {
        self.dial_at.saturating_sub(now)
    }

    /// The address at which it is dialled: that of its endpoint, or what was found under the endpoint's name last, which is looked
    /// up again where 30 s have passed. None where nothing was found yet.
    pub(crate) fn address<N: Net>(
        &mut self,
        net: &N,
        endpoint: &[u8],
        now: u64,
    ) -> Option<SocketAddr> {
        if let Some(address) = address_of(endpoint) {
            return Some(address);
        }
        if now >= self.look_up_at {
            self.look_up_at = now.saturating_add(LOOK_UP_PAUSE);
            if let Some(address) = look_up(net, endpoint) {
                self.found = Some(address);
            }
        }
        self.found
    }

    /// It is dialled, on this link if one could be begun; the next time is after a pause that doubles.
    pub(crate) fn dial(&mut self, link: Option<Link>, now: u64) {
        self.link = link;
        self.dial_at = now.saturating_add(self.pause);
        self.pause = self.pause.saturating_mul(2).min(LONGEST_PAUSE);
    }

    fn change(&mut self, is_up: bool, now: u64) {
        if self.is_up != is_up {
            self.is_up = is_up;
            self.since = now;
        }
    }

    // It named itself on its link.
    fn come_up(&mut self, now: u64) {
        self.change(true, now);
        self.counts.connections = self.counts.connections.saturating_add(1);
        self.last_heard = Some(now);
        self.pause = FIRST_PAUSE;
    }

    /// It came on this link and named itself. An older link of it ends.
    pub(crate) fn admit(&mut self, link: Link, now: u64) {
        self.link = Some(link);
        self.come_up(now);
    }

    /// The system told that something changed on a connection.
    pub(crate) fn wake(&mut self, token: usize) {
        if let Some(link) = &mut self.link {
            if link.token() == token {
                link.wake();
            }
        }
    }

    // Whether its link is over, or took too long until it named itself.
    fn has_lost(&self, now: u64) -> bool {
        match &self.link {
            Some(link) => {
                link.is_over() || (!self.is_up && now > link.since().saturating_add(PATIENCE))
            }
            None => false,
        }
    }

    /// Looks whether its link stands, and drops one that is over.
    pub(crate) fn look(&mut self, now: u64) {
        if let Some(link) = &mut self.link {
            link.look();
        }
        if self.has_lost(now) {
            self.link = None;
            self.dial_at = self.dial_at.max(now.saturating_add(FIRST_PAUSE));
            self.change(false, now);
        }
    }

    pub(crate) fn flush(&mut self) {
        if let Some(link) = &mut self.link {
            link.flush();
        }
    }

    /// Whether it may be heard without a wait.
    pub(crate) fn may_hear(&self) -> bool {
        match &self.link {
            Some(link) => link.may_hear(),
            None => false,
        }
    }

    // What is heard on its link.
    fn hear(
        &mut self,
        alloc: Global,
        registry: &Registry,
        buf: &mut [u8],
    ) -> Result<Heard, AllocError>
        ensures { IfOk result CanBeWritten }
    {
        let Some(link) = &mut self.link else {
            return Ok(Heard::Nothing);
        };
        let heard = link.hear(alloc, registry, buf);
        let bytes = link.take_received();
        self.counts.heard_bytes = self.counts.heard_bytes.saturating_add(bytes);
        heard
    }

    /// The next message of it, and who it is from.
    pub(crate) fn next(
        &mut self,
        alloc: Global,
        registry: &Registry,
        buf: &mut [u8],
        now: u64,
    ) -> Result<Option<(NodeId, Boxed<Message>)>, AllocError>
        ensures { IfOk result IsMessageWritable }
    {
        match self.hear(alloc, registry, buf)? {
            Heard::Nothing => Ok(None),
            Heard::Name(_) => {
                self.come_up(now);
                Ok(None)
            }
            Heard::Message { from, message } => {
                self.last_heard = Some(now);
                self.counts.heard = self.counts.heard.saturating_add(1);
                if self.rounds.note(message.get())? {
                    self.is_old = true;
                }
                Ok(Some((from, message)))
            }
        }
    }

    // Whether the frames of a message could be put.
    fn put(&mut self, frames: &[u8]) -> Result<bool, AllocError> {
        match &mut self.link {
            Some(link) if self.is_up => link.put(frames),
            _ => Ok(false),
        }
    }

    /// Sends the frames of a message. They are dropped where it is away, or has read too little of what was put before.
    pub(crate) fn send(&mut self, frames: &[u8]) -> Result<(), AllocError> {
        if self.put(frames)? {
            self.counts.sent = self.counts.sent.saturating_add(1);
            let bytes = frames.len() as u64;
            self.counts.sent_bytes = self.counts.sent_bytes.saturating_add(bytes);
        } else {
            self.counts.dropped = self.counts.dropped.saturating_add(1);
        }
        Ok(())
    }
}
