//! The sockets of a node as what comes to it and what leaves it.
ghost use Rattle.std.specs.Prelude.{◌<◌, None, Some, IfOk, length};
ghost use Rattle.spl_serve.specs.Outside.{IsReadable};

use crate::endpoint::{address_of, is_endpoint, look_up};
use crate::metrics::metrics;
use crate::operators::Operators;
use crate::peer::State;
use crate::peers::Peers;
use crate::strangers::Strangers;
use mio::net::{TcpListener, UnixListener};
use mio::{Events, Interest, Poll, Token};
use spl_base::{NodeId, Piece};
use spl_registry::Registry;
use spl_serve::{Arrival, Departure, PortFault, Ports, Tally};
use std::alloc::{AllocError, Global};
use std::fs;
use std::fs::{Files, Permissions};
use std::io::Write;
use std::net::{Net, SocketAddr};
use std::os::unix::fs::PermissionsExt;
use std::time::{Clock, Duration, Instant};

/// By which token the system names the two listeners; connections have those behind them.
const ENDPOINT: usize = 0;

const SOCKET: usize = 1;

/// How many connections are accepted at once at most.
const MOST_ACCEPTED: u32 = 64;

/// How many events of the system are taken at once at most.
const MOST_EVENTS: usize = 128;

/// How often answers that still wait are written before the sockets close, and for how many milliseconds each time at most.
const MOST_FLUSHES: u32 = 64;

const FLUSH_PAUSE: u64 = 16;

/// What is said of a peer whose files are an old copy.
const OLD: &str = " asks for votes by a round below one that it used: its files are an old copy\n";

/// How many bytes are read at once at most.
const PIECE: usize = 16_384;

/// Why a node gets no sockets.
#[derive(Clone, Copy, Drop, PartialEq, Eq)]
pub enum OpenFault {
    /// The endpoint of this node can't be had: it is neither an address nor a name with a port; or that of the node itself can't be
    /// listened on, or isn't found.
    Endpoint(NodeId),
    /// The socket of its operators can't be had.
    Socket,
    /// The system gives nothing by which to wait.
    System,
    NoMemory,
}

impl From<AllocError> for OpenFault {
    fn from(_: AllocError) -> OpenFault {
        OpenFault::NoMemory
    }
}

/// The sockets of a node: peers come to its endpoint, and its operators to a socket of the file system. Each connection
/// waits for itself alone: what is sent to one that reads too little is dropped, and what is no frame, or no line, ends it.
#[derive(Drop)]
pub struct Sockets<'a, R: Net + Clock, W: Write + Drop> {
    rt: &'a R,
    alloc: Global,
    /// Where it is said who came and went.
    log: W,
    start: Instant,
    /// How many milliseconds have passed since the start.
    now: u64,
    poll: Poll,
    events: Events,
    strangers: Strangers,
    operators: Operators,
    peers: Peers,
    /// The token of the next connection.
    token: usize,
    buf: Vec<u8>,
    /// What the node did until it waited last.
    tally: Tally,
}

// The first node of a registry whose endpoint is none.
fn unreachable_in(registry: &Registry) -> Option<NodeId> {
    for slot in 0..registry.len() {
        if !is_endpoint(registry.endpoint(slot)) {
            return Some(registry.node(slot));
        }
    }
    None
}

// The address of an endpoint, under whose name one may have to be found.
fn found_at<N: Net>(net: &N, endpoint: &[u8]) -> Option<SocketAddr> {
    match address_of(endpoint) {
        Some(address) => Some(address),
        None => look_up(net, endpoint),
    }
}

fn listen_to_peers<N: Net>(net: &N, poll: &Poll, address: SocketAddr) -> Option<TcpListener> {
    let mut listener = TcpListener::bind(net, address).ok()?;
    poll.registry()
        .register(&mut listener, Token(ENDPOINT), Interest::READABLE)
        .ok()?;
    Some(listener)
}

// The socket at a path, in place of one that an earlier process left. Only who owns it may open it.
fn listen_to_operators<R: Net + Files>(rt: &R, poll: &Poll, path: &str) -> Option<UnixListener> {
    let _ = fs::remove_file(rt, path);
    let mut listener = UnixListener::bind(rt, path).ok()?;
    fs::set_permissions(rt, path, Permissions::from_mode(0o600)).ok()?;
    poll.registry()
        .register(&mut listener, Token(SOCKET), Interest::READABLE)
        .ok()?;
    Some(listener)
}

// A line of an operator as what comes.
fn arrival_of(caller: usize, line: Piece) -> Arrival
    ensures { IsReadable (Some result) }
{
    if line.bytes() == b"stop".as_slice() {
        return Arrival::Stop { caller };
    }
    Arrival::Line { caller, line }
}

impl<'a, R: Net + Clock, W: Write + Drop> Sockets<'a, R, W> {
    /// The sockets of the node at a position of a registry, whose operators come by a socket at this path. It says on `log`
    /// who comes and goes. Each endpoint has to be an address and a port in numbers, or a name and a port.
    pub fn open(
        rt: &'a R,
        alloc: Global,
        registry: Registry,
        position: u8,
        path: &str,
        log: W,
    ) -> Result<Self, OpenFault>
    where
        R: Files,
        requires { position < length registry }
    {
        if let Some(node) = unreachable_in(&registry) {
            return Err(OpenFault::Endpoint(node));
        }
        let here = registry.node(position);
        let Some(address) = found_at(rt, registry.endpoint(position)) else {
            return Err(OpenFault::Endpoint(here));
        };
        let (Ok(poll), Ok(start)) = (Poll::new(rt), Instant::now(rt)) else {
            return Err(OpenFault::System);
        };
        let Some(endpoint) = listen_to_peers(rt, &poll, address) else {
            return Err(OpenFault::Endpoint(here));
        };
        let Some(socket) = listen_to_operators(rt, &poll, path) else {
            return Err(OpenFault::Socket);
        };
        let mut buf = Vec::with_capacity(alloc, PIECE)?;
        buf.resize(PIECE, 0)?;
        Ok(Sockets {
            rt,
            alloc,
            log,
            start,
            now: 0,
            poll,
            events: Events::with_capacity(alloc, MOST_EVENTS)?,
            strangers: Strangers::new(alloc, endpoint),
            operators: Operators::new(alloc, socket),
            peers: Peers::new(alloc, here, registry, position, 0)?,
            token: SOCKET + 1,
            buf,
            tally: Tally::new(),
        })
    }

    // Looks at the clock. One that fails stands still.
    fn look_at_clock(&mut self) {
        if let Ok(passed) = self.start.elapsed(self.rt) {
            let millis = u64::try_from(passed.as_millis()).unwrap_or(u64::MAX);
            self.now = self.now.max(millis);
        }
    }

    // A token that no connection has.
    fn next_token(&mut self) -> usize {
        let token = self.token;
        self.token = self.token.saturating_add(1);
        token
    }

    // Says who came and went, and whose files are an old copy.
    fn say_changes(&mut self) {
        for _ in 0..self.peers.len() {
            let Some((peer, state)) = self.peers.next_change() else {
                return;
            };
            let said = match state {
                State::Down => " down\n",
                State::Up => " up\n",
                State::Old => OLD,
            };
            let _ = self.log.write_all(b"peer ");
            let _ = self.log.write_all(peer.bytes());
            let _ = self.log.write_all(said.as_bytes());
        }
    }

    fn dial(&mut self) -> Result<(), AllocError> {
        for at in 0..self.peers.len() {
            let token = self.next_token();
            self.peers
                .dial(at, self.alloc, self.rt, &self.poll, token, self.now)?;
        }
        Ok(())
    }

    // How many milliseconds the system is to wait at most.
    fn pause(&self, most: u64) -> u64 {
        if self.operators.may_ask() || self.peers.may_hear() || self.strangers.may_hear() {
            return 0;
        }
        self.peers.dial_pause(self.now, most)
    }

    // Waits until the system has something to tell, at most so many milliseconds; says whether it still can.
    fn poll_once(&mut self, most: u64) -> bool {
        let most = Duration::from_millis(most);
        if self.poll.poll(&mut self.events, Some(most)).is_err() {
            return false;
        }
        for event in self.events.iter() {
            match event.token().0 {
                ENDPOINT => self.strangers.ring(),
                SOCKET => self.operators.ring(),
                token => {
                    self.strangers.wake(token);
                    self.operators.wake(token);
                    self.peers.wake(token);
                }
            }
        }
        true
    }

    fn accept_strangers(&mut self) -> Result<(), AllocError> {
        for _ in 0..MOST_ACCEPTED {
            if !self.strangers.is_ready() {
                return Ok(());
            }
            let Some(stream) = self.strangers.accept() else {
                return Ok(());
            };
            let token = self.next_token();
            self.strangers.admit(
                self.alloc,
                &self.poll,
                self.peers.here(),
                stream,
                token,
                self.now,
            )?;
        }
        Ok(())
    }

    fn accept_operators(&mut self) -> Result<(), AllocError> {
        for _ in 0..MOST_ACCEPTED {
            if !self.operators.is_ready() {
                return Ok(());
            }
            let Some(stream) = self.operators.accept() else {
                return Ok(());
            };
            let token = self.next_token();
            self.operators
                .admit(self.alloc, &self.poll, stream, token, self.now)?;
        }
        Ok(())
    }

    // Strangers that named themselves are peers from now on.
    fn hear_strangers(&mut self) -> Result<(), AllocError> {
        for _ in 0..MOST_ACCEPTED {
            let named = self
                .strangers
                .next(self.alloc, self.peers.registry(), &mut self.buf)?;
            let Some((peer, link)) = named else {
                return Ok(());
            };
            self.peers.admit(&peer, link, self.now);
        }
        Ok(())
    }

    // Looks at each connection.
    fn look(&mut self) {
        self.strangers.look(self.now);
        self.operators.look();
        self.peers.look(self.now);
        self.say_changes();
    }

    // Writes what waits, waits itself, and takes in who came; says whether the system still tells anything.
    fn wait_once(&mut self, most: u64) -> Result<bool, AllocError> {
        self.look_at_clock();
        self.operators.flush();
        self.peers.flush();
        self.look();
        self.dial()?;
        if !self.poll_once(self.pause(most)) {
            return Ok(false);
        }
        self.look_at_clock();
        self.accept_strangers()?;
        self.accept_operators()?;
        self.look();
        self.hear_strangers()?;
        Ok(true)
    }

    // The answer to a line about the process; None of one for the node.
    fn report(&self, line: &[u8]) -> Result<Option<Piece>, AllocError> {
        if line == b"peers".as_slice() {
            return Ok(Some(self.peers.report(self.alloc, self.now)?));
        }
        if line == b"metrics".as_slice() {
            let (counts, asked) = (self.peers.counts(), self.operators.asked());
            return Ok(Some(metrics(self.alloc, &self.tally, &counts, &asked)?));
        }
        Ok(None)
    }

    // The next line that is for the node. One about the process is answered here.
    fn next_line(&mut self) -> Result<Option<(usize, Piece)>, AllocError> {
        let Some((caller, line)) = self.operators.next(self.alloc, &mut self.buf)? else {
            return Ok(None);
        };
        let Some(report) = self.report(line.bytes())? else {
            return Ok(Some((caller, line)));
        };
        self.operators.answer(caller, report.bytes())?;
        Ok(None)
    }

    // The next line or message.
    fn next_arrival(&mut self) -> Result<Option<Arrival>, AllocError>
        ensures { IfOk result IsReadable }
    {
        if let Some((caller, line)) = self.next_line()? {
            return Ok(Some(arrival_of(caller, line)));
        }
        match self.peers.next(self.alloc, &mut self.buf, self.now)? {
            Some((from, message)) => Ok(Some(Arrival::Message { from, message })),
            None => Ok(None),
        }
    }

    /// Writes the answers that still wait, as far as their operators take them within a second.
    pub fn finish(&mut self) {
        for _ in 0..MOST_FLUSHES {
            self.operators.flush();
            self.peers.flush();
            if !self.operators.waits() || !self.poll_once(FLUSH_PAUSE) {
                return;
            }
        }
    }

    fn put_once(&mut self, departure: &Departure) -> Result<(), AllocError> {
        match departure {
            Departure::Answer { caller, text } => self.operators.answer(*caller, text.bytes()),
            Departure::Frames { to, frames } => self.peers.send(to, frames.bytes()),
        }
    }
}

impl<'a, R: Net + Clock, W: Write + Drop> Ports for Sockets<'a, R, W> {
    ghost view = { λ _. None };

    fn wait(&mut self, most: u64, tally: &Tally) -> Result<u64, PortFault> {
        self.tally = *tally;
        match self.wait_once(most) {
            Ok(true) => Ok(self.now),
            Ok(false) => Err(PortFault::Failed),
            Err(AllocError) => Err(PortFault::NoMemory),
        }
    }

    fn next(&mut self) -> Result<Option<Arrival>, PortFault> {
        match self.next_arrival() {
            Ok(arrival) => Ok(arrival),
            Err(AllocError) => Err(PortFault::NoMemory),
        }
    }

    fn put(&mut self, departure: &Departure) -> Result<(), PortFault> {
        match self.put_once(departure) {
            Ok(()) => Ok(()),
            Err(AllocError) => Err(PortFault::NoMemory),
        }
    }
}
