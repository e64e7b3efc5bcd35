//! A connection of TCP between two nodes of one process.
ghost use Rattle.std.specs.Prelude.{◌≡◌, ◌<◌, ◌≤◌, length, IfSome};

use crate::file_source::read_once;
use crate::std_sink::write_once;
use std::io;
use std::io::{ErrorKind, Read, Write};
use std::net::{Net, OpenListener, OpenStream, SocketAddr, TcpStream};
use std::time::Duration;

/// How many connections from elsewhere may come before the one that is awaited.
const STRANGERS: u32 = 1_024;

/// How many seconds a connection may take, which takes longer only where others fill the listener's queue.
const PATIENCE: u64 = 5;

/// The two ends of a connection that carries bytes from one node to another, and how many bytes are on their way.
#[derive(Drop)]
pub struct Link<S> {
    from: u8,
    to: u8,
    near: S,
    far: S,
    due: usize,
}

impl<S: Read + Write> Link<S> {
    /// Puts a prefix of the bytes, and says how many. It fails where the system takes none of them.
    pub(crate) fn put(&mut self, bytes: &[u8]) -> Option<usize>
        ensures bound { IfSome result (λ n. n ≤ length bytes.now) }
        ensures nothing { IfSome result (λ n. n ≡ 0 → length bytes.now ≡ 0) }
    {
        let count = write_once(&mut self.near, bytes).ok()?;
        if count == 0 && !bytes.is_empty() {
            return None;
        }
        self.due = self.due.saturating_add(count);
        Some(count)
    }

    /// Takes some of the bytes on their way, and says how many. It fails where there are none for a buffer that isn't
    /// empty, and where the system gives none.
    pub(crate) fn take(&mut self, buf: &mut [u8]) -> Option<usize>
        ensures bound { IfSome result (λ n. n ≤ length buf.new) }
        ensures nothing { IfSome result (λ n. n ≡ 0 → length buf.new ≡ 0) }
    {
        if buf.is_empty() {
            return Some(0);
        }
        // A read waits for bytes that aren't on their way.
        if self.due == 0 {
            return None;
        }
        let room = buf.len().min(self.due);
        let count = read_once(&mut self.far, &mut buf[..room]).ok()?;
        if count == 0 {
            return None;
        }
        self.due -= count;
        Some(count)
    }
}

/// The end of a connection whose other end has this address. Others are closed.
fn accept_from<L: OpenListener>(listener: &L, address: SocketAddr) -> io::Result<L::Stream> {
    for _ in 0..STRANGERS {
        let (stream, peer) = listener.accept()?;
        if peer == address {
            return Ok(stream);
        }
    }
    Err(ErrorKind::ConnectionRefused.into())
}

/// Connects to a listener, and accepts the connection there. It gives up after some seconds where the listener's queue is
/// full of connections from elsewhere.
pub(crate) fn connect<N: Net>(
    net: &N,
    listener: &N::Listener,
    from: u8,
    to: u8,
) -> io::Result<Link<N::Stream>> {
    let near = TcpStream::connect_timeout(
        net,
        &listener.local_addr()?,
        Duration::from_secs(PATIENCE),
    )?;
    near.set_nodelay(true)?;
    let far = accept_from(listener, near.local_addr()?)?;
    Ok(Link {
        from,
        to,
        near,
        far,
        due: 0,
    })
}

/// The index of the link from one node to another.
pub(crate) fn place_of<S>(links: &[Link<S>], from: u8, to: u8) -> Option<usize>
    ensures { IfSome result (λ place. place < length links.now) }
{
    links
        .iter()
        .position(|link| link.from == from && link.to == to)
}
