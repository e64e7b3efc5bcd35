//! Streams of bytes between nodes over TCP, in one process.
ghost use Rattle.std.specs.Prelude.{◌≡◌, ◌<◌, ◌≤◌, [], None, length, IfOk};
ghost use Rattle.spl_edge.specs.Devices.{HasCause};

use crate::link::{Link, connect, place_of};
use spl_edge::{DeviceError, Fabric, count_fault};
use spl_registry::Registry;
use std::alloc::{AllocError, Global};
use std::net::{Net, TcpListener};
use std::str;

/// Streams between the nodes of a registry, of which each listens where it is reached first. Bytes from one node to
/// another have a connection of their own, made when the first are put, whose two ends are in this process. It reports
/// nothing of what passed, and counts a fault at each call that the system refuses. That what is taken is what was put,
/// in its order, is trusted.
#[derive(Drop)]
pub struct TcpFabric<'a, N: Net> {
    net: &'a N,
    listeners: Vec<Option<N::Listener>>,
    links: Vec<Link<N::Stream>>,
    faults: u64,
}

/// A listener at an endpoint, which spells an address and a port; port 0 is any that is free.
fn listen<N: Net>(net: &N, endpoint: &[u8]) -> Option<N::Listener> {
    let text = str::from_utf8(endpoint).ok()?;
    TcpListener::bind(net, text).ok()
}

/// A listener for each node of a registry, where its endpoint can be had.
fn listeners_of<N: Net>(
    alloc: Global,
    net: &N,
    registry: &Registry,
) -> Result<Vec<Option<N::Listener>>, AllocError> {
    let mut listeners = Vec::new(alloc);
    for slot in 0..registry.len() {
        listeners.push(listen(net, registry.endpoint(slot)))?;
    }
    Ok(listeners)
}

impl<'a, N: Net> TcpFabric<'a, N> {
    /// The streams between the nodes of a registry, on which nothing was put, without a fault. Without a registry there
    /// is no node, so each call fails, as it does for a node whose endpoint can't be had.
    pub fn new(alloc: Global, net: &'a N, registry: Option<&Registry>) -> Result<Self, AllocError>
        ensures links { IfOk result (λ f. f.links.items ≡ []) }
        ensures faults { IfOk result (λ f. f.faults ≡ 0) }
    {
        let listeners = match registry {
            Some(registry) => listeners_of(alloc, net, registry)?,
            None => Vec::new(alloc),
        };
        Ok(TcpFabric {
            net,
            listeners,
            links: Vec::new(alloc),
            faults: 0,
        })
    }

    /// A new link to a node that listens.
    fn link(&self, from: u8, to: u8) -> Option<Link<N::Stream>> {
        let listener = self.listeners.get(usize::from(to))?.as_ref()?;
        connect(self.net, listener, from, to).ok()
    }

    /// The index of the link from one node to another, which is made where there is none.
    fn place(&mut self, from: u8, to: u8) -> Result<usize, DeviceError>
        ensures within { IfOk result (λ place. place < length self.new.links.items) }
        ensures cause { HasCause self.old.faults self.new.faults result }
    {
        if let Some(place) = place_of(&self.links, from, to) {
            return Ok(place);
        }
        let Some(link) = self.link(from, to) else {
            return Err(count_fault(&mut self.faults));
        };
        self.links.push(link)?;
        Ok(self.links.len() - 1)
    }
}

impl<'a, N: Net> Fabric for TcpFabric<'a, N> {
    ghost use Rattle.spl_edge.specs.Devices.{untold_fabric};

    ghost view = { λ f. untold_fabric f.faults };

    fn put(&mut self, from: u8, to: u8, bytes: &[u8]) -> Result<usize, DeviceError> {
        let place = match self.place(from, to) {
            Ok(place) => place,
            Err(fault) => return Err(fault),
        };
        match self.links[place].put(bytes) {
            Some(count) => Ok(count),
            None => Err(count_fault(&mut self.faults)),
        }
    }

    fn take(&mut self, from: u8, to: u8, buf: &mut [u8]) -> Result<usize, DeviceError> {
        let Some(place) = place_of(&self.links, from, to) else {
            return Err(count_fault(&mut self.faults));
        };
        match self.links[place].take(buf) {
            Some(count) => Ok(count),
            None => Err(count_fault(&mut self.faults)),
        }
    }
}
