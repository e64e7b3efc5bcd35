//! `serve`: a node over its files and sockets.
ghost use Rattle.std.specs.Prelude.{◌≡◌, ◌<◌, None, length, IfOk, IfSome};
ghost use Rattle.spl_edge.specs.Devices.{image_now, pair_view};
ghost use Rattle.spl_serve.specs.Servers.{ServerStands};

use crate::ending::Ending;
use crate::nodes_file;
use crate::owners::first_of_another;
use crate::registry::read;
use spl_base::NodeId;
use spl_cli::Status;
use spl_device::{FileDisk, NodeDisks, Start};
use spl_edge::{DeviceError, Disk, Pair};
use spl_journal::JournalFault;
use spl_ports::Sockets;
use spl_registry::Registry;
use spl_serve::{Finish, Ports, Server};
use std::alloc::{AllocError, Global};
use std::fs::File;
use std::io::Write;

/// The name of the socket in a node's folder.
pub(crate) const SOCKET: &str = "socket";

fn position_of(registry: &Registry, name: &String) -> Option<u8>
    ensures { IfSome result (λ position. position < length registry.now) }
{
    registry.slot(&NodeId::read(name.as_bytes())?)
}

// Whether neither disk holds bytes.
fn are_blank(disks: &mut Pair<FileDisk<File>>) -> Result<bool, DeviceError> {
    Ok(disks.first.len()? == 0 && disks.second.len()? == 0)
}

// Whether a node may start so over its disks: for the first time over blank ones, and else over others.
fn may_start(node: NodeId, disks: &mut Pair<FileDisk<File>>, start: Start) -> Result<(), Ending> {
    match (start, are_blank(disks)) {
        (Start::First, Ok(true)) | (Start::Again, Ok(false)) => Ok(()),
        (Start::First, Ok(false)) => Err(Ending::As(Status::NotBlank { node })),
        (Start::Again, Ok(true)) => Err(Ending::Blank { node }),
        (_, Err(_)) => Err(Ending::As(Status::DiskFault { node })),
    }
}

// The node over its disks, which don't say what they hold.
fn server_of<D: Disk>(
    alloc: Global,
    node: NodeId,
    disks: &mut Pair<D>,
    start: Start,
) -> Result<Server, JournalFault>
    requires first { image_now (D.view disks.old.first) ≡ None }
    requires second { image_now (D.view disks.old.second) ≡ None }
    ensures { IfOk result (λ s. ServerStands s (pair_view D.view disks.new)) }
{
    match start {
        Start::First => Server::create(alloc, node, disks),
        Start::Again => Server::open(alloc, node, disks),
    }
}

// Says that a node is ready, and of its peers that none is there yet.
fn say_ready(rt: &HostRuntime, node: &NodeId, nodes: &[NodeId]) {
    let mut error = rt.stderr();
    let _ = error.write_all(b"serving ");
    let _ = error.write_all(node.bytes());
    let _ = error.write_all(b"\n");
    for peer in nodes {
        if peer != node {
            let _ = error.write_all(b"peer ");
            let _ = error.write_all(peer.bytes());
            let _ = error.write_all(b" down\n");
        }
    }
}

// Serves a node over its disks, which don't say what they hold, and what brings it what comes.
fn serve_over<D: Disk, P: Ports>(
    rt: &HostRuntime,
    node: NodeId,
    nodes: &[NodeId],
    disks: &mut Pair<D>,
    ports: &mut P,
    start: Start,
) -> Ending
    requires first { image_now (D.view disks.old.first) ≡ None }
    requires second { image_now (D.view disks.old.second) ≡ None }
{
    let server = match server_of(rt.alloc(), node, disks, start) {
        Ok(server) => server,
        Err(fault) => return Ending::of_journal(node, fault),
    };
    say_ready(rt, &node, nodes);
    match spl_serve::serve(rt.alloc(), nodes, server, disks, ports, u64::MAX) {
        Ok(Finish::Turns) => Ending::As(Status::Ok),
        Ok(Finish::Stopped) => Ending::Stopped { node },
        Err(fault) => Ending::of_serve(node, fault),
    }
}

// Serves the node at a position of a registry over its files in a folder.
fn serve_node(
    rt: &HostRuntime,
    registry: Registry,
    position: u8,
    folder: &String,
    start: Start,
) -> Result<Ending, AllocError>
    requires { position < length registry }
{
    let alloc = rt.alloc();
    let node = registry.node(position);
    let nodes = registry.ids(alloc)?;
    if let Some(ending) = first_of_another(rt, folder, &nodes)? {
        return Ok(ending);
    }
    let mut disks = NodeDisks::open(rt, folder, position, start)?;
    if let Err(ending) = may_start(node, &mut disks.pair, start) {
        return Ok(ending);
    }
    if !nodes_file::keep(rt, folder, &nodes)? {
        return Ok(Ending::As(Status::DiskFault { node }));
    }
    let path = format!(in alloc; "{folder}/{SOCKET}")?;
    match Sockets::open(rt, alloc, registry, position, path.as_str(), rt.stderr()) {
        Ok(mut sockets) => {
            let pair = &mut disks.pair;
            let ending = serve_over(rt, node, &nodes, pair, &mut sockets, start);
            sockets.finish();
            Ok(ending)
        }
        Err(fault) => Ok(Ending::of_open(fault)),
    }
}

/// Serves a node of a registry over its files in a folder, until something fails or it is asked to stop.
pub(crate) fn serve(
    rt: &HostRuntime,
    registry: &String,
    name: &String,
    folder: &String,
    is_new: bool,
) -> Result<Ending, AllocError> {
    let registry = match read(rt, registry) {
        Ok(registry) => registry,
        Err(ending) => return Ok(ending),
    };
    let Some(position) = position_of(&registry, name) else {
        return Ok(Ending::Unknown);
    };
    let start = if is_new { Start::First } else { Start::Again };
    serve_node(rt, registry, position, folder, start)
}
