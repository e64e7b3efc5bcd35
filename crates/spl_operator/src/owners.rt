//! Whether the files in a folder are those of a registry's nodes.
ghost use Rattle.std.specs.Prelude.{◌≡◌, None};
ghost use Rattle.spl_edge.specs.Devices.{image_now};

use crate::ending::Ending;
use crate::nodes_file::{Listed, compare};
use crate::registry::read;
use spl_base::{CircuitId, NodeId, Piece};
use spl_cli::Status;
use spl_device::{Access, Folder};
use spl_edge::{Disk, Pair};
use spl_journal::JournalFault;
use spl_look::first_without;
use std::alloc::{AllocError, Global};

/// A position at which a journal binds a circuit of which the registry's node there is no member.
#[derive(Drop)]
pub(crate) struct Stray {
    position: usize,
    node: NodeId,
    circuit: CircuitId,
}

impl Stray {
    /// The line that tells it.
    pub(crate) fn text(&self, alloc: Global) -> Result<Piece, AllocError> {
        let before = format!(in alloc; "files at position {} hold circuit ", self.position)?;
        let mut text = Vec::from_slice(alloc, before.as_bytes())?;
        text.extend_from_slice(self.circuit.bytes())?;
        text.extend_from_slice(b", of which ")?;
        text.extend_from_slice(self.node.bytes())?;
        text.extend_from_slice(b" is no member")?;
        Piece::from(alloc, &text)
    }
}

// The first circuit that the disks of a node bind without it. Disks that can't be read, or are damaged, have none.
fn bound_without<D: Disk>(
    alloc: Global,
    node: &NodeId,
    disks: &mut Pair<D>,
) -> Result<Option<CircuitId>, AllocError>
    requires first { image_now (D.view disks.old.first) ≡ None }
    requires second { image_now (D.view disks.old.second) ≡ None }
{
    match first_without(alloc, node, disks) {
        Ok(circuit) => Ok(circuit),
        Err(JournalFault::NoMemory) => Err(AllocError),
        Err(_) => Ok(None),
    }
}

// The first stray from a position on, by the files themselves.
fn first_stray(
    rt: &HostRuntime,
    folder: &String,
    nodes: &[NodeId],
    from: usize,
) -> Result<Option<Stray>, AllocError> {
    if from >= nodes.len() {
        return Ok(None);
    }
    let mut folder = Folder::open(rt, Some(folder), Access::Read)?;
    for position in from..nodes.len() {
        let Some(disks) = folder.shelf.pairs.get_mut(position) else {
            break;
        };
        let node = nodes[position];
        if let Some(circuit) = bound_without(rt.alloc(), &node, disks)? {
            return Ok(Some(Stray {
                position,
                node,
                circuit,
            }));
        }
    }
    Ok(None)
}

/// How the program ends where files in a folder are another node's than the registry's: by the list beside them, and from the first
/// position that it lacks on by what their journals bind. No file is changed.
pub(crate) fn first_of_another(
    rt: &HostRuntime,
    folder: &String,
    nodes: &[NodeId],
) -> Result<Option<Ending>, AllocError> {
    let from = match compare(rt, folder, nodes)? {
        Listed::Another(exchanged) => return Ok(Some(Ending::Exchanged(exchanged))),
        Listed::Same { count } => count,
    };
    match first_stray(rt, folder, nodes, from)? {
        Some(stray) => Ok(Some(Ending::Stray(stray))),
        None => Ok(None),
    }
}

/// Says that alone; whatever else is wrong is left to the run that is asked for.
pub(crate) fn owners(
    rt: &HostRuntime,
    registry: &String,
    folder: &String,
) -> Result<Ending, AllocError> {
    let Ok(registry) = read(rt, registry) else {
        return Ok(Ending::As(Status::Ok));
    };
    let nodes = registry.ids(rt.alloc())?;
    match first_of_another(rt, folder, &nodes)? {
        Some(ending) => Ok(ending),
        None => Ok(Ending::As(Status::Ok)),
    }
}
