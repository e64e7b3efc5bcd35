//! The nodes of which a folder's files are, by their positions: a list that is kept beside the files.
ghost use Rattle.std.specs.Prelude.{◌≤◌, length};

use spl_base::{NodeId, Piece};
use std::alloc::{AllocError, Global};
use std::fs;
use std::io::{ErrorKind, Read, Write};

/// The name of the list: an id and a line feed for each position of the registry.
const NODES: &str = "nodes";

/// The most bytes that are read of it.
const MOST: usize = 4_096;

/// A position at which the list has another node than the registry.
#[derive(Drop)]
pub(crate) struct Exchanged {
    pub(crate) position: usize,
    /// The node that the list has there.
    pub(crate) listed: Vec<u8>,
}

/// What the list says of a registry's nodes.
#[derive(Drop)]
pub(crate) enum Listed {
    /// It has so many of them at its first positions, and no other node.
    Same { count: usize },
    /// It has another node at one.
    Another(Exchanged),
}

impl Exchanged {
    /// The line that tells it.
    pub(crate) fn text(&self, alloc: Global) -> Result<Piece, AllocError> {
        let mut text = Vec::from_slice(alloc, b"files of ")?;
        text.extend_from_slice(self.listed.as_slice())?;
        let rest = format!(in alloc;
            " at position {}, where the registry has another node",
            self.position
        )?;
        text.extend_from_slice(rest.as_bytes())?;
        Piece::from(alloc, &text)
    }
}

// What the list has; nothing where there is none.
fn read_list(rt: &HostRuntime, path: &str) -> Result<Option<Vec<u8>>, AllocError> {
    let mut list = Vec::new(rt.alloc());
    let mut file = match fs::open(rt, path) {
        Ok(file) => file,
        Err(error) if error.kind() == ErrorKind::NotFound => return Ok(Some(list)),
        Err(_) => return Ok(None),
    };
    let mut buf = [0u8; MOST];
    let Ok(count) = file.read(&mut buf) else {
        return Ok(None);
    };
    list.extend_from_slice(&buf[..count])?;
    Ok(Some(list))
}

// How many bytes the first line has, where it is whole.
fn first_line(list: &[u8]) -> usize
    ensures { result ≤ length list.now }
{
    match list.iter().position(|b| *b == b'\n') {
        Some(place) => place,
        None => 0,
    }
}

// What follows a node's line in a list, where it begins with that.
fn after<'a>(list: &'a [u8], node: &NodeId) -> Option<&'a [u8]> {
    list.strip_prefix(node.bytes())?.strip_prefix(b"\n")
}

// What a list says. A line that was cut off counts as none.
fn compare_list(alloc: Global, list: &[u8], nodes: &[NodeId]) -> Result<Listed, AllocError> {
    let mut rest = list;
    let mut position = 0usize;
    for node in nodes {
        if let Some(more) = after(rest, node) {
            rest = more;
            position = position.saturating_add(1);
            continue;
        }
        let listed = Vec::from_slice(alloc, &rest[..first_line(rest)])?;
        return Ok(if listed.is_empty() {
            Listed::Same { count: position }
        } else {
            Listed::Another(Exchanged { position, listed })
        });
    }
    Ok(Listed::Same { count: position })
}

fn path_in(alloc: Global, folder: &String) -> Result<String, AllocError> {
    format!(in alloc; "{folder}/{NODES}")
}

/// What the list beside the files of a folder says. One that can't be read has no node.
pub(crate) fn compare(
    rt: &HostRuntime,
    folder: &String,
    nodes: &[NodeId],
) -> Result<Listed, AllocError> {
    let path = path_in(rt.alloc(), folder)?;
    match read_list(rt, path.as_str())? {
        Some(list) => compare_list(rt.alloc(), list.as_slice(), nodes),
        None => Ok(Listed::Same { count: 0 }),
    }
}

// The list of these nodes.
fn list_of(alloc: Global, nodes: &[NodeId]) -> Result<Vec<u8>, AllocError> {
    let mut list = Vec::new(alloc);
    for node in nodes {
        list.extend_from_slice(node.bytes())?;
        list.push(b'\n')?;
    }
    Ok(list)
}

/// Keeps the list of these nodes beside the files of a folder, where it has fewer; whether it is there then.
pub(crate) fn keep(
    rt: &HostRuntime,
    folder: &String,
    nodes: &[NodeId],
) -> Result<bool, AllocError> {
    let path = path_in(rt.alloc(), folder)?;
    let list = list_of(rt.alloc(), nodes)?;
    match read_list(rt, path.as_str())? {
        Some(held) if held.len() >= list.len() => return Ok(true),
        Some(_) => {}
        None => return Ok(false),
    }
    let Ok(mut file) = fs::create(rt, path.as_str()) else {
        return Ok(false);
    };
    Ok(file.write_all(list.as_slice()).is_ok() && file.sync_all().is_ok())
}

/// The list beside the files of a folder, an id and a line feed each; an empty one where it can't be read.
pub(crate) fn list_in(rt: &HostRuntime, folder: &String) -> Result<Vec<u8>, AllocError> {
    let path = path_in(rt.alloc(), folder)?;
    match read_list(rt, path.as_str())? {
        Some(list) => Ok(list),
        None => Ok(Vec::new(rt.alloc())),
    }
}
