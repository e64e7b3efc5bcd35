//! `status`: what the node that serves a folder has, laid out for people.
use crate::ask::{answer_of, connect};
use crate::ending::Ending;
use crate::nodes_file;
use spl_cli::Status;
use spl_overview::{own_node, put_circuit, put_circuit_heads, put_peers};
use spl_words::WordReader;
use std::alloc::AllocError;
use std::io::{BufReader, Write};
use std::os::unix::net::UnixStream;

// What a node answers to a line, without its line feed.
fn told(
    rt: &HostRuntime,
    node: &mut BufReader<UnixStream>,
    line: &[u8],
) -> Result<Option<Vec<u8>>, AllocError> {
    let mut answer = answer_of(rt, node, line)?;
    if let Some(text) = &mut answer {
        text.pop();
    }
    Ok(answer)
}

// What it answers to a line about a circuit.
fn told_of(
    rt: &HostRuntime,
    node: &mut BufReader<UnixStream>,
    name: &[u8],
    circuit: &[u8],
) -> Result<Option<Vec<u8>>, AllocError> {
    let mut line = Vec::from_slice(rt.alloc(), name)?;
    line.extend_from_slice(circuit)?;
    told(rt, node, line.as_slice())
}

// Appends the node that serves a folder, and its peers; whether it answered.
fn put_node(
    rt: &HostRuntime,
    node: &mut BufReader<UnixStream>,
    folder: &String,
    out: &mut Vec<u8>,
) -> Result<bool, AllocError> {
    let Some(peers) = told(rt, node, b"peers")? else {
        return Ok(false);
    };
    let nodes = nodes_file::list_in(rt, folder)?;
    out.extend_from_slice(b"node ")?;
    out.extend_from_slice(own_node(nodes.as_slice(), peers.as_slice()))?;
    out.extend_from_slice(b"\n\n")?;
    put_peers(peers.as_slice(), out)?;
    Ok(true)
}

// Appends a circuit; whether the node answered.
fn put_one(
    rt: &HostRuntime,
    node: &mut BufReader<UnixStream>,
    circuit: &[u8],
    out: &mut Vec<u8>,
) -> Result<bool, AllocError> {
    let Some(shown) = told_of(rt, node, b"show ", circuit)? else {
        return Ok(false);
    };
    let Some(waits) = told_of(rt, node, b"waits ", circuit)? else {
        return Ok(false);
    };
    put_circuit(circuit, shown.as_slice(), waits.as_slice(), out)?;
    Ok(true)
}

// Appends its circuits, by the answer to `roll`; whether it answered.
fn put_circuits(
    rt: &HostRuntime,
    node: &mut BufReader<UnixStream>,
    out: &mut Vec<u8>,
) -> Result<bool, AllocError> {
    let Some(roll) = told(rt, node, b"roll")? else {
        return Ok(false);
    };
    out.extend_from_slice(b"\n")?;
    put_circuit_heads(out)?;
    let Some(list) = roll.strip_prefix(b"ok roll ") else {
        return Ok(true);
    };
    let mut words = WordReader::new(list, b' ');
    let _count = words.next();
    for _ in 0..u64::MAX {
        let Some(circuit) = words.next() else {
            break;
        };
        if !put_one(rt, node, circuit, out)? {
            return Ok(false);
        }
    }
    Ok(true)
}

/// Writes what the node that serves a folder has: its peers, its circuits, and for whom they wait.
pub(crate) fn overview(rt: &HostRuntime, folder: &String) -> Result<Ending, AllocError> {
    let Some(mut node) = connect(rt, folder)? else {
        return Ok(Ending::NoNode);
    };
    let mut out = Vec::new(rt.alloc());
    if !put_node(rt, &mut node, folder, &mut out)? {
        return Ok(Ending::Gone);
    }
    if !put_circuits(rt, &mut node, &mut out)? {
        return Ok(Ending::Gone);
    }
    if rt.stdout().write_all(out.as_slice()).is_err() {
        return Ok(Ending::As(Status::WriteFault));
    }
    Ok(Ending::As(Status::Ok))
}
