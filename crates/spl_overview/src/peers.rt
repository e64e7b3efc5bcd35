//! A node and its peers.
use crate::cells::{next_of, pass, put_cell};
use spl_base::is_text;
use spl_words::WordReader;
use std::alloc::AllocError;

/// The words that `peers` has of each peer.
const WORDS: usize = 13;

// Whether the answer to `peers` has a peer of this name.
fn has_peer(answer: &[u8], node: &[u8]) -> bool {
    let mut words = WordReader::new(answer, b' ');
    pass(&mut words, 2);
    for _ in 0..u64::MAX {
        let Some(name) = words.next() else {
            break;
        };
        if is_text(name, node) {
            return true;
        }
        pass(&mut words, WORDS - 1);
    }
    false
}

/// The node that isn't one of its own peers, by the nodes of its registry, a line each, and the answer to `peers`; an empty name
/// where each is.
pub fn own_node<'a>(nodes: &'a [u8], answer: &[u8]) -> &'a [u8] {
    let mut lines = WordReader::new(nodes, b'\n');
    for _ in 0..u64::MAX {
        let Some(node) = lines.next() else {
            break;
        };
        if !node.is_empty() && !has_peer(answer, node) {
            return node;
        }
    }
    &[]
}

// Appends a number of seconds.
fn put_seconds(seconds: &[u8], out: &mut Vec<u8>) -> Result<(), AllocError> {
    if is_text(seconds, b"-") {
        return put_cell(12, b"never", out);
    }
    put_cell(9, seconds, out)?;
    out.extend_from_slice(b"s ")
}

// Appends a line of a peer, whose name is this, by the words behind it: `STATE SECONDS out MESSAGES BYTES in MESSAGES BYTES
// dropped MESSAGES heard SECONDS`.
fn put_peer(name: &[u8], words: &mut WordReader, out: &mut Vec<u8>) -> Result<(), AllocError> {
    put_cell(16, name, out)?;
    put_cell(6, next_of(words), out)?;
    put_seconds(next_of(words), out)?;
    pass(words, 1);
    put_cell(10, next_of(words), out)?;
    pass(words, 2);
    put_cell(10, next_of(words), out)?;
    pass(words, 2);
    put_cell(10, next_of(words), out)?;
    pass(words, 1);
    put_seconds(next_of(words), out)?;
    out.extend_from_slice(b"\n")
}

/// Appends a line for each peer, with heads above them, by the answer to `peers`.
pub fn put_peers(answer: &[u8], out: &mut Vec<u8>) -> Result<(), AllocError> {
    let mut words = WordReader::new(answer, b' ');
    pass(&mut words, 2);
    put_cell(16, b"peer", out)?;
    put_cell(6, b"state", out)?;
    put_cell(12, b"since", out)?;
    put_cell(10, b"sent", out)?;
    put_cell(10, b"received", out)?;
    put_cell(10, b"dropped", out)?;
    out.extend_from_slice(b"heard\n")?;
    for _ in 0..u64::MAX {
        let Some(name) = words.next() else {
            break;
        };
        put_peer(name, &mut words, out)?;
    }
    Ok(())
}
