//! For whom a circuit waits.
use crate::cells::next_of;
use spl_base::is_text;
use spl_words::WordReader;
use std::alloc::AllocError;

// What is waited for of whom: of an act or a batch that has a name.
fn put_named(what: &[u8], name: &[u8], step: &[u8], out: &mut Vec<u8>) -> Result<(), AllocError> {
    if is_text(step, b"vote") {
        out.extend_from_slice(b"its vote on ")?;
    } else {
        out.extend_from_slice(b"to begin a round of ")?;
    }
    out.extend_from_slice(what)?;
    if is_text(what, b"act") {
        out.extend_from_slice(b" of")?;
    }
    out.extend_from_slice(b" ")?;
    out.extend_from_slice(name)
}

fn put_what(what: &[u8], name: &[u8], step: &[u8], out: &mut Vec<u8>) -> Result<(), AllocError> {
    if is_text(what, b"circuit") {
        out.extend_from_slice(b"to accept the ")?;
        return out.extend_from_slice(name);
    }
    if is_text(step, b"decision") {
        out.extend_from_slice(b"to tell how it decided on the ")?;
        return out.extend_from_slice(what);
    }
    put_named(what, name, step, out)
}

// Appends a line of what a word of `waits` says.
fn put_wait(word: &[u8], out: &mut Vec<u8>) -> Result<(), AllocError> {
    let mut parts = WordReader::new(word, b':');
    let what = next_of(&mut parts);
    let name = next_of(&mut parts);
    let step = next_of(&mut parts);
    out.extend_from_slice(b"  waits for ")?;
    out.extend_from_slice(next_of(&mut parts))?;
    out.extend_from_slice(b": ")?;
    put_what(what, name, step, out)?;
    out.extend_from_slice(b"\n")
}

/// Appends a line for each thing that waits, by the answer to `waits`.
pub(crate) fn put_waits(answer: &[u8], out: &mut Vec<u8>) -> Result<(), AllocError> {
    let mut words = WordReader::new(answer, b' ');
    if !is_text(next_of(&mut words), b"ok") {
        return Ok(());
    }
    let _ = words.next();
    for _ in 0..u64::MAX {
        let Some(word) = words.next() else {
            break;
        };
        put_wait(word, out)?;
    }
    Ok(())
}
