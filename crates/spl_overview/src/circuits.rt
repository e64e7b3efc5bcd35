//! The circuits that a node has.
ghost use Rattle.std.specs.Prelude.{◌≤◌};

use crate::cells::{next_of, pass, put_cell};
use crate::waiting::put_waits;
use spl_base::is_text;
use spl_words::WordReader;
use std::alloc::AllocError;

/// The widths of the columns: circuit, generation, lifecycle, mark, acts, pending, batches, pending.
static WIDTHS: [usize; 8] = [11, 10, 10, 9, 10, 7, 10, 7];

static HEADS: [&[u8]; 8] = [
    b"circuit",
    b"generation",
    b"lifecycle",
    b"mark",
    b"acts",
    b"pending",
    b"batches",
    b"pending",
];

/// Appends the heads of the columns of circuits.
pub fn put_circuit_heads(out: &mut Vec<u8>) -> Result<(), AllocError> {
    for place in 0..HEADS.len() {
        put_cell(WIDTHS[place], HEADS[place], out)?;
    }
    out.extend_from_slice(b"\n")
}

// Appends the next words, each in the column of its place.
fn put_cells(
    words: &mut WordReader,
    first: usize,
    behind: usize,
    out: &mut Vec<u8>,
) -> Result<(), AllocError>
    requires { behind ≤ 8 }
{
    for place in first..behind {
        put_cell(WIDTHS[place], next_of(words), out)?;
    }
    Ok(())
}

// Appends the columns of what `show` is answered with, `ok circuit generation G lifecycle L mark M accepted A acts N P batches N P`.
fn put_shown(words: &mut WordReader, out: &mut Vec<u8>) -> Result<(), AllocError> {
    pass(words, 2);
    put_cells(words, 1, 2, out)?;
    pass(words, 1);
    put_cells(words, 2, 3, out)?;
    pass(words, 1);
    put_cells(words, 3, 4, out)?;
    pass(words, 3);
    put_cells(words, 4, 6, out)?;
    pass(words, 1);
    put_cells(words, 6, 8, out)
}

/// Appends a line of a circuit, by the answer to `show`, and a line for each thing that waits there, by the answer to `waits`. Of
/// an answer that is no ok the circuit has its text.
pub fn put_circuit(
    circuit: &[u8],
    shown: &[u8],
    waits: &[u8],
    out: &mut Vec<u8>,
) -> Result<(), AllocError> {
    put_cell(WIDTHS[0], circuit, out)?;
    let mut words = WordReader::new(shown, b' ');
    if is_text(next_of(&mut words), b"ok") {
        put_shown(&mut words, out)?;
    } else {
        out.extend_from_slice(shown)?;
    }
    out.push(b'\n')?;
    put_waits(waits, out)
}
