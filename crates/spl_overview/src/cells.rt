//! Cells of a table.
ghost use Rattle.std.specs.Prelude.{◌≡◌, ◌++◌, OnOk, replicate};
ghost use Rattle.spl_overview.specs.Cells.{cell};

use spl_words::WordReader;
use std::alloc::AllocError;

fn put_spaces(count: usize, out: &mut Vec<u8>) -> Result<(), AllocError>
    ensures { OnOk result (out.new.items ≡ out.old.items ++ replicate count 32) }
{
    for _ in 0..count {
        out.push(b' ')?;
    }
    Ok(())
}

/// Appends a text, spaces up to the width of its column, and one more.
pub(crate) fn put_cell(width: usize, text: &[u8], out: &mut Vec<u8>) -> Result<(), AllocError>
    ensures { OnOk result (out.new.items ≡ out.old.items ++ cell width text.now) }
{
    out.extend_from_slice(text)?;
    put_spaces(width.saturating_sub(text.len()), out)?;
    out.extend_from_slice(b" ")
}

/// The next word; an empty one where there is none.
pub(crate) fn next_of<'a>(words: &mut WordReader<'a>) -> &'a [u8] {
    match words.next() {
        Some(word) => word,
        None => &[],
    }
}

/// Passes over words.
pub(crate) fn pass(words: &mut WordReader, count: usize) {
    for _ in 0..count {
        let _ = words.next();
    }
}
