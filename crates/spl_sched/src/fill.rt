//! What a disk keeps, as a word.
ghost use Rattle.std.specs.Prelude.{None};
ghost use Rattle.spl_words.specs.Words.{Reads, read_kind};
ghost use Rattle.spl_sched.specs.Grammar.{fill_kinds};

use spl_base::Writer;
use spl_edge::Fill;
use spl_words::{Hex, LineFault, Word, WordReader, take};
use std::alloc::{AllocError, Global};

fn read_fill(alloc: Global, name: &[u8], words: &mut WordReader) -> Result<Fill, LineFault>
    ensures { Reads result (read_kind fill_kinds None name.now words.old) }
{
    let fill = if name == b"old".as_slice() {
        Fill::Old
    } else if name == b"new".as_slice() {
        Fill::New
    } else if name == b"byte".as_slice() {
        Fill::Byte(take::<Hex>(alloc, words)?)
    } else {
        return Err(LineFault::BadLine);
    };
    words.end()?;
    Ok(fill)
}

/// old, new or byte:HH.
pub(crate) struct FillText;

impl Word for FillText {
    ghost use Rattle.spl_sched.specs.Grammar.{fill};

    type Value = Fill;

    ghost word = { fill };

    fn read(alloc: Global, bytes: &[u8]) -> Result<Fill, LineFault> {
        let mut words = WordReader::new(bytes, b':');
        match words.next() {
            Some(name) => read_fill(alloc, name, &mut words),
            None => Err(LineFault::BadLine),
        }
    }

    fn put(value: &Fill, w: &mut Writer) -> Result<(), AllocError> {
        match value {
            Fill::Old => w.put_raw(b"old"),
            Fill::New => w.put_raw(b"new"),
            Fill::Byte(byte) => {
                w.put_raw(b"byte:")?;
                Hex::put(byte, w)
            }
        }
    }
}
