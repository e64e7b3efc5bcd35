//! Lists with a comma between each two items.
ghost use Rattle.std.specs.{Prelude.{◌≡◌, ◌++◌, OnOk, map}, List.join_with_byte};
ghost use Rattle.spl_words.specs.Words.{Reads, joined, up_to};

use crate::fault::LineFault;
use crate::word::Word;
use crate::words::WordReader;
use spl_base::{Listing, Writer};
use std::alloc::{AllocError, Global};
use std::marker::PhantomData;

/// The items of a list have at most this many.
const MOST: usize = 16;

fn read_items<W: Word>(alloc: Global, bytes: &[u8]) -> Result<Listing<W::Value>, LineFault>
    ensures { Reads result ((joined 44 (up_to 16 W.word)).read bytes.now) }
{
    let mut items = Listing::new(alloc);
    let mut words = WordReader::new(bytes, b',');
    while let Some(word) = words.next() {
        if items.len() == MOST {
            return Err(LineFault::BadLine);
        }
        items.push(W::read(alloc, word)?)?;
    }
    Ok(items)
}

fn put_items<W: Word>(items: &[W::Value], w: &mut Writer) -> Result<(), AllocError>
    ensures { OnOk result (w.new ≡ w.old ++ join_with_byte 44 (map W.word.spell items.now)) }
{
    let Some((first, others)) = items.split_first() else {
        return Ok(());
    };
    W::put(first, w)?;
    for item in others {
        w.put_u8(b',')?;
        W::put(item, w)?;
    }
    Ok(())
}

/// 1 to 16 items of one way of spelling, with a comma between each two.
pub struct ListOf<W: Word>(PhantomData<W>);

impl<W: Word> Word for ListOf<W> {
    ghost use Rattle.spl_words.specs.Words.{joined, up_to};

    type Value = Listing<W::Value>;

    ghost word = { joined 44 (up_to 16 W.word) };

    fn read(alloc: Global, bytes: &[u8]) -> Result<Listing<W::Value>, LineFault> {
        read_items::<W>(alloc, bytes)
    }

    fn put(value: &Listing<W::Value>, w: &mut Writer) -> Result<(), AllocError> {
        put_items::<W>(value.as_slice(), w)
    }
}
