//! Reading a line of a watcher.
ghost use Rattle.std.specs.{Prelude.{◌≡◌, ◌∷◌, Some, None, IfOk, IsTrue, ◌^◌}, List.list_all, Option.option_map, Result.IsErrOf};
ghost use Rattle.spl_words.specs.Words.{Reads, Takes, read_first, that, number, text};
ghost use Rattle.spl_delta.specs.Watches.{is_watcher_byte, is_watcher_name, is_count, watch, pull, read_watch_words, watch_line_of, watch_spelling};
ghost use Rattle.spl_delta.specs.{Watches.is_watch_line, declared.line.WatchLine.TheVariants.{Watch, Pull}};

use crate::line::WatchLine;
use spl_agree::Place;
use spl_base::{CircuitId, Label, NodeId};
use spl_words::{LineFault, WordReader, take};
use std::alloc::Global;

/// A pull takes at most this many deltas.
pub const MOST_PULLED: u8 = 64;

fn is_name_byte(b: u8) -> bool
    ensures { result ≡ is_watcher_byte b }
{
    b.is_ascii_lowercase() || b.is_ascii_digit()
}

fn are_name_bytes(bytes: &[u8]) -> bool
    ensures { result ≡ list_all is_watcher_byte bytes.now }
{
    bytes.iter().all(|b| is_name_byte(*b))
}

fn is_watcher_name(bytes: &[u8]) -> bool
    ensures { result ≡ is_watcher_name bytes.now }
{
    !bytes.is_empty() && bytes.len() <= 8 && are_name_bytes(bytes)
}

#[tactic(auto, using(crate::proofs::WatchLaws::unlabelled))]
fn read_name(bytes: &[u8]) -> Result<Label, LineFault>
    ensures { Reads result ((text is_watcher_name).read bytes.now) }
{
    let Some(name) = Label::read(bytes) else {
        return Err(LineFault::BadLine);
    };
    if !is_watcher_name(bytes) {
        return Err(LineFault::BadLine);
    }
    Ok(name)
}

/// Takes the name of a watcher.
fn take_name(words: &mut WordReader) -> Result<Label, LineFault>
    ensures { Takes result words.new (read_first (text is_watcher_name) words.old) }
{
    match words.next() {
        Some(bytes) => read_name(bytes),
        None => Err(LineFault::BadLine),
    }
}

/// Takes how many deltas a pull asks for.
fn take_count(alloc: Global, words: &mut WordReader) -> Result<u32, LineFault>
    ensures { Takes result words.new (read_first (that is_count (number (2 ^ 8))) words.old) }
{
    let count = take::<u8>(alloc, words)?;
    if count < 1 || count > MOST_PULLED {
        return Err(LineFault::BadLine);
    }
    Ok(u32::from(count))
}

/// The line that makes a watcher, by the words after its name.
fn read_start(alloc: Global, words: &mut WordReader) -> Result<WatchLine, LineFault>
    ensures { Reads result (option_map (λ x. Watch x.0 x.1.0 x.1.1.0 x.1.1.1.0) (watch.read words.old)) }
{
    let node = take::<NodeId>(alloc, words)?;
    let circuit = take::<CircuitId>(alloc, words)?;
    let name = take_name(words)?;
    let place = Place(take::<u32>(alloc, words)?);
    words.end()?;
    Ok(WatchLine::Watch {
        node,
        circuit,
        name,
        place,
    })
}

/// The line by which a watcher takes, by the words after its name.
fn read_pull(alloc: Global, words: &mut WordReader) -> Result<WatchLine, LineFault>
    ensures { Reads result (option_map (λ x. Pull x.0 x.1.0 x.1.1.0 x.1.1.1.0) (pull.read words.old)) }
{
    let node = take::<NodeId>(alloc, words)?;
    let circuit = take::<CircuitId>(alloc, words)?;
    let name = take_name(words)?;
    let count = take_count(alloc, words)?;
    words.end()?;
    Ok(WatchLine::Pull {
        node,
        circuit,
        name,
        count,
    })
}

/// The line that the words after its name spell.
fn read_after(alloc: Global, name: &[u8], words: &mut WordReader) -> Result<WatchLine, LineFault>
    ensures { Reads result (read_watch_words (name.now ∷ words.old)) }
{
    if name == b"watch".as_slice() {
        return read_start(alloc, words);
    }
    if name == b"pull".as_slice() {
        return read_pull(alloc, words);
    }
    Err(LineFault::BadLine)
}

/// The line of a watcher that the bytes spell, or `BadLine` where they spell none. Fails besides only where memory runs out.
pub fn read_watch(alloc: Global, line: &[u8]) -> Result<WatchLine, LineFault>
    ensures ok { IfOk result (λ l. watch_line_of line.now ≡ Some l) }
    ensures bad { IsErrOf result LineFault.BadLine → watch_line_of line.now ≡ None }
    ensures spelled { IfOk result (λ l. (line.now ≡ watch_spelling l) × IsTrue (is_watch_line l)) }
{
    let mut words = WordReader::new(line, b' ');
    match words.next() {
        Some(name) => read_after(alloc, name, &mut words),
        None => Err(LineFault::BadLine),
    }
}
