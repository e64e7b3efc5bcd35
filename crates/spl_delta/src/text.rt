//! The text of an answer to a line of a watcher.
ghost use Rattle.std.specs.{Prelude.{◌≡◌, ◌++◌, ◌∷◌, OnOk, IfOk, decimal}, List.flat_map};
ghost use Rattle.spl_answer.specs.Batches.{hex_text, spaced};
ghost use Rattle.spl_delta.specs.Watches.{change_text, changes_text, delta_text, watch_text};

use crate::answer::WatchAnswer;
use crate::delta::Delta;
use hex::encode;
use itoa::Buffer;
use spl_base::Piece;
use spl_command::StateChange;
use std::alloc::{AllocError, Global};

fn append(bytes: &[u8], out: &mut Vec<u8>) -> Result<(), AllocError>
    ensures { OnOk result (out.new.items ≡ out.old.items ++ bytes.now) }
{
    out.extend_from_slice(bytes)
}

/// Appends the number in decimal digits.
fn append_number(n: u64, out: &mut Vec<u8>) -> Result<(), AllocError>
    ensures { OnOk result (out.new.items ≡ out.old.items ++ decimal n) }
{
    let mut buffer = Buffer::new();
    append(buffer.format(n).as_bytes(), out)
}

/// Appends the text, and the number in decimal digits.
fn append_numbered(text: &[u8], n: u64, out: &mut Vec<u8>) -> Result<(), AllocError>
    ensures { OnOk result (out.new.items ≡ out.old.items ++ (text.now ++ decimal n)) }
{
    append(text, out)?;
    append_number(n, out)
}

/// Appends the bytes as lower-case digits.
fn append_hex(bytes: &[u8], out: &mut Vec<u8>) -> Result<(), AllocError>
    ensures { OnOk result (out.new.items ≡ out.old.items ++ hex_text bytes.now) }
{
    let text = encode(*out.allocator(), bytes)?;
    append(text.as_bytes(), out)
}

fn append_change(change: &StateChange, out: &mut Vec<u8>) -> Result<(), AllocError>
    ensures { OnOk result (out.new.items ≡ out.old.items ++ change_text change.now) }
{
    match change {
        StateChange::Set(address, value) => {
            append_hex(&address.0, out)?;
            append(b"=", out)?;
            append_hex(value.bytes(), out)
        }
        StateChange::Delete(address) => {
            append_hex(&address.0, out)?;
            append(b"!", out)
        }
    }
}

fn append_others(changes: &[StateChange], out: &mut Vec<u8>) -> Result<(), AllocError>
    ensures { OnOk result (out.new.items ≡ out.old.items ++ flat_map (λ x. 44 ∷ change_text x) changes.now) }
{
    for change in changes {
        append(b",", out)?;
        append_change(change, out)?;
    }
    Ok(())
}

/// Appends the changes with `,` between them, or `-` where there are none.
fn append_changes(changes: &[StateChange], out: &mut Vec<u8>) -> Result<(), AllocError>
    ensures { OnOk result (out.new.items ≡ out.old.items ++ changes_text changes.now) }
{
    let Some((first, others)) = changes.split_first() else {
        return append(b"-", out);
    };
    append_change(first, out)?;
    append_others(others, out)
}

/// Appends place, batch and changes.
fn append_delta(delta: &Delta, out: &mut Vec<u8>) -> Result<(), AllocError>
    ensures { OnOk result (out.new.items ≡ out.old.items ++ delta_text delta.now) }
{
    append_number(u64::from(delta.place.0), out)?;
    append(b":", out)?;
    append_number(delta.batch.0, out)?;
    append(b":", out)?;
    append_changes(delta.changes.as_slice(), out)
}

/// Appends each delta after a space.
fn append_deltas(deltas: &[Delta], out: &mut Vec<u8>) -> Result<(), AllocError>
    ensures { OnOk result (out.new.items ≡ out.old.items ++ spaced delta_text deltas.now) }
{
    for delta in deltas {
        append(b" ", out)?;
        append_delta(delta, out)?;
    }
    Ok(())
}

impl WatchAnswer {
    /// Appends the text of the answer, without number and line feed. Where memory runs out, a part of it may stand there.
    pub fn append_text(&self, out: &mut Vec<u8>) -> Result<(), AllocError>
        ensures { OnOk result (out.new.items ≡ out.old.items ++ watch_text self.now) }
    {
        match self {
            WatchAnswer::Watching(place) => {
                append_numbered(b"ok watching ", u64::from(place.0), out)
            }
            WatchAnswer::Taken(deltas) => {
                append_numbered(b"ok delta ", deltas.len() as u64, out)?;
                append_deltas(deltas.as_slice(), out)
            }
            WatchAnswer::Down => append(b"refused 1", out),
            WatchAnswer::NoCircuit => append(b"refused 2", out),
            WatchAnswer::NotActive => append(b"refused 11", out),
            WatchAnswer::NameTaken => append(b"refused 21", out),
            WatchAnswer::BadPlace { committed } => {
                append_numbered(b"refused 22 ", u64::from(committed.0), out)
            }
            WatchAnswer::NoWatcher => append(b"refused 23", out),
            WatchAnswer::WrongCircuit => append(b"refused 24", out),
            WatchAnswer::TooManyWatchers => append(b"refused 25", out),
        }
    }

    /// The text of the answer, without number and line feed. Fails only where memory runs out.
    pub fn text(&self, alloc: Global) -> Result<Piece, AllocError>
        ensures { IfOk result (λ p. p ≡ watch_text self.now) }
    {
        let mut out = Vec::new(alloc);
        self.append_text(&mut out)?;
        Piece::from(alloc, out.as_slice())
    }
}
