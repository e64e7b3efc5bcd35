//! The texts of answers about batches and the state that they left.
ghost use Rattle.std.specs.Prelude.{◌≡◌, ◌++◌, OnOk, decimal};
ghost use Rattle.spl_answer.specs.{Batches.{spaced, hex_text, root_text, proof_text, history_text, value_text, entry_text, entries_text}, Texts.status_text};

use crate::note::append_reason;
use crate::part::{append, append_number, append_numbered};
use hex::encode;
use spl_base::{BatchId, Piece};
use spl_wire::{BatchStatus, Entry};
use std::alloc::AllocError;

/// Appends the bytes as lower-case digits.
fn append_hex(bytes: &[u8], out: &mut Vec<u8>) -> Result<(), AllocError>
    ensures { OnOk result (out.new.items ≡ out.old.items ++ hex_text bytes.now) }
{
    let text = encode(*out.allocator(), bytes)?;
    append(text.as_bytes(), out)
}

/// Appends the text of a root.
pub(crate) fn append_root(count: u32, root: &[u8], out: &mut Vec<u8>) -> Result<(), AllocError>
    ensures { OnOk result (out.new.items ≡ out.old.items ++ root_text count root.now) }
{
    append_numbered(b"ok root ", u64::from(count), out)?;
    append(b" ", out)?;
    append_hex(root, out)
}

/// Appends the text of a proof under a root.
pub(crate) fn append_proof(root: &[u8], bytes: &[u8], out: &mut Vec<u8>) -> Result<(), AllocError>
    ensures { OnOk result (out.new.items ≡ out.old.items ++ proof_text root.now bytes.now) }
{
    append(b"ok proof ", out)?;
    append_hex(root, out)?;
    append(b" ", out)?;
    append_hex(bytes, out)
}

fn append_ids(ids: &[BatchId], out: &mut Vec<u8>) -> Result<(), AllocError>
    ensures { OnOk result (out.new.items ≡ out.old.items ++ spaced decimal ids.now) }
{
    for id in ids {
        append_numbered(b" ", id.0, out)?;
    }
    Ok(())
}

/// Appends the text of a history.
pub(crate) fn append_history(ids: &[BatchId], out: &mut Vec<u8>) -> Result<(), AllocError>
    ensures { OnOk result (out.new.items ≡ out.old.items ++ history_text ids.now) }
{
    append_numbered(b"ok history ", ids.len() as u64, out)?;
    append_ids(ids, out)
}

/// Appends the text of the value at an address.
pub(crate) fn append_value(value: &Option<Piece>, out: &mut Vec<u8>) -> Result<(), AllocError>
    ensures { OnOk result (out.new.items ≡ out.old.items ++ value_text value.now) }
{
    match value {
        None => append(b"ok none", out),
        Some(value) => {
            append(b"ok value ", out)?;
            append_hex(value.bytes(), out)
        }
    }
}

fn append_entry(entry: &Entry, out: &mut Vec<u8>) -> Result<(), AllocError>
    ensures { OnOk result (out.new.items ≡ out.old.items ++ entry_text entry.now) }
{
    append_hex(&entry.address.0, out)?;
    append(b"=", out)?;
    append_hex(entry.value.bytes(), out)
}

fn append_all_entries(entries: &[Entry], out: &mut Vec<u8>) -> Result<(), AllocError>
    ensures { OnOk result (out.new.items ≡ out.old.items ++ spaced entry_text entries.now) }
{
    for entry in entries {
        append(b" ", out)?;
        append_entry(entry, out)?;
    }
    Ok(())
}

/// Appends the text of the entries under a prefix.
pub(crate) fn append_entries(entries: &[Entry], out: &mut Vec<u8>) -> Result<(), AllocError>
    ensures { OnOk result (out.new.items ≡ out.old.items ++ entries_text entries.now) }
{
    append_numbered(b"ok entries ", entries.len() as u64, out)?;
    append_all_entries(entries, out)
}

/// Appends the text of where a batch stands.
pub(crate) fn append_status(status: BatchStatus, out: &mut Vec<u8>) -> Result<(), AllocError>
    ensures { OnOk result (out.new.items ≡ out.old.items ++ status_text status) }
{
    match status {
        BatchStatus::Committed(place) => {
            append_numbered(b"ok status committed ", u64::from(place.0), out)
        }
        BatchStatus::Pending => append(b"ok status pending", out),
        BatchStatus::Refused(reason) => append_reason(b"ok status refused ", reason, out),
    }
}
