//! Numbers and heads in a journal's bytes.
ghost use Rattle.std.specs.Prelude.{◌≡◌, ◌≤◌, Some, None, length, IfOk, IfErr, OnOk};
ghost use Rattle.spl_base.specs.declared.limit.TheConstants.{LONGEST_RECORD};
ghost use Rattle.spl_journal.specs.Records.{size_bytes, size_from, epoch_bytes, epoch_from, closed_prefix, closed_head, form_in, head_fault, sized};

use crate::journal_form::{JournalForm, WRITTEN, form_in};
use std::alloc::{AllocError, Global};

pub(crate) fn size_bytes(size: u32) -> [u8; 4]
    ensures { result ≡ size_bytes size }
{
    size.to_be_bytes()
}

pub(crate) fn size_from(bytes: [u8; 4]) -> u32
    ensures value { result ≡ size_from bytes }
    ensures back { size_bytes result ≡ bytes }
{
    u32::from_be_bytes(bytes)
}

pub(crate) fn epoch_bytes(epoch: u64) -> [u8; 8]
    ensures { result ≡ epoch_bytes epoch }
{
    epoch.to_be_bytes()
}

pub(crate) fn epoch_from(bytes: [u8; 8]) -> u64
    ensures { result ≡ epoch_from bytes }
{
    u64::from_be_bytes(bytes)
}

/// The head of a journal up to its gate, which is closed.
pub(crate) fn closed_prefix(epoch: u64) -> [u8; 17]
    ensures { result ≡ closed_prefix epoch }
{
    let mut prefix = [0; 17];
    prefix[..8].copy_from_slice(&WRITTEN.magic);
    prefix[8..16].copy_from_slice(&epoch_bytes(epoch));
    prefix
}

/// The head of a journal and the first gate after it, both closed.
pub(crate) fn closed_head(alloc: Global, epoch: u64) -> Result<Vec<u8>, AllocError>
    ensures { IfOk result (λ head. head.items ≡ closed_head epoch) }
{
    let mut head = Vec::new(alloc);
    head.extend_from_slice(&closed_prefix(epoch))?;
    head.push(0)?;
    Ok(head)
}

/// The form of the journal whose head this is, or where it is wrong.
pub(crate) fn head_form(bytes: &[u8]) -> Result<JournalForm, u64>
    ensures form { IfOk result (λ form. form_in bytes.now ≡ Some form) }
    ensures ok { OnOk result (head_fault bytes.now ≡ None) }
    ensures not { IfErr result (λ at. head_fault bytes.now ≡ Some at) }
{
    if bytes.len() < 18 {
        return Err(0);
    }
    let Some(form) = form_in(bytes) else {
        return Err(0);
    };
    if bytes[16] != 1 {
        return Err(16);
    }
    Ok(form)
}

/// What an append writes after the closed gate: the length, the record and the next gate. It takes the memory of what
/// the last one wrote, where there was one.
pub(crate) fn sized(
    alloc: Global,
    last: Option<Vec<u8>>,
    bytes: &[u8],
) -> Result<Vec<u8>, AllocError>
    requires most { length bytes.now ≤ LONGEST_RECORD }
    ensures { IfOk result (λ piece. piece.items ≡ sized bytes.now) }
{
    let mut piece = match last {
        Some(last) => last,
        None => Vec::new(alloc),
    };
    piece.clear();
    piece.try_reserve(bytes.len() + 5)?;
    piece.extend_from_slice(&size_bytes(bytes.len() as u32))?;
    piece.extend_from_slice(bytes)?;
    piece.push(0)?;
    Ok(piece)
}
