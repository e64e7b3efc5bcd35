//! Bytes at an offset.
ghost use Rattle.std.specs.Prelude.{◌≡◌, ◌≤◌, ◌+◌, length, vec_capacity, OnOk, OnErr, IsOk};
ghost use Rattle.spl_edge.specs.Devices.{patched};

use std::alloc::AllocError;

/// The most bytes that a disk has.
pub(crate) const MOST: usize = i64::MAX as usize;

/// Other bytes at an offset.
pub(crate) fn patch(bytes: &mut Vec<u8>, at: usize, piece: &[u8]) -> Result<(), AllocError>
    requires within { at ≤ length bytes.old.items }
    ensures ok { OnOk result (bytes.new.items ≡ patched bytes.old.items at piece.now) }
    ensures err { OnErr result (bytes.new.items ≡ bytes.old.items) }
{
    if at == bytes.len() {
        return bytes.extend_from_slice(piece);
    }
    let over = piece.len().min(bytes.len() - at);
    bytes.extend_from_slice(&piece[over..])?;
    bytes[at..at + over].copy_from_slice(&piece[..over]);
    Ok(())
}
