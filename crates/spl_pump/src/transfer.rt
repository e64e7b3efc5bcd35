//! Bytes from one node to another, a piece at a time.
ghost use Rattle.std.specs.Prelude.{◌≡◌, ◌≤◌, ◌<◌, ◌-◌, ℕ, min, length, take, drop, IfOk, IfErr, OnErr, OnOk};
ghost use Rattle.spl_edge.specs.{Devices.AreTaken, declared.fabric.TheConstants.PIECE};
ghost use Rattle.spl_pump.specs.Moves.{Grows, GrowsAtMost, GrowsPart, AreDue, LinkHasCause, IsFault};

use crate::fault::PumpFault;
use spl_edge::{Fabric, PIECE};
use std::alloc::Global;

/// Takes as many bytes as the buffer has.
fn take_all<F: Fabric>(fabric: &mut F, from: u8, to: u8, buf: &mut [u8]) -> Result<(), PumpFault>
    requires due { AreDue (length buf.old) ((F.view fabric.old).put from to) ((F.view fabric.old).taken from to) }
    ensures all { OnOk result (AreTaken ((F.view fabric.new).put from to) ((F.view fabric.new).taken from to)) }
    ensures taken { OnOk result (Grows from to buf.new (F.view fabric.old).taken (F.view fabric.new).taken) }
    ensures put { (a b : ℕ) → (F.view fabric.new).put a b ≡ (F.view fabric.old).put a b }
    ensures came { OnErr result (GrowsAtMost from to (length buf.old) (F.view fabric.old).taken (F.view fabric.new).taken) }
    ensures cause { LinkHasCause (F.view fabric.old).faults (F.view fabric.new).faults result }
    ensures honest { IfErr result (λ e. IsFault e) }
{
    let mut at = 0;
    'takes: while at < buf.len() {
        let count = fabric.take(from, to, &mut buf[at..])?;
        if count == 0 {
            return Err(PumpFault::Link);
        }
        at += count;
    }
    Ok(())
}

/// Puts a prefix of a piece, and takes as many bytes to the beginning of a buffer. It says how many.
fn hand_some<F: Fabric>(
    fabric: &mut F,
    from: u8,
    to: u8,
    piece: &[u8],
    buf: &mut [u8],
) -> Result<usize, PumpFault>
    requires some { 0 < length piece.now }
    requires most { length piece.now ≤ PIECE }
    requires room { length piece.now ≤ length buf.old }
    requires taken { AreTaken ((F.view fabric.old).put from to) ((F.view fabric.old).taken from to) }
    ensures count { IfOk result (λ n. (0 < n) × (n ≤ length piece.now)) }
    ensures put { IfOk result (λ n. Grows from to (take n piece.now) (F.view fabric.old).put (F.view fabric.new).put) }
    ensures taken { IfOk result (λ n. Grows from to (take n buf.new) (F.view fabric.old).taken (F.view fabric.new).taken) }
    ensures all { OnOk result (AreTaken ((F.view fabric.new).put from to) ((F.view fabric.new).taken from to)) }
    ensures part { GrowsPart from to piece.now (F.view fabric.old).put (F.view fabric.new).put }
    ensures came { OnErr result (GrowsAtMost from to (length piece.now) (F.view fabric.old).taken (F.view fabric.new).taken) }
    ensures cause { LinkHasCause (F.view fabric.old).faults (F.view fabric.new).faults result }
    ensures honest { IfErr result (λ e. IsFault e) }
{
    let count = fabric.put(from, to, piece)?;
    if count == 0 {
        return Err(PumpFault::Link);
    }
    take_all(fabric, from, to, &mut buf[..count])?;
    Ok(count)
}

/// The next piece of what is to be put, after so many bytes.
fn piece_after(bytes: &[u8], put: usize) -> &[u8]
    requires { put ≤ length bytes.now }
    ensures { result.now ≡ take (min (length bytes.now - put) PIECE) (drop put bytes.now) }
{
    let rest = &bytes[put..];
    &rest[..rest.len().min(PIECE)]
}

/// Puts all bytes, and takes as many to a buffer. Each piece is taken before the next is put.
fn transfer_to<F: Fabric>(
    fabric: &mut F,
    from: u8,
    to: u8,
    bytes: &[u8],
    buf: &mut [u8],
) -> Result<(), PumpFault>
    requires room { length buf.old ≡ length bytes.now }
    requires taken { AreTaken ((F.view fabric.old).put from to) ((F.view fabric.old).taken from to) }
    ensures put { OnOk result (Grows from to bytes.now (F.view fabric.old).put (F.view fabric.new).put) }
    ensures taken { OnOk result (Grows from to buf.new (F.view fabric.old).taken (F.view fabric.new).taken) }
    ensures all { OnOk result (AreTaken ((F.view fabric.new).put from to) ((F.view fabric.new).taken from to)) }
    ensures part { GrowsPart from to bytes.now (F.view fabric.old).put (F.view fabric.new).put }
    ensures came { OnErr result (GrowsAtMost from to (length bytes.now) (F.view fabric.old).taken (F.view fabric.new).taken) }
    ensures cause { LinkHasCause (F.view fabric.old).faults (F.view fabric.new).faults result }
    ensures honest { IfErr result (λ e. IsFault e) }
{
    let mut done = 0;
    'pieces: while done < bytes.len() {
        let piece = piece_after(bytes, done);
        done += hand_some(fabric, from, to, piece, &mut buf[done..])?;
    }
    Ok(())
}

/// Puts all bytes, and takes as many.
pub(crate) fn transfer<F: Fabric>(
    alloc: Global,
    fabric: &mut F,
    from: u8,
    to: u8,
    bytes: &[u8],
) -> Result<Vec<u8>, PumpFault>
    requires taken { AreTaken ((F.view fabric.old).put from to) ((F.view fabric.old).taken from to) }
    ensures count { IfOk result (λ got. length got.items ≡ length bytes.now) }
    ensures put { OnOk result (Grows from to bytes.now (F.view fabric.old).put (F.view fabric.new).put) }
    ensures taken { IfOk result (λ got. Grows from to got.items (F.view fabric.old).taken (F.view fabric.new).taken) }
    ensures all { OnOk result (AreTaken ((F.view fabric.new).put from to) ((F.view fabric.new).taken from to)) }
    ensures part { GrowsPart from to bytes.now (F.view fabric.old).put (F.view fabric.new).put }
    ensures came { OnErr result (GrowsAtMost from to (length bytes.now) (F.view fabric.old).taken (F.view fabric.new).taken) }
    ensures cause { LinkHasCause (F.view fabric.old).faults (F.view fabric.new).faults result }
    ensures honest { IfErr result (λ e. IsFault e) }
{
    let mut got = vec![in alloc; 0; bytes.len()]?;
    transfer_to(fabric, from, to, bytes, got.as_mut_slice())?;
    Ok(got)
}
