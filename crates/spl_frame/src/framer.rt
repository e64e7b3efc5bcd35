//! Frames out of a stream of bytes, in whatever pieces it comes.
ghost use Rattle.std.specs.Prelude.{◌≡◌, ◌≢◌, ◌≤◌, ◌<◌, ◌+◌, ◌++◌, [], length, drop, List, Some, None, IfSome, IfNone, IfOk, IfErr, OnOk, OnErr, IsErrOf};
ghost use Rattle.std.specs.List.{flat_map};
ghost use Rattle.spl_frame.specs.{Frames.{frame, header, first_frame, after, stream_of, frames_of, fault_of}, declared.header.TheConstants.LONGEST_BODY};

use crate::fault::FrameFault;
use crate::header::first_frame;
use spl_base::{Piece, Writer};
use std::alloc::{AllocError, Global};
use std::marker::Model;

/// Takes the frames out of a stream. It is seen as the bytes that it was fed and whose frames were
/// not handed out yet.
#[derive(Drop)]
pub struct Framer {
    bytes: Vec<u8>,
    /// Where the first frame begins that was not handed out.
    start: usize,
    /// Where the last whole frame ends.
    end: usize,
    fault: Option<FrameFault>,
}

impl Model for Framer {
    ghost use Rattle.std.specs.Prelude.{List, ℕ, drop};
    ghost use Rattle.spl_frame.specs.Buffer.{IsBuffer};

    ghost Value = { List ℕ };

    ghost view = { λ f. drop f.start f.bytes.items };

    ghost invariant = { λ f. IsBuffer f.bytes.items f.start f.end f.fault };
}

/// Where the last whole frame ends, and the fault of the header there.
fn scan(bytes: &[u8], from: usize) -> (usize, Option<FrameFault>)
    requires { from ≤ length bytes.now }
    ensures order { from ≤ result.0 }
    ensures within { result.0 ≤ length bytes.now }
    ensures after { (stream_of (drop from bytes.now)).rest ≡ drop result.0 bytes.now }
    ensures shows { fault_of (drop from bytes.now) ≡ result.1 }
{
    let mut at = from;
    loop {
        match first_frame(&bytes[at..]) {
            Ok(Some(size)) => at += size,
            Ok(None) => return (at, None),
            Err(fault) => return (at, Some(fault)),
        }
    }
}

/// The body of the frame at the beginning.
fn first_body(bytes: &[u8]) -> Option<&[u8]>
    ensures short { IfSome result (λ body. length body.now ≤ LONGEST_BODY) }
    ensures some { IfSome result (λ body. stream_of bytes.now ≡ after body.now (stream_of (drop (6 + length body.now) bytes.now))) }
    ensures within { IfSome result (λ body. 6 + length body.now ≤ length bytes.now) }
    ensures none { IfNone result (frames_of bytes.now ≡ []) }
{
    match first_frame(bytes) {
        Ok(Some(size)) => {
            let (frame, _) = bytes.split_at(size);
            let (_, body) = frame.split_at(6);
            Some(body)
        }
        _ => None,
    }
}

/// The body of the frame at the beginning, and the bytes after it; None where no whole frame begins these.
pub fn split_frame(bytes: &[u8]) -> Option<(&[u8], &[u8])>
    ensures some { IfSome result (λ r. stream_of bytes.now ≡ after r.0.now (stream_of r.1.now)) }
    ensures short { IfSome result (λ r. length r.0.now ≤ LONGEST_BODY) }
    ensures less { IfSome result (λ r. length r.1.now < length bytes.now) }
    ensures none { IfNone result (frames_of bytes.now ≡ []) }
{
    let body = first_body(bytes)?;
    let (_, rest) = bytes.split_at(6 + body.len());
    Some((body, rest))
}

impl Framer {
    pub fn new(alloc: Global) -> Framer
        ensures { result ≡ [] }
    {
        Framer {
            bytes: Vec::new(alloc),
            start: 0,
            end: 0,
            fault: None,
        }
    }

    /// The fault of the first header that has one.
    pub(crate) fn fault(&self) -> Option<FrameFault>
        ensures { result ≡ fault_of self.now }
    {
        self.fault
    }

    /// Drops the bytes that were handed out, once they are no fewer than the others: what that
    /// moves was fed since it was done last.
    #[tactic(auto, using(crate::proofs::Buffers::compacted))]
    fn drop_handed_out(&mut self)
        ensures { self.new ≡ self.old }
    {
        let len = self.bytes.len();
        if len - self.start <= self.start {
            self.bytes.rotate_left(self.start);
            self.bytes.truncate(len - self.start);
            self.end -= self.start;
            self.start = 0;
        }
    }

    fn append(&mut self, piece: &[u8]) -> Result<(), AllocError>
        ensures ok { OnOk result (self.new ≡ self.old ++ piece.now) }
        ensures err { OnErr result (self.new ≡ self.old) }
    {
        self.bytes.extend_from_slice(piece)?;
        (self.end, self.fault) = scan(self.bytes.as_slice(), self.end);
        Ok(())
    }

    /// Takes the next piece of the stream. A fault is that of the first header that has one; the
    /// frames before it are still handed out, and each later call answers it again.
    #[tactic(auto, using(crate::proofs::Streams::frames_after_fault, crate::proofs::Streams::fault_after_fault, crate::proofs::Streams::fault_is_real))]
    pub fn feed(&mut self, piece: &[u8]) -> Result<(), FrameFault>
        ensures ok { OnOk result (self.new ≡ self.old ++ piece.now) }
        ensures no_fault { OnOk result (fault_of self.new ≡ None) }
        ensures fault { IfErr result (λ e. (e ≢ FrameFault.NoMemory) → fault_of (self.old ++ piece.now) ≡ Some e) }
        ensures frames { IfErr result (λ e. (e ≢ FrameFault.NoMemory) → frames_of self.new ≡ frames_of (self.old ++ piece.now)) }
        ensures again { IfErr result (λ e. (e ≢ FrameFault.NoMemory) → fault_of self.new ≡ Some e) }
        ensures memory { IsErrOf result FrameFault.NoMemory → self.new ≡ self.old }
    {
        if let Some(fault) = self.fault() {
            return Err(fault);
        }
        self.drop_handed_out();
        self.append(piece)?;
        match self.fault() {
            Some(fault) => Err(fault),
            None => Ok(()),
        }
    }

    /// Hands out the body of the next frame; None where no whole frame is left.
    pub fn next(&mut self, alloc: Global) -> Result<Option<Piece>, AllocError>
        ensures some { IfOk result (λ o. IfSome o (λ body. stream_of self.old ≡ after body (stream_of self.new))) }
        ensures none { IfOk result (λ o. IfNone o (frames_of self.old ≡ [])) }
        ensures unchanged { IfOk result (λ o. IfNone o (self.new ≡ self.old)) }
        ensures err { OnErr result (self.new ≡ self.old) }
    {
        let Some(body) = first_body(&self.bytes[self.start..]) else {
            return Ok(None);
        };
        let size = 6 + body.len();
        let body = Piece::from(alloc, body)?;
        self.start += size;
        Ok(Some(body))
    }
}

/// Appends the header of the frame of a body with so many bytes.
pub fn put_header(w: &mut Writer, length: usize) -> Result<(), AllocError>
    requires { length ≤ LONGEST_BODY }
    ensures { OnOk result (w.new ≡ w.old ++ header length) }
{
    w.put_u16(1)?;
    w.put_u32(length as u32)
}

/// The frame of a body.
pub fn write_frame(alloc: Global, body: &[u8]) -> Result<Piece, AllocError>
    requires { length body.now ≤ LONGEST_BODY }
    ensures { IfOk result (λ p. p ≡ frame body.now) }
{
    let mut w = Writer::with_room(alloc, body.len() + 6)?;
    put_header(&mut w, body.len())?;
    w.put_raw(body)?;
    Ok(w.into_piece())
}
