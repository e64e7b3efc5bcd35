//! What is to be written, in pieces.
ghost use Rattle.std.specs.{Prelude.{◌≡◌, ◌++◌, ◌∷◌, [], IfOk, OnOk, OnErr}, Io.KnownBytes.Appends};
ghost use Rattle.spl_edge.specs.Devices.{HasCause, AppendsPart};
ghost use Rattle.spl_lines.specs.{Due.{IsOutputDue, IsDuePart}, Tasks.{printed, shown_line}};

use itoa::Buffer;
use spl_edge::{DeviceError, PIECE, Sink, write_all};
use std::alloc::{AllocError, Global};
use std::marker::Model;

/// Bytes that wait to be handed to a sink, in pieces or each answer at once.
#[derive(Drop)]
pub struct Output {
    waiting: Vec<u8>,
    at_once: bool,
}

impl Model for Output {
    ghost use Rattle.std.specs.Prelude.{List, ℕ};

    ghost Value = { List ℕ };

    ghost view = { λ o. o.waiting.items };
}

impl Output {
    /// Nothing waits yet. Answers are handed over each at once, or, where it isn't `at_once` and the sink isn't prompt, in
    /// pieces.
    pub fn new(alloc: Global, at_once: bool) -> Result<Output, AllocError>
        ensures { IfOk result (λ o. o ≡ []) }
    {
        Ok(Output {
            waiting: Vec::with_capacity(alloc, PIECE)?,
            at_once,
        })
    }

    /// Hands over all that waits. After a fault nothing waits.
    pub fn flush<W: Sink>(&mut self, sink: &mut W) -> Result<(), DeviceError>
        ensures ok { OnOk result (Appends (W.view sink.old).written (W.view sink.new).written self.old) }
        ensures part { AppendsPart (W.view sink.old).written (W.view sink.new).written self.old }
        ensures cause { HasCause (W.view sink.old).faults (W.view sink.new).faults result }
        ensures empty { self.new ≡ [] }
    {
        let sent = write_all(sink, &self.waiting);
        self.waiting.clear();
        sent
    }

    // Lets an answer wait after the others.
    fn append(&mut self, number: &[u8], text: &[u8]) -> Result<(), AllocError>
        ensures ok { OnOk result (self.new ≡ self.old ++ (number.now ++ 32 ∷ text.now ++ 10 ∷ [])) }
        ensures err { OnErr result (self.new ≡ self.old) }
    {
        let size = number.len().saturating_add(text.len()).saturating_add(2);
        self.waiting.try_reserve(size)?;
        self.waiting.extend_from_slice(number).unwrap();
        self.waiting.push(b' ').unwrap();
        self.waiting.extend_from_slice(text).unwrap();
        self.waiting.push(b'\n').unwrap();
        Ok(())
    }

    // Hands over what waits, where nothing is to wait, or somebody waits for it.
    fn settle<W: Sink>(&mut self, sink: &mut W) -> Result<(), DeviceError>
        ensures ok { OnOk result (IsOutputDue (W.view sink.old).written (W.view sink.new).written self.new self.old) }
        ensures part { IsDuePart (W.view sink.old).written (W.view sink.new).written self.new self.old }
        ensures cause { HasCause (W.view sink.old).faults (W.view sink.new).faults result }
    {
        if self.at_once || sink.is_prompt() {
            return self.flush(sink);
        }
        Ok(())
    }

    // Hands over what waits, where that and so many bytes more are above a piece.
    fn make_room<W: Sink>(&mut self, sink: &mut W, size: usize) -> Result<(), DeviceError>
        ensures ok { OnOk result (IsOutputDue (W.view sink.old).written (W.view sink.new).written self.new self.old) }
        ensures part { IsDuePart (W.view sink.old).written (W.view sink.new).written self.new self.old }
        ensures cause { HasCause (W.view sink.old).faults (W.view sink.new).faults result }
    {
        if PIECE.saturating_sub(self.waiting.len()) < size {
            return self.flush(sink);
        }
        Ok(())
    }

    /// Lets an answer wait, with the number of its line, or hands it over at once. It hands over what
    /// waits before, where both together are more than a piece.
    pub fn put<W: Sink>(
        &mut self,
        sink: &mut W,
        number: u32,
        text: &[u8],
    ) -> Result<(), DeviceError>
        ensures ok { OnOk result (IsOutputDue (W.view sink.old).written (W.view sink.new).written self.new (self.old ++ printed number text.now)) }
        ensures part { IsDuePart (W.view sink.old).written (W.view sink.new).written self.new (self.old ++ printed number text.now) }
        ensures cause { HasCause (W.view sink.old).faults (W.view sink.new).faults result }
    {
        let mut buffer = Buffer::new();
        let digits = buffer.format(number).as_bytes();
        let size = digits.len().saturating_add(text.len()).saturating_add(2);
        self.make_room(sink, size)?;
        self.append(digits, text)?;
        self.settle(sink)
    }

    // Lets a text wait after what waits.
    fn append_text(&mut self, text: &[u8]) -> Result<(), AllocError>
        ensures ok { OnOk result (self.new ≡ self.old ++ text.now) }
        ensures err { OnErr result (self.new ≡ self.old) }
    {
        self.waiting.try_reserve(text.len())?;
        self.waiting.extend_from_slice(text).unwrap();
        Ok(())
    }

    // Lets a text wait as it is, or hands it over at once. It hands over what waits before, where both
    // together are more than a piece.
    fn put_text<W: Sink>(&mut self, sink: &mut W, text: &[u8]) -> Result<(), DeviceError>
        ensures ok { OnOk result (IsOutputDue (W.view sink.old).written (W.view sink.new).written self.new (self.old ++ text.now)) }
        ensures part { IsDuePart (W.view sink.old).written (W.view sink.new).written self.new (self.old ++ text.now) }
        ensures cause { HasCause (W.view sink.old).faults (W.view sink.new).faults result }
    {
        self.make_room(sink, text.len())?;
        self.append_text(text)?;
        self.settle(sink)
    }

    /// Lets what is told of a line wait, where that is after the first `skip` lines: a trace as it is, or
    /// an answer after the number.
    pub fn put_after<W: Sink>(
        &mut self,
        sink: &mut W,
        traced: bool,
        skip: u32,
        number: u32,
        text: &[u8],
    ) -> Result<(), DeviceError>
        ensures ok { OnOk result (IsOutputDue (W.view sink.old).written (W.view sink.new).written self.new
            (self.old ++ shown_line traced skip number text.now)) }
        ensures part { IsDuePart (W.view sink.old).written (W.view sink.new).written self.new (self.old ++ shown_line traced skip number text.now) }
        ensures cause { HasCause (W.view sink.old).faults (W.view sink.new).faults result }
    {
        if number <= skip {
            return Ok(());
        }
        if traced {
            return self.put_text(sink, text);
        }
        self.put(sink, number, text)
    }
}
