//! Standard output as a sink, which doesn't say what it took.
ghost use Rattle.std.specs.Prelude.{◌≡◌, ◌≤◌, IfOk, None, length};

use spl_edge::{DeviceError, Sink, count_fault};
use std::io;
use std::io::{ErrorKind, Write};

/// Where answers go. To take nothing of a piece that isn't empty is a fault. A write that a signal interrupted is made again.
#[derive(Drop)]
pub struct StdSink<W: Write + Drop> {
    out: W,
    prompt: bool,
    faults: u64,
}

impl<W: Write + Drop> StdSink<W> {
    /// A sink that has no fault, and is `prompt` where somebody waits for each answer.
    pub fn new(out: W, prompt: bool) -> Self
        ensures out { result.out ≡ out }
        ensures faults { result.faults ≡ 0 }
    {
        StdSink {
            out,
            prompt,
            faults: 0,
        }
    }
}

/// Writes once, and again where a signal interrupted that.
pub(crate) fn write_once<W: Write>(out: &mut W, piece: &[u8]) -> io::Result<usize>
    ensures { IfOk result (λ n. n ≤ length piece.now) }
{
    for _ in 0..u64::MAX {
        match out.write(piece) {
            Err(error) if error.kind() == ErrorKind::Interrupted => {}
            done => return done,
        }
    }
    Err(ErrorKind::TimedOut.into())
}

impl<W: Write + Drop> Sink for StdSink<W> {
    ghost view = { λ s. record { written = None; faults = s.faults } };

    fn write(&mut self, piece: &[u8]) -> Result<usize, DeviceError> {
        match write_once(&mut self.out, piece) {
            Ok(count) if count > 0 || piece.is_empty() => Ok(count),
            _ => Err(count_fault(&mut self.faults)),
        }
    }

    fn is_prompt(&self) -> bool {
        self.prompt
    }
}
