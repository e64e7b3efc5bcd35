//! Where bytes go.
ghost use Rattle.std.specs.{Prelude.{◌≡◌, ◌<◌, ◌≤◌, List, ℕ, length, take, IfOk, OnOk, OnErr, IsErrOf, Option}, Io.KnownBytes.Appends};
ghost use Rattle.spl_edge.specs.Devices.{HasCause, Rose, AppendsPart, moved_by, SinkView};

use crate::DeviceError;

/// Where bytes go, one piece after another.
pub trait Sink {
    /// What it reports of itself.
    ghost view: { Self → SinkView };

    /// Takes some bytes from the beginning of a piece, and says how many. To take nothing of a piece that isn't empty
    /// counts as a fault. A call that fails takes nothing.
    fn write(&mut self, piece: &[u8]) -> Result<usize, DeviceError>
        ensures bound { IfOk result (λ n. n ≤ length piece.now) }
        ensures written { Appends (view self.old).written (view self.new).written (moved_by result piece.now) }
        ensures nothing { IfOk result (λ n. n ≡ 0 → 0 < length piece.now → Rose (view self.old).faults (view self.new).faults) }
        ensures cause { HasCause (view self.old).faults (view self.new).faults result };

    /// Whether somebody waits for each answer, as at a terminal, so that none should wait for others.
    fn is_prompt(&self) -> bool {
        false
    }
}

/// Writes a whole piece. Where that fails, a prefix of the piece was written.
pub fn write_all<W: Sink>(sink: &mut W, piece: &[u8]) -> Result<(), DeviceError>
    ensures ok { OnOk result (Appends (W.view sink.old).written (W.view sink.new).written piece.now) }
    ensures part { AppendsPart (W.view sink.old).written (W.view sink.new).written piece.now }
    ensures cause { HasCause (W.view sink.old).faults (W.view sink.new).faults result }
{
    let mut sent = 0;
    while sent < piece.len() {
        let count = sink.write(&piece[sent..])?;
        if count == 0 {
            return Err(DeviceError::Failed);
        }
        sent += count;
    }
    Ok(())
}
