//! Bytes between nodes.
ghost use Rattle.std.specs.{Prelude.{◌≡◌, ◌<◌, ◌≤◌, List, ℕ, length, IfOk, Option}, Io.KnownBytes.append_known};
ghost use Rattle.spl_edge.specs.{Devices.{HasCause, Rose, moved_by}, declared.fabric.TheConstants.PIECE};

use crate::DeviceError;

/// How many bytes of a stream are handed over at once, at most: to a fabric, to a sink where no answer is longer, and
/// by the source of a schedule.
pub const PIECE: usize = 4096;

/// Streams of bytes, one from each node to each other. Nodes are named by their positions in the registry.
pub trait Fabric {
    ghost use Rattle.spl_edge.specs.Devices.{AreTaken, AreLeft, IsOtherPair, FabricView};

    /// What it reports of itself.
    ghost view: { Self → FabricView };

    /// Takes in some bytes from the beginning of a piece, and says how many. To take in nothing of a piece that isn't
    /// empty counts as a fault.
    fn put(&mut self, from: u8, to: u8, bytes: &[u8]) -> Result<usize, DeviceError>
        requires most { length bytes.now ≤ PIECE }
        requires taken { AreTaken ((view self.old).put from to) ((view self.old).taken from to) }
        ensures bound { IfOk result (λ n. n ≤ length bytes.now) }
        ensures put { (view self.new).put from to ≡ append_known ((view self.old).put from to) (moved_by result bytes.now) }
        ensures others { (a b : ℕ) → a < 256 → b < 256 → IsOtherPair a b from to → (view self.new).put a b ≡ (view self.old).put a b }
        ensures taken { (a b : ℕ) → (view self.new).taken a b ≡ (view self.old).taken a b }
        ensures nothing { IfOk result (λ n. n ≡ 0 → 0 < length bytes.now → Rose (view self.old).faults (view self.new).faults) }
        ensures cause { HasCause (view self.old).faults (view self.new).faults result };

    /// Hands out some of the next bytes, and says how many. To hand out nothing into a buffer that isn't empty, while
    /// bytes are left, counts as a fault; where the object doesn't report, always.
    fn take(&mut self, from: u8, to: u8, buf: &mut [u8]) -> Result<usize, DeviceError>
        ensures bound { IfOk result (λ n. n ≤ length buf.new) }
        ensures taken { (view self.new).taken from to ≡ append_known ((view self.old).taken from to) (moved_by result buf.new) }
        ensures others { (a b : ℕ) → a < 256 → b < 256 → IsOtherPair a b from to → (view self.new).taken a b ≡ (view self.old).taken a b }
        ensures put { (a b : ℕ) → (view self.new).put a b ≡ (view self.old).put a b }
        ensures nothing { IfOk result (λ n. n ≡ 0 → 0 < length buf.new → AreLeft ((view self.old).put from to) ((view self.old).taken from to)
            → Rose (view self.old).faults (view self.new).faults) }
        ensures cause { HasCause (view self.old).faults (view self.new).faults result };
}
