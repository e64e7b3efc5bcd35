//! Where bytes come from.
ghost use Rattle.std.specs.{Prelude.{◌≡◌, ◌≢◌, ◌↔◌, ◌+◌, ◌<◌, ◌≤◌, ◌^◌, ◌++◌, List, ℕ, [], length, take, IfOk, Option}, Io.KnownBytes.{Consumes, IsAtEnd}};
ghost use Rattle.spl_edge.specs.Devices.{HasCause, Rose, moved_by, SourceView};

use crate::DeviceError;
use std::alloc::Global;

/// The most bytes that a source of lines, or of a registry, may give.
pub const MOST_BYTES: usize = 67_108_864;

/// Where bytes come from, one piece after another.
pub trait Source {
    /// What it reports of itself.
    ghost view: { Self → SourceView };

    /// Takes some of the next bytes, and says how many. A read of 0 into a buffer that isn't empty is the end.
    /// A call that fails takes nothing.
    fn read(&mut self, buf: &mut [u8]) -> Result<usize, DeviceError>
        ensures bound { IfOk result (λ n. n ≤ length buf.new) }
        ensures taken { (view self.new).gave ≡ (view self.old).gave ++ moved_by result buf.new }
        ensures left { Consumes (view self.old).left (view self.new).left (moved_by result buf.new) }
        ensures end { IfOk result (λ n. n ≡ 0 → 0 < length buf.new → IsAtEnd (view self.new).left) }
        ensures cause { HasCause (view self.old).faults (view self.new).faults result };
}

/// How a reading ended.
#[derive(Clone, Copy, Debug, PartialEq, Eq)]
pub enum ReadEnd {
    /// The source was read to its end.
    Whole,
    /// The source gave more bytes than the limit.
    TooLong,
    /// The source failed.
    Fault,
    /// Memory ran out.
    NoMemory,
}

/// The bytes that were read, and how the reading ended.
#[derive(Drop)]
pub struct Reading {
    pub bytes: Vec<u8>,
    pub end: ReadEnd,
}

/// How many bytes `read_all` asks for at once.
const LARGE_PIECE: usize = 65_536;

/// Takes all there is. It ends early at a fault, where memory runs out, and once it has more bytes than the limit.
pub fn read_all<S: Source>(alloc: Global, limit: usize, source: &mut S) -> Reading
    requires { limit < 2 ^ 32 }
    ensures taken { (S.view source.new).gave ≡ (S.view source.old).gave ++ result.bytes.items }
    ensures left { Consumes (S.view source.old).left (S.view source.new).left result.bytes.items }
    ensures whole { result.end ≡ ReadEnd.Whole → IsAtEnd (S.view source.new).left }
    ensures too_long { result.end ≡ ReadEnd.TooLong ↔ (limit < length result.bytes.items) }
    ensures fault { result.end ≡ ReadEnd.Fault → Rose (S.view source.old).faults (S.view source.new).faults }
    ensures later { (S.view source.old).faults ≤ (S.view source.new).faults }
{
    let mut bytes = Vec::new(alloc);
    let mut buf = [0u8; LARGE_PIECE];
    while bytes.len() <= limit {
        if bytes.try_reserve(LARGE_PIECE).is_err() {
            return Reading {
                bytes,
                end: ReadEnd::NoMemory,
            };
        }
        match source.read(&mut buf) {
            Ok(0) => return Reading {
                bytes,
                end: ReadEnd::Whole,
            },
            Ok(count) => bytes.extend_from_slice(&buf[..count]).unwrap(),
            Err(DeviceError::Failed) => return Reading {
                bytes,
                end: ReadEnd::Fault,
            },
            Err(DeviceError::NoMemory) => return Reading {
                bytes,
                end: ReadEnd::NoMemory,
            },
        }
    }
    Reading {
        bytes,
        end: ReadEnd::TooLong,
    }
}
