//! A stream of bytes from one node to another.
ghost use Rattle.std.specs.Prelude.{◌≡◌, ◌≤◌, ◌<◌, ◌++◌, ℕ, length, take, vec_len, OnOk, OnErr};

use std::alloc::{AllocError, Global};

/// Bytes that were put, of which the first so many were taken.
#[derive(Drop)]
pub struct Lane {
    put: Vec<u8>,
    taken: usize,
    ghost within: { taken ≤ vec_len put },
}

impl Lane {
    ghost use Rattle.std.specs.Prelude.{[]};
    ghost use Rattle.spl_memory.specs.Lanes.{lane_put, lane_taken};

    /// A lane on which nothing was put.
    pub(crate) fn new(alloc: Global) -> Lane
        ensures put { lane_put result ≡ [] }
        ensures taken { lane_taken result ≡ [] }
    {
        Lane {
            put: Vec::new(alloc),
            taken: 0,
        }
    }

    /// Puts a piece.
    pub(crate) fn put(&mut self, bytes: &[u8]) -> Result<(), AllocError>
        ensures ok { OnOk result (lane_put self.new ≡ lane_put self.old ++ bytes.now) }
        ensures err { OnErr result (lane_put self.new ≡ lane_put self.old) }
        ensures taken { lane_taken self.new ≡ lane_taken self.old }
    {
        self.put.extend_from_slice(bytes)?;
        Ok(())
    }

    /// Takes as many of the next bytes as the buffer holds.
    pub(crate) fn take(&mut self, buf: &mut [u8]) -> usize
        ensures bound { result ≤ length buf.new }
        ensures put { lane_put self.new ≡ lane_put self.old }
        ensures taken { lane_taken self.new ≡ lane_taken self.old ++ take result buf.new }
        ensures nothing { result ≡ 0 → 0 < length buf.new → length (lane_put self.old) ≤ length (lane_taken self.old) }
    {
        let count = buf.len().min(self.put.len() - self.taken);
        buf[..count].copy_from_slice(&self.put[self.taken..self.taken + count]);
        self.taken += count;
        count
    }
}
