//! A source and a sink in memory, which fail at the calls whose numbers they are given.
ghost use Rattle.std.specs.{Prelude.{◌≡◌, ◌↔◌, ◌≤◌, ◌<◌, ◌-◌, ◌^◌, ◌++◌, Some, IfOk, IsErrOf, Contains, length, vec_len}, Io.KnownBytes.{Appends, Consumes}};
ghost use Rattle.std.specs.Io.KnownBytes.{IsAtEnd};
ghost use Rattle.spl_edge.specs.Devices.{next, HasCause, Rose, moved_by};

use crate::{DeviceError, Sink, Source, count_fault};
use std::alloc::Global;

/// Bytes in memory that are read. The calls with these numbers, counted from 1, fail.
#[derive(Drop)]
pub struct MemSource {
    bytes: Vec<u8>,
    at: usize,
    failing: Vec<u64>,
    calls: u64,
    faults: u64,
    ghost within: { at ≤ vec_len bytes },
}

impl MemSource {
    ghost use Rattle.spl_edge.specs.Memory.{IsFreshSource};

    /// A source of these bytes. An empty list of numbers never fails.
    pub fn new(bytes: Vec<u8>, failing: Vec<u64>) -> Self
        ensures { IsFreshSource result bytes.items failing.items }
    {
        MemSource {
            bytes,
            at: 0,
            failing,
            calls: 0,
            faults: 0,
        }
    }
}

impl Source for MemSource {
    ghost use Rattle.spl_edge.specs.Memory.{taken_of, left_of, read_faults, read_calls, failing_reads, source_view};

    ghost view = { source_view };

    fn read(&mut self, buf: &mut [u8]) -> Result<usize, DeviceError>
        ensures bound { IfOk result (λ n. n ≤ length buf.new) }
        ensures taken { taken_of self.new ≡ taken_of self.old ++ moved_by result buf.new }
        ensures left { Consumes (Some (left_of self.old)) (Some (left_of self.new)) (moved_by result buf.new) }
        ensures end { IfOk result (λ n. n ≡ 0 → 0 < length buf.new → IsAtEnd (Some (left_of self.new))) }
        ensures cause { HasCause (read_faults self.old) (read_faults self.new) result }

        // The calls with the numbers given fail, and no other, while there is room to count them.
        ensures calls { read_calls self.new ≡ next (read_calls self.old) }
        ensures failing { failing_reads self.new ≡ failing_reads self.old }
        ensures fails { IsErrOf result DeviceError.Failed ↔ Contains (failing_reads self.old) (read_calls self.new) × (read_faults self.old < 2 ^ 64 - 1) }
    {
        self.calls = self.calls.saturating_add(1);
        if self.failing.contains(&self.calls) {
            return Err(count_fault(&mut self.faults));
        }
        let count = buf.len().min(self.bytes.len() - self.at);
        buf[..count].copy_from_slice(&self.bytes[self.at..self.at + count]);
        self.at += count;
        Ok(count)
    }
}

/// Bytes that were written to memory. The calls with these numbers, counted from 1, fail.
#[derive(Drop)]
pub struct MemSink {
    bytes: Vec<u8>,
    failing: Vec<u64>,
    calls: u64,
    faults: u64,
}

impl MemSink {
    ghost use Rattle.spl_edge.specs.Memory.{IsFreshSink, written_of};

    /// A sink that has no bytes yet. An empty list of numbers never fails.
    pub fn new(alloc: Global, failing: Vec<u64>) -> Self
        ensures { IsFreshSink result failing.items }
    {
        MemSink {
            bytes: Vec::new(alloc),
            failing,
            calls: 0,
            faults: 0,
        }
    }

    /// The bytes written so far.
    pub fn bytes(&self) -> &[u8]
        ensures { result.now ≡ written_of self.now }
    {
        &self.bytes
    }
}

impl Sink for MemSink {
    ghost use Rattle.spl_edge.specs.Memory.{written_of, write_faults, write_calls, failing_writes, sink_view};

    ghost view = { sink_view };

    fn write(&mut self, piece: &[u8]) -> Result<usize, DeviceError>
        ensures bound { IfOk result (λ n. n ≤ length piece.now) }
        ensures written { Appends (Some (written_of self.old)) (Some (written_of self.new)) (moved_by result piece.now) }
        ensures nothing { IfOk result (λ n. n ≡ 0 → 0 < length piece.now → Rose (write_faults self.old) (write_faults self.new)) }
        ensures cause { HasCause (write_faults self.old) (write_faults self.new) result }

        // The calls with the numbers given fail, and no other, while there is room to count them.
        ensures calls { write_calls self.new ≡ next (write_calls self.old) }
        ensures failing { failing_writes self.new ≡ failing_writes self.old }
        ensures fails { IsErrOf result DeviceError.Failed ↔ Contains (failing_writes self.old) (write_calls self.new) × (write_faults self.old < 2 ^ 64 - 1) }
    {
        self.calls = self.calls.saturating_add(1);
        if self.failing.contains(&self.calls) {
            return Err(count_fault(&mut self.faults));
        }
        self.bytes.extend_from_slice(piece)?;
        Ok(piece.len())
    }
}
