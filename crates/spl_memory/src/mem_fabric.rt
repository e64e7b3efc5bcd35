//! Streams of bytes between nodes in memory.
ghost use Rattle.std.specs.Prelude.{◌≡◌, ◌≢◌, ◌≤◌, ◌<◌, ◌++◌, ℕ, [], Some, None, length, take, OnOk, OnErr};
ghost use Rattle.spl_edge.specs.Devices.{IsHonest};
ghost use Rattle.spl_memory.specs.{Lanes.{put_in, taken_in, lane_from}, Fabrics.{put_of, fabric_taken, fabric_view}};

use crate::lane::Lane;
use crate::lies::{Lie, tell};
use spl_edge::{DeviceError, Fabric, count_fault};
use std::alloc::{AllocError, Global};

/// The position of the lane from one node to another.
fn lane_from(from: u8, to: u8) -> usize
    ensures { result ≡ lane_from from to }
{
    usize::from(from) * 256 + usize::from(to)
}

/// Makes lanes up to this position.
fn grow(alloc: Global, lanes: &mut Vec<Lane>, position: usize) -> Result<(), AllocError>
    ensures room { OnOk result (position < length lanes.new.items) }
    ensures put { (k : ℕ) → put_in lanes.new.items k ≡ put_in lanes.old.items k }
    ensures taken { (k : ℕ) → taken_in lanes.new.items k ≡ taken_in lanes.old.items k }
{
    'grow: while lanes.len() <= position {
        lanes.push(Lane::new(alloc))?;
    }
    Ok(())
}

/// Puts a piece on the lane at this position.
fn put_at(
    alloc: Global,
    lanes: &mut Vec<Lane>,
    position: usize,
    bytes: &[u8],
) -> Result<(), AllocError>
    ensures ok { OnOk result (put_in lanes.new.items position ≡ put_in lanes.old.items position ++ bytes.now) }
    ensures err { OnErr result (put_in lanes.new.items position ≡ put_in lanes.old.items position) }
    ensures others { (k : ℕ) → k ≢ position → put_in lanes.new.items k ≡ put_in lanes.old.items k }
    ensures taken { (k : ℕ) → taken_in lanes.new.items k ≡ taken_in lanes.old.items k }
{
    grow(alloc, lanes, position)?;
    lanes[position].put(bytes)
}

/// Takes the next bytes of the lane at this position.
fn take_at(lanes: &mut Vec<Lane>, position: usize, buf: &mut [u8]) -> usize
    ensures bound { result ≤ length buf.new }
    ensures taken { taken_in lanes.new.items position ≡ taken_in lanes.old.items position ++ take result buf.new }
    ensures others { (k : ℕ) → k ≢ position → taken_in lanes.new.items k ≡ taken_in lanes.old.items k }
    ensures put { (k : ℕ) → put_in lanes.new.items k ≡ put_in lanes.old.items k }
    ensures nothing { result ≡ 0 → 0 < length buf.new → length (put_in lanes.old.items position) ≤ length (taken_in lanes.old.items position) }
{
    if position < lanes.len() {
        return lanes[position].take(buf);
    }
    0
}

/// Bytes between nodes in memory. The calls with the numbers given, counted from 1, fail.
#[derive(Drop)]
pub struct MemFabric {
    alloc: Global,
    lanes: Vec<Lane>,
    failing: Vec<u64>,
    calls: u64,
    faults: u64,
}

impl MemFabric {
    /// A fabric on which nothing was put. An empty list of numbers never fails.
    pub fn new(alloc: Global, failing: Vec<u64>) -> MemFabric
        ensures put { (from to : ℕ) → put_of result from to ≡ [] }
        ensures taken { (from to : ℕ) → fabric_taken result from to ≡ [] }
    {
        MemFabric {
            alloc,
            lanes: Vec::new(alloc),
            failing,
            calls: 0,
            faults: 0,
        }
    }
}

/// What was taken of a fabric in memory is a prefix of what was put.
pub fn memory_is_honest(fabric: &MemFabric)
    ensures { IsHonest (fabric_view fabric.now).put (fabric_view fabric.now).taken }
{}

impl Fabric for MemFabric {
    ghost view = { fabric_view };

    fn put(&mut self, from: u8, to: u8, bytes: &[u8]) -> Result<usize, DeviceError> {
        self.calls = self.calls.saturating_add(1);
        if self.failing.contains(&self.calls) {
            return Err(count_fault(&mut self.faults));
        }
        match put_at(self.alloc, &mut self.lanes, lane_from(from, to), bytes) {
            Ok(()) => Ok(bytes.len()),
            Err(_) => Err(DeviceError::NoMemory),
        }
    }

    fn take(&mut self, from: u8, to: u8, buf: &mut [u8]) -> Result<usize, DeviceError> {
        self.calls = self.calls.saturating_add(1);
        if self.failing.contains(&self.calls) {
            return Err(count_fault(&mut self.faults));
        }
        Ok(take_at(&mut self.lanes, lane_from(from, to), buf))
    }
}

/// Bytes between nodes in memory that doesn't report. The calls with the numbers given, counted from 1, fail, and at the
/// call of a lie the byte at its offset of what was taken becomes another.
#[derive(Drop)]
pub struct LyingFabric {
    alloc: Global,
    lanes: Vec<Lane>,
    failing: Vec<u64>,
    lies: Vec<Lie>,
    calls: u64,
    faults: u64,
}

impl LyingFabric {
    /// A fabric on which nothing was put. Empty lists never fail and never lie.
    pub fn new(alloc: Global, failing: Vec<u64>, lies: Vec<Lie>) -> LyingFabric
        ensures blank { result.lanes.items ≡ [] }
        ensures lists { (result.failing.items ≡ failing.items) × (result.lies.items ≡ lies.items) }
    {
        LyingFabric {
            alloc,
            lanes: Vec::new(alloc),
            failing,
            lies,
            calls: 0,
            faults: 0,
        }
    }
}

impl Fabric for LyingFabric {
    ghost use Rattle.spl_edge.specs.Devices.{untold_fabric};

    ghost view = { λ f. untold_fabric f.faults };

    fn put(&mut self, from: u8, to: u8, bytes: &[u8]) -> Result<usize, DeviceError> {
        self.calls = self.calls.saturating_add(1);
        if self.failing.contains(&self.calls) {
            return Err(count_fault(&mut self.faults));
        }
        match put_at(self.alloc, &mut self.lanes, lane_from(from, to), bytes) {
            Ok(()) => Ok(bytes.len()),
            Err(_) => Err(DeviceError::NoMemory),
        }
    }

    fn take(&mut self, from: u8, to: u8, buf: &mut [u8]) -> Result<usize, DeviceError> {
        self.calls = self.calls.saturating_add(1);
        if self.failing.contains(&self.calls) {
            return Err(count_fault(&mut self.faults));
        }
        let count = take_at(&mut self.lanes, lane_from(from, to), buf);
        if count == 0 && count_fault(&mut self.faults) == DeviceError::NoMemory {
            return Err(DeviceError::NoMemory);
        }
        tell(&mut buf[..count], &self.lies, self.calls);
        Ok(count)
    }
}
