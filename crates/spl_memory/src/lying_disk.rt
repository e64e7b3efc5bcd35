//! A disk in memory that doesn't say what it holds, and changes bytes by itself.
ghost use Rattle.std.specs.Prelude.{[], ◌≡◌, ◌≤◌, ◌<◌, ◌+◌, ◌^◌, None, length, OnOk, IsErrOf};
ghost use Rattle.spl_edge.specs.{Devices.{Passes, armed_with}, declared.disk.Arming.TheVariants.Off};

use crate::lies::{Lie, tell};
use crate::patch::{MOST, patch};
use spl_edge::{DeviceError, Disk, count_fault};
use std::alloc::Global;

/// A disk that doesn't report. The calls with the numbers given, counted from 1, fail, and so does a write after the end.
/// Before the call of a lie its byte becomes another.
#[derive(Drop)]
pub struct LyingDisk {
    bytes: Vec<u8>,
    failing: Vec<u64>,
    lies: Vec<Lie>,
    moment: u64,
    faults: u64,
}

impl LyingDisk {
    /// A blank disk. Empty lists never fail and never lie.
    pub fn new(alloc: Global, failing: Vec<u64>, lies: Vec<Lie>) -> LyingDisk
        ensures blank { result.bytes.items ≡ [] }
        ensures lists { (result.failing.items ≡ failing.items) × (result.lies.items ≡ lies.items) }
    {
        LyingDisk {
            bytes: Vec::new(alloc),
            failing,
            lies,
            moment: 0,
            faults: 0,
        }
    }

    /// What it holds.
    pub fn bytes(&self) -> &[u8]
        ensures { result.now ≡ self.now.bytes.items }
    {
        &self.bytes
    }

    fn begin(&mut self) -> Result<(), DeviceError>
        ensures { Passes self.old.moment self.new.moment self.old.faults self.new.faults (armed_with Off 0) result }
    {
        let at_end = self.moment == u64::MAX;
        self.moment = self.moment.saturating_add(1);
        tell(&mut self.bytes, &self.lies, self.moment);
        if self.failing.contains(&self.moment) {
            return Err(count_fault(&mut self.faults));
        }
        if at_end {
            return Err(DeviceError::NoMemory);
        }
        Ok(())
    }
}

impl Disk for LyingDisk {
    ghost use Rattle.spl_edge.specs.Devices.{untold_disk};

    ghost view = { λ d. untold_disk d.moment d.faults };

    ghost possible = { λ _. tt };

    fn len(&mut self) -> Result<u64, DeviceError> {
        if let Err(fault) = self.begin() {
            return Err(fault);
        }
        Ok(self.bytes.len() as u64)
    }

    fn read(&mut self, at: u64, buf: &mut [u8]) -> Result<usize, DeviceError> {
        if let Err(fault) = self.begin() {
            return Err(fault);
        }
        let from = self.bytes.len().min(at as usize);
        let count = buf.len().min(self.bytes.len() - from);
        buf[..count].copy_from_slice(&self.bytes[from..from + count]);
        Ok(count)
    }

    fn write_at(&mut self, at: u64, bytes: &[u8]) -> Result<(), DeviceError> {
        if let Err(fault) = self.begin() {
            return Err(fault);
        }
        let len = self.bytes.len();
        if len < at as usize {
            return Err(count_fault(&mut self.faults));
        }
        if bytes.len() > MOST - at as usize {
            return Err(DeviceError::NoMemory);
        }
        match patch(&mut self.bytes, at as usize, bytes) {
            Ok(()) => Ok(()),
            Err(_) => Err(DeviceError::NoMemory),
        }
    }

    fn cut(&mut self, len: u64) -> Result<(), DeviceError> {
        if let Err(fault) = self.begin() {
            return Err(fault);
        }
        self.bytes.truncate(len as usize);
        Ok(())
    }

    fn sync(&mut self) -> Result<(), DeviceError> {
        self.begin()
    }
}
