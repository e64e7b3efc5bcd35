//! A disk in memory, which keeps its bytes and what each change took away of them.
ghost use Rattle.std.specs.Prelude.{◌≡◌, ◌≤◌, ◌<◌, ◌+◌, ◌^◌, [], true, length, refl};
ghost use Rattle.spl_memory.specs.{Histories.{IsHeldBy, calls_in}, Replay.all_until};
ghost use Rattle.spl_edge.specs.Devices.{settled_at};

use crate::calls::Calls;
use crate::history::History;
use crate::patch::MOST;
use spl_edge::{Armed, Arming, DeviceError, Disk, Fill, StopDisk};
use std::alloc::{AllocError, Global};

#[derive(Drop)]
pub struct MemDisk {
    first: Vec<u8>,
    history: History,
    calls: Calls,
    ghost held: { IsHeldBy (settled_at first.items) history },
    ghost timely: { all_until calls.moment (calls_in history) ≡ true },
}

impl MemDisk {
    ghost use Rattle.spl_memory.specs.MemDisks.{IsFreshDisk, failing_of};

    /// A blank disk, on which the calls of these numbers, from 1 on, fail while it isn't armed.
    pub fn new(alloc: Global, failing: Vec<u64>) -> MemDisk
        ensures fresh { IsFreshDisk result }
        ensures calls { failing_of result ≡ failing.items }
    {
        MemDisk {
            first: Vec::new(alloc),
            history: History::new(alloc),
            calls: Calls::new(failing),
        }
    }
}

impl Disk for MemDisk {
    ghost use Rattle.spl_memory.specs.{MemDisks.disk_view, Possible.possible_now};

    ghost view = { disk_view };

    ghost possible = { λ d. possible_now (settled_at d.first.items) d.calls.moment (calls_in d.history) d.timely d.held.sound.new };

    fn len(&mut self) -> Result<u64, DeviceError> {
        if let Err(fault) = self.calls.begin() {
            return Err(fault);
        }
        Ok(self.history.bytes().len() as u64)
    }

    fn read(&mut self, at: u64, buf: &mut [u8]) -> Result<usize, DeviceError> {
        if let Err(fault) = self.calls.begin() {
            return Err(fault);
        }
        let bytes = self.history.bytes();
        let from = bytes.len().min(at as usize);
        let count = buf.len().min(bytes.len() - from);
        buf[..count].copy_from_slice(&bytes[from..from + count]);
        Ok(count)
    }

    fn write_at(&mut self, at: u64, bytes: &[u8]) -> Result<(), DeviceError> {
        if let Err(fault) = self.calls.begin() {
            return Err(fault);
        }
        if bytes.len() > MOST - at as usize {
            return Err(DeviceError::NoMemory);
        }
        match self.history.write(self.calls.moment, at as usize, bytes) {
            Ok(()) => Ok(()),
            Err(_) => Err(DeviceError::NoMemory),
        }
    }

    fn cut(&mut self, len: u64) -> Result<(), DeviceError> {
        if let Err(fault) = self.calls.begin() {
            return Err(fault);
        }
        match self.history.cut(self.calls.moment, len as usize) {
            Ok(()) => Ok(()),
            Err(_) => Err(DeviceError::NoMemory),
        }
    }

    fn sync(&mut self) -> Result<(), DeviceError> {
        if let Err(fault) = self.calls.begin() {
            return Err(fault);
        }
        match self.history.sync(self.calls.moment) {
            Ok(()) => Ok(()),
            Err(_) => Err(DeviceError::NoMemory),
        }
    }
}

impl StopDisk for MemDisk {
    ghost tells = { λ _. refl };

    fn stop_after(&mut self, calls: u32) {
        self.calls.armed = Armed {
            arming: Arming::After(calls),
            since: self.calls.moment,
        };
    }

    fn fail_at(&mut self, call: u32) {
        self.calls.armed = Armed {
            arming: Arming::At(call),
            since: self.calls.moment,
        };
    }

    fn pick(&mut self, alloc: Global, fill: Fill) -> Result<(), AllocError> {
        if self.calls.moment == u64::MAX {
            return Err(AllocError);
        }
        let moment = self.calls.moment + 1;
        self.history.pick(
            alloc,
            moment,
            fill,
            self.calls.armed.arming,
            self.calls.faults,
        )?;
        self.calls.moment = moment;
        self.calls.armed = Armed {
            arming: Arming::Off,
            since: moment,
        };
        Ok(())
    }
}
