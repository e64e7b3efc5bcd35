//! The calls of a device in memory: how many came, and which of them fail.
ghost use Rattle.std.specs.Prelude.{◌≡◌};
ghost use Rattle.spl_edge.specs.Devices.{Passes, fails_at};

use spl_edge::{Armed, Arming, DeviceError, count_fault};
use std::alloc::Global;

fn fails(armed: Armed, moment: u64) -> bool
    ensures { result ≡ fails_at armed moment }
{
    let passed = moment.saturating_sub(armed.since);
    match armed.arming {
        Arming::Off => false,
        Arming::After(calls) => u64::from(calls) <= passed,
        Arming::At(call) => passed < u64::MAX && passed + 1 == u64::from(call),
    }
}

/// The calls of a device so far: its moment, to which picks add too, their number, how many failed, and which are to fail.
#[derive(Drop)]
pub(crate) struct Calls {
    pub(crate) moment: u64,
    number: u64,
    pub(crate) faults: u64,
    pub(crate) armed: Armed,
    failing: Vec<u64>,
}

impl Calls {
    ghost use Rattle.spl_memory.specs.MemDisks.{NoneCame};

    /// No call came. Those of these numbers, from 1 on, fail while the device isn't armed.
    pub(crate) fn new(failing: Vec<u64>) -> Calls
        ensures none { NoneCame result }
        ensures failing { result.failing ≡ failing }
    {
        Calls {
            moment: 0,
            number: 0,
            faults: 0,
            armed: Armed {
                arming: Arming::Off,
                since: 0,
            },
            failing,
        }
    }

    /// A call comes: it fails by itself, or goes on.
    #[inline(always)]
    pub(crate) fn begin(&mut self) -> Result<(), DeviceError>
        ensures passes { Passes self.old.moment self.new.moment self.old.faults self.new.faults self.old.armed result }
        ensures armed { self.new.armed ≡ self.old.armed }
    {
        let at_end = self.moment == u64::MAX;
        let due = fails(self.armed, self.moment);
        self.moment = self.moment.saturating_add(1);
        self.number = self.number.saturating_add(1);
        if due || (self.armed.arming == Arming::Off && self.failing.contains(&self.number)) {
            return Err(count_fault(&mut self.faults));
        }
        if at_end {
            return Err(DeviceError::NoMemory);
        }
        Ok(())
    }
}
