//! The fabric between nodes that hand messages over in memory.
ghost use Rattle.std.specs.Prelude.{[], Some};

use spl_edge::{DeviceError, Fabric};

/// No fabric: nothing is put on it, and nothing taken.
#[derive(Drop)]
pub struct NoFabric;

impl Fabric for NoFabric {
    ghost view = { λ _. record { put = λ from to. Some []; taken = λ from to. Some []; faults = 0 } };

    fn put(&mut self, _from: u8, _to: u8, _bytes: &[u8]) -> Result<usize, DeviceError> {
        Err(DeviceError::NoMemory)
    }

    fn take(&mut self, _from: u8, _to: u8, _buf: &mut [u8]) -> Result<usize, DeviceError> {
        Err(DeviceError::NoMemory)
    }
}
