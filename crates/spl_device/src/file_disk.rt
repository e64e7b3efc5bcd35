//! A file as a disk, which doesn't say what it holds.
ghost use Rattle.std.specs.Prelude.{◌≡◌, ◌<◌, ◌≤◌, ◌+◌, ◌^◌, None, Some, length, IfOk, IfSome, OnSome};
ghost use Rattle.spl_edge.specs.{Devices.{Passes, armed_with}, declared.disk.Arming.TheVariants.Off};

use spl_edge::{DeviceError, Disk, count_fault};
use std::fs::OpenFile;
use std::io;
use std::io::ErrorKind;
use std::os::unix::fs::FileExt;

/// The greatest length of a file.
const MOST: u64 = i64::MAX as u64;

/// What the calls of a disk go to.
#[derive(Drop)]
pub enum Backing<F: Drop> {
    /// A file that is read and written.
    File(F),
    /// A file that is read alone: a call that would change it fails, and doesn't come to it.
    Kept(F),
    /// No file: there are no bytes, and a call that would change that fails.
    Missing,
    /// A file that couldn't be opened: each call fails.
    Failed,
}

/// A file that is read and written at offsets, or what stands for one. It reports nothing of what it holds, counts its
/// calls, and counts a fault at each call that the system refuses. That a read gives what was written last, and that a stop
/// leaves what stood at a sync that succeeded, is trusted.
#[derive(Drop)]
pub struct FileDisk<F: FileExt + OpenFile + Drop> {
    backing: Backing<F>,
    moment: u64,
    faults: u64,
}

impl<F: FileExt + OpenFile + Drop> FileDisk<F> {
    /// A disk that was never called, and has no fault.
    pub fn new(backing: Backing<F>) -> Self
        ensures backing { result.backing ≡ backing }
        ensures moment { result.moment ≡ 0 }
        ensures faults { result.faults ≡ 0 }
    {
        FileDisk {
            backing,
            moment: 0,
            faults: 0,
        }
    }

    /// Syncs the file that stands for it, so that what is read of it lasts: a process that ended may have left writes that
    /// were never synced. A disk whose file can't be synced fails at each call. It isn't a call of the disk.
    pub fn settle(&mut self)
        ensures moment { self.new.moment ≡ self.old.moment }
        ensures faults { self.new.faults ≡ self.old.faults }
    {
        let lasts = match &self.backing {
            Backing::File(file) => file.sync_data().is_ok(),
            _ => true,
        };
        if !lasts {
            self.backing = Backing::Failed;
        }
    }

    /// Counts a call, and a fault where the call has nothing to answer.
    fn count<T: Drop>(&mut self, answer: Option<T>) -> Result<T, DeviceError>
        ensures call { Passes self.old.moment self.new.moment self.old.faults self.new.faults (armed_with Off 0) result }
        ensures answer { IfOk result (λ value. answer ≡ Some value) }
    {
        match (self.moment.checked_add(1), answer) {
            (Some(moment), Some(value)) => {
                self.moment = moment;
                Ok(value)
            }
            (moment, _) => {
                self.moment = moment.unwrap_or(u64::MAX);
                Err(count_fault(&mut self.faults))
            }
        }
    }
}

/// How many bytes a file has.
fn len_of<F: OpenFile>(file: &F) -> Option<u64>
    ensures { IfSome result (λ n. n < 2 ^ 63) }
{
    let len = file.metadata().ok()?.len();
    if len > MOST {
        return None;
    }
    Some(len)
}

/// Fills the buffer from an offset on, and says how many bytes came before the file's end.
fn read_from<F: FileExt>(file: &F, at: u64, buf: &mut [u8]) -> io::Result<usize>
    ensures { IfOk result (λ n. n ≤ length buf.new) }
{
    let mut filled = 0;
    for _ in 0..u64::MAX {
        if filled == buf.len() {
            return Ok(filled);
        }
        match file.read_at(&mut buf[filled..], at.saturating_add(filled as u64)) {
            Ok(0) => return Ok(filled),
            Ok(count) => filled += count,
            Err(error) if error.kind() == ErrorKind::Interrupted => {}
            Err(error) => return Err(error),
        }
    }
    Err(ErrorKind::TimedOut.into())
}

/// Writes all bytes, the first at an offset.
fn write_to<F: FileExt>(file: &F, at: u64, bytes: &[u8]) -> Option<()>
    ensures { OnSome result (at + length bytes.now < 2 ^ 63) }
{
    let end = at.checked_add(bytes.len() as u64)?;
    if end > MOST {
        return None;
    }
    file.write_all_at(bytes, at).ok()
}

impl<F: FileExt + OpenFile + Drop> Disk for FileDisk<F> {
    ghost use Rattle.spl_edge.specs.Devices.{untold_disk};

    ghost view = { λ d. untold_disk d.moment d.faults };

    ghost possible = { λ _. tt };

    fn len(&mut self) -> Result<u64, DeviceError> {
        let found = match &self.backing {
            Backing::File(file) | Backing::Kept(file) => len_of(file),
            Backing::Missing => Some(0),
            Backing::Failed => None,
        };
        self.count(found)
    }

    fn read(&mut self, at: u64, buf: &mut [u8]) -> Result<usize, DeviceError> {
        let filled = match &self.backing {
            Backing::File(file) | Backing::Kept(file) => read_from(file, at, buf).ok(),
            Backing::Missing => Some(0),
            Backing::Failed => None,
        };
        self.count(filled)
    }

    fn write_at(&mut self, at: u64, bytes: &[u8]) -> Result<(), DeviceError> {
        let written = match &self.backing {
            Backing::File(file) => write_to(file, at, bytes),
            _ => None,
        };
        self.count(written)
    }

    fn cut(&mut self, len: u64) -> Result<(), DeviceError> {
        let cut = match &self.backing {
            Backing::File(file) => file.set_len(len).ok(),
            _ => None,
        };
        self.count(cut)
    }

    fn sync(&mut self) -> Result<(), DeviceError> {
        let synced = match &self.backing {
            Backing::File(file) => file.sync_data().ok(),
            _ => None,
        };
        self.count(synced)
    }
}
