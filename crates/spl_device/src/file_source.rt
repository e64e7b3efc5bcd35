//! A file as a source, which doesn't report what it holds.
ghost use Rattle.std.specs.Prelude.{◌≡◌, ◌≤◌, [], IfOk, IfSome, None, length, vec_len};

use spl_edge::{DeviceError, Source, count_fault};
use std::alloc::Global;
use std::io;
use std::io::{ErrorKind, Read};

/// A file that is read, or one that couldn't be opened, whose reads all fail. It keeps the bytes that it gave. A read that
/// a signal interrupted is made again.
#[derive(Drop)]
pub struct FileSource<R: Read + Drop> {
    file: Option<R>,
    /// Bytes of the file that an earlier reading took, given before what is left of it.
    ahead: Vec<u8>,
    next: usize,
    ended: bool,
    taken: Vec<u8>,
    faults: u64,
    ghost within: { next ≤ vec_len ahead },
}

/// Reads once, and again where a signal interrupted that.
pub(crate) fn read_once<R: Read>(file: &mut R, buf: &mut [u8]) -> io::Result<usize>
    ensures { IfOk result (λ n. n ≤ length buf.new) }
{
    for _ in 0..u64::MAX {
        match file.read(buf) {
            Err(error) if error.kind() == ErrorKind::Interrupted => {}
            done => return done,
        }
    }
    Err(ErrorKind::TimedOut.into())
}

impl<R: Read + Drop> FileSource<R> {
    /// A source that gave nothing yet, and has no fault.
    pub fn new(alloc: Global, file: Option<R>) -> Self
        ensures taken { result.taken.items ≡ [] }
        ensures faults { result.faults ≡ 0 }
    {
        FileSource {
            file,
            ahead: Vec::new(alloc),
            next: 0,
            ended: false,
            taken: Vec::new(alloc),
            faults: 0,
        }
    }

    /// A source that gives the same bytes from the first one on, also those of a file that can be read only once. Where a
    /// read has failed, a read fails after the bytes that came before.
    pub fn again(self, alloc: Global) -> Self
        ensures taken { result.taken.items ≡ [] }
        ensures faults { result.faults ≡ 0 }
    {
        let FileSource {
            file,
            ended,
            taken,
            faults,
            ..
        } = self;
        let rest = if faults == 0 { file } else { None };
        FileSource {
            file: rest,
            ahead: taken,
            next: 0,
            ended,
            taken: Vec::new(alloc),
            faults: 0,
        }
    }

    /// Takes some of the bytes that were read ahead, and says how many.
    fn take_ahead(&mut self, buf: &mut [u8]) -> usize
        ensures count { result ≤ length buf.new }
        ensures taken { self.new.taken ≡ self.old.taken }
        ensures faults { self.new.faults ≡ self.old.faults }
    {
        let rest = &self.ahead[self.next..];
        let count = rest.len().min(buf.len());
        buf[..count].copy_from_slice(&rest[..count]);
        self.next += count;
        count
    }

    /// Takes some of the bytes that the file has left, and says how many.
    fn take_rest(&mut self, buf: &mut [u8]) -> Option<usize>
        ensures count { IfSome result (λ n. n ≤ length buf.new) }
        ensures taken { self.new.taken ≡ self.old.taken }
        ensures faults { self.new.faults ≡ self.old.faults }
    {
        if self.ended {
            return Some(0);
        }
        let count = read_once(self.file.as_mut()?, buf).ok()?;
        if count == 0 && !buf.is_empty() {
            self.ended = true;
        }
        Some(count)
    }
}

impl<R: Read + Drop> Source for FileSource<R> {
    ghost view = { λ s. record { gave = s.taken.items; left = None; faults = s.faults } };

    fn read(&mut self, buf: &mut [u8]) -> Result<usize, DeviceError> {
        self.taken.try_reserve(buf.len())?;
        let ahead = self.take_ahead(buf);
        let taken = if ahead > 0 {
            Some(ahead)
        } else {
            self.take_rest(buf)
        };
        match taken {
            Some(count) => {
                self.taken.extend_from_slice(&buf[..count])?;
                Ok(count)
            }
            None => Err(count_fault(&mut self.faults)),
        }
    }
}
