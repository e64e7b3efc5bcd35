//! The standard descriptors of a program.
use std::fs::{File, Files};
use std::os::fd::AsRawFd;
use std::{fs, io};

/// Files that can be neither read nor written, in the place of standard descriptors that are closed, so that no other file
/// gets their numbers.
pub fn hold_descriptors<R>(rt: &R) -> io::Result<Vec<File>>
where
    R: Files<File = File> + AllocGlobal,
{
    let mut held = Vec::new(rt.alloc());
    for _ in 0..3 {
        let folder = fs::open(rt, "/")?;
        if folder.as_raw_fd() > 2 {
            break;
        }
        held.push(folder)?;
    }
    Ok(held)
}
