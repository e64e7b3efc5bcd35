//! `lint`: the first line of a schedule that isn't one.
use crate::ending::Ending;
use crate::registry::read;
use spl_cli::Status;
use spl_device::FileSource;
use spl_lint::LintFault;
use std::alloc::AllocError;
use std::fs;

/// Reads a registry and a schedule over its nodes, and says which line of it is the first bad one, and why.
pub(crate) fn lint(
    rt: &HostRuntime,
    registry: &String,
    schedule: &String,
) -> Result<Ending, AllocError> {
    let registry = match read(rt, registry) {
        Ok(registry) => registry,
        Err(ending) => return Ok(ending),
    };
    let nodes = registry.ids(rt.alloc())?;
    let file = fs::open(rt, schedule.as_str()).ok();
    let mut source = FileSource::new(rt.alloc(), file);
    match spl_lint::lint(rt.alloc(), nodes.as_slice(), &mut source) {
        Ok(()) => Ok(Ending::As(Status::Ok)),
        Err(LintFault::BadLine { number, cause }) => Ok(Ending::BadLine { number, cause }),
        Err(LintFault::Read) => Ok(Ending::As(Status::ReadFault)),
        Err(LintFault::TooLong) => Ok(Ending::As(Status::TooLong)),
        Err(LintFault::NoMemory) => Err(AllocError),
    }
}
