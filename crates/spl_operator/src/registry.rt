//! The registry of a command line.
use crate::ending::Ending;
use spl_cli::read_registry;
use spl_device::FileSource;
use spl_registry::Registry;
use std::fs;

/// The registry in the file of a name, or how the program ends without one.
pub(crate) fn read(rt: &HostRuntime, name: &String) -> Result<Registry, Ending> {
    let file = fs::open(rt, name.as_str()).ok();
    let mut source = FileSource::new(rt.alloc(), file);
    match read_registry(rt.alloc(), &mut source) {
        Ok(registry) => Ok(registry),
        Err(status) => Err(Ending::As(status)),
    }
}
