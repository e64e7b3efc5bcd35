//! The status of a run that ended.
ghost use Rattle.std.specs.Prelude.{Err};
ghost use Rattle.spl_app.specs.{Asked.IsStatusOf, Parts.{EndNamesNodes, NamesNodes}};

use spl_cli::Status;
use spl_registry::Registry;
use spl_runs::{RunEnd, RunFault};
use spl_world::WorldFault;

// The status of an error that ended a run over these nodes.
fn error_status(registry: &Registry, error: WorldFault) -> Status
    requires { NamesNodes registry.now error }
    ensures { IsStatusOf registry.now (Err (RunFault.World error)) result }
{
    match error {
        WorldFault::TooMany { which } => Status::TooMany { which },
        WorldFault::Disk { position } => Status::DiskFault {
            node: registry.node(position),
        },
        WorldFault::NotAJournal { position, at } => Status::NotAJournal {
            node: registry.node(position),
            at,
        },
        WorldFault::Link => Status::LinkFault,
        WorldFault::Lied {
            from,
            to,
            sent,
            got,
        } => Status::Lied {
            from: registry.node(from),
            to: registry.node(to),
            sent,
            got,
        },
        WorldFault::NoMemory => Status::NoMemory,
    }
}

/// The status of a run over these nodes that ended so.
pub fn status_of(registry: &Registry, ended: Result<RunEnd, RunFault>) -> Status
    requires { EndNamesNodes registry.now ended }
    ensures { IsStatusOf registry.now ended result }
{
    match ended {
        Ok(RunEnd::Whole) => Status::Ok,
        Ok(RunEnd::TooLong) => Status::TooLong,
        Ok(RunEnd::Read) => Status::ReadFault,
        Err(RunFault::BadLine(line)) => Status::BadSchedule { line },
        Err(RunFault::World(error)) => error_status(registry, error),
        Err(RunFault::Write) => Status::WriteFault,
        Err(RunFault::NoMemory) => Status::NoMemory,
    }
}
