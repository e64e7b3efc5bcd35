//! Audits what disks hold.
ghost use Rattle.std.specs.Prelude.{◌<◌, ◌≤◌, ℕ, length};
ghost use Rattle.spl_edge.specs.Devices.{bench};
ghost use Rattle.spl_node.specs.Benches.{AllGoOn, images_at, AreSettled, images};
ghost use Rattle.spl_audit.specs.Audit.{Audited, EndNamesNode, IsAuditStatus};

use crate::{AuditRunFault, Verdict, run_audit};
use spl_cli::Status;
use spl_edge::{Disk, Pair, Sink};
use spl_registry::Registry;
use std::alloc::Global;

// The status of an audit of these nodes that ended so.
fn audit_status(registry: &Registry, ended: Result<Verdict, AuditRunFault>) -> Status
    requires { EndNamesNode registry.now ended }
    ensures { IsAuditStatus registry.now ended result }
{
    match ended {
        Ok(Verdict::Agreed) => Status::Ok,
        Ok(Verdict::Disagreed) => Status::Disagreed,
        Err(AuditRunFault::Disk { slot }) => Status::DiskFault {
            node: registry.node(slot),
        },
        Err(AuditRunFault::NotAJournal { slot, at }) => Status::NotAJournal {
            node: registry.node(slot),
            at,
        },
        Err(AuditRunFault::Write) => Status::WriteFault,
        Err(AuditRunFault::NoMemory) => Status::NoMemory,
    }
}

/// Compares what the nodes of a registry keep by their disks, on which nothing is pending, and writes what is found. The
/// disks hold what they held.
pub fn audit_disks<W: Sink, E: Disk>(
    alloc: Global,
    registry: &Registry,
    out: &mut W,
    pairs: &mut Vec<Pair<E>>,
) -> Status
    requires pairs { length registry.now ≤ length pairs.old.items }
    requires settled { (i : ℕ) → i < length registry.now → AreSettled (images_at (images E.view pairs.old.items) i) }
    ensures came { Audited result registry.now (bench E.view pairs.old.items) (bench E.view pairs.new.items) (W.view out.old) (W.view out.new) }
    ensures onward { AllGoOn (bench E.view pairs.old.items) (bench E.view pairs.new.items) }
{
    let ended = run_audit(alloc, registry, pairs, out);
    audit_status(registry, ended)
}
