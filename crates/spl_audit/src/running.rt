//! The audit of the nodes of a registry over their disks.
ghost use Rattle.std.specs.Prelude.{◌≡◌, ◌<◌, ◌≤◌, ℕ, List, length, slice_get, Some, IfSome};
ghost use Rattle.spl_edge.specs.Devices.{IsSettled, PairView, bench, image_now};
ghost use Rattle.spl_registry.specs.Nodes.{Entry};
ghost use Rattle.spl_audit.specs.{Audited.AreCellsKept, Keepers.keepers, Runs.{AllStand, AllStay, CameOf}};

use crate::peeking::peek_nodes;
use crate::saying::say;
use crate::verdict::{AuditRunFault, Verdict};
use spl_edge::{DeviceError, Disk, Pair, Sink, write_all};
use spl_node::Keeper;
use spl_registry::Registry;
use std::alloc::Global;
use std::mem;

/// Audits nodes that were read from disks, and writes what is said of them.
fn write_audit<W: Sink>(
    alloc: Global,
    nodes: &[Keeper],
    out: &mut W,
) -> Result<Verdict, AuditRunFault>
    requires kept { AreCellsKept (keepers nodes.now) }
    ensures came { (es : List Entry) (ps qs : List PairView) → AllStand es ps nodes.now → CameOf result es ps qs (W.view out.old) (W.view out.new) }
{
    let Ok(said) = say(alloc, nodes) else {
        return Err(AuditRunFault::NoMemory);
    };
    match write_all(out, &said.text) {
        Ok(()) => Ok(said.verdict),
        Err(DeviceError::Failed) => Err(AuditRunFault::Write),
        Err(DeviceError::NoMemory) => Err(AuditRunFault::NoMemory),
    }
}

/// Audits the nodes of a registry by what their disks hold, on which nothing is pending, and writes the
/// report where no two of them clash, and else the line of the least clash. `Disk` comes only where a disk of
/// that node failed, `NotAJournal` with the first node whose disks are neither blank nor a journal, and
/// `Write` only where the sink failed. Nothing is written with the first two, and a part of the text with
/// `Write`; with `NoMemory`, a part of it or nothing. The disks hold what they held, and only those of the
/// nodes are asked. What was read of them isn't freed, since the program ends with an audit.
pub fn run_audit<W: Sink, D: Disk>(
    alloc: Global,
    registry: &Registry,
    pairs: &mut Vec<Pair<D>>,
    out: &mut W,
) -> Result<Verdict, AuditRunFault>
    requires room { length registry.now ≤ length pairs.old.items }
    requires settled { (k : ℕ) (p : PairView) → k < length registry.now → slice_get (bench D.view pairs.old.items) k ≡ Some p
        → IfSome (image_now p.first) IsSettled × IfSome (image_now p.second) IsSettled }
    ensures came { CameOf result registry.now (bench D.view pairs.old.items) (bench D.view pairs.new.items) (W.view out.old) (W.view out.new) }
    ensures stays { AllStay (bench D.view pairs.old.items) (bench D.view pairs.new.items) }
    ensures spared { (k : ℕ) → length registry.now ≤ k → slice_get (bench D.view pairs.new.items) k ≡ slice_get (bench D.view pairs.old.items) k }
{
    match peek_nodes(alloc, registry, pairs) {
        Ok(nodes) => {
            let verdict = write_audit(alloc, &nodes, out);
            // The program ends with an audit, and gives its memory back at once.
            mem::forget(nodes);
            verdict
        }
        Err(fault) => Err(fault),
    }
}
