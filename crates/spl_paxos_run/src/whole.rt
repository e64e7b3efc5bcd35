//! A whole run of Paxos Commit.
ghost use Rattle.std.specs.{Prelude.{◌≡◌, ◌≤◌, false, length, IsErrOf}, Io.KnownBytes.Consumes};
ghost use Rattle.spl_edge.specs.{Devices.bench, Sources.given};
ghost use Rattle.spl_lines.specs.Lines.{run_of};
ghost use Rattle.spl_paxos_run.specs.{Places.process_count, Wholes.AreFresh, Run.{PaxosEndsText, PaxosOutcome, paxos_devices}};

use crate::PaxosFault;
use crate::run::{PaxosEnd, Run, fault_of};
use spl_acceptor::Group;
use spl_edge::{Pair, Sink, Source, StopDisk};
use std::alloc::Global;
use std::mem;

// Whether a run ended because memory ran out.
fn lacks_memory(ended: &Result<PaxosEnd, PaxosFault>) -> bool
    ensures { result ≡ false → IsErrOf ended.now PaxosFault.NoMemory → ⊥ }
{
    matches!(ended, Err(PaxosFault::NoMemory))
}

/// Runs each line that a source gives over the processes of a run, and writes the answers. Each process has the first disk of a
/// pair, which is blank: members first, then acceptors, then leaders; second disks, and pairs past them, stay as they were. A run
/// ends at the first line that a schedule may not have there (`BadLine`), that passes a limit (`TooMany`), or in which its
/// process's disk fails (`Disk`); where the making of a process fails no line runs. All answers to the lines that ran are written,
/// and a prefix of them where the sink failed (`Write`) or memory ran out. Running out of memory is reported before a fault of the
/// sink, and that before any other. What the run holds in memory is left to the end of the process (docs/RULES.md, Paxos Commit).
pub fn run_paxos<S: Source, W: Sink, D: StopDisk>(
    alloc: Global,
    group: Group,
    pairs: &mut Vec<Pair<D>>,
    source: &mut S,
    out: &mut W,
) -> Result<PaxosEnd, PaxosFault>
    requires members { (2 ≤ group.members) × (group.members ≤ 8) }
    requires faults { group.faults ≤ 2 }
    requires room { process_count group ≤ length pairs.old.items }
    requires fresh { AreFresh group (bench D.view pairs.old.items) }
    ensures text { PaxosEndsText result group (run_of (given (S.view source.old) (S.view source.new))) (S.view source.old) (S.view source.new) }
    ensures taken { Consumes (S.view source.old).left (S.view source.new).left (given (S.view source.old) (S.view source.new)) }
    ensures ran { PaxosOutcome result group (run_of (given (S.view source.old) (S.view source.new)))
        (paxos_devices (W.view out.old) (bench D.view pairs.old.items)) (paxos_devices (W.view out.new) (bench D.view pairs.new.items)) }
{
    let mut run = Run::new(alloc, group, pairs)?;
    let ended = run.lines(alloc, pairs, source, out);
    let flushed = run.flush(out);
    // The process ends after a run, and gives its memory back at once.
    mem::forget(run);
    if lacks_memory(&ended) {
        return Err(PaxosFault::NoMemory);
    }
    match flushed {
        Ok(()) => ended,
        Err(fault) => Err(fault_of(fault)),
    }
}
