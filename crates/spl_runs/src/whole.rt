//! A whole run.
ghost use Rattle.std.specs.{Io.KnownBytes.Consumes, Prelude.{◌≡◌, ◌<◌, ◌≤◌, ℕ, true, false, length, IsErrOf}};
ghost use Rattle.spl_edge.specs.{Devices.bench, Sources.given};
ghost use Rattle.spl_lines.specs.Lines.{run_of};
ghost use Rattle.spl_runs.specs.{Moments.CanCarry, Run.{run_plan, run_way, DisksGoOn, EndsText, PlanOutcome, devices}};
ghost use Rattle.spl_node.specs.Benches.{AreBlank, images_at, AreSettled, images, AllUnpicked};
ghost use Rattle.spl_world.specs.Links.{link_view};

use crate::fault::{RunEnd, RunFault};
use crate::halt::Halt;
use crate::mode::{Beginning, Setup};
use crate::run::Run;
use spl_edge::{Disk, Fabric, Pair, Sink, Source};
use spl_pump::Carry;
use std::alloc::Global;
use std::mem;

// Whether a run ended because memory ran out.
fn lacks_memory(ended: &Result<RunEnd, RunFault>) -> bool
    ensures { result ≡ false → IsErrOf ended.now RunFault.NoMemory → ⊥ }
{
    matches!(ended, Err(RunFault::NoMemory))
}

/// Runs each line that a source gives over the nodes of a registry, up to the first that a schedule may not have there or that
/// ends with an error, and writes the answer to each, or its trace. By the mode the disks are blank, or the nodes are those for
/// which they stand; that is so over links alone. Over links a calm of the circuit that a line names is run after it. All messages
/// go through the carrier. Running out of memory is reported before a fault of the sink, since it may leave disks armed. What the
/// run holds in memory is left to the end of the process.
pub fn run_lines<H: Halt<D>, S: Source, W: Sink, D: Disk, C: Carry, F: Fabric>(
    alloc: Global,
    setup: &Setup<'_>,
    pairs: &mut Vec<Pair<D>>,
    carrier: &mut C,
    fabric: &mut F,
    source: &mut S,
    out: &mut W,
) -> Result<RunEnd, RunFault>
    requires pairs { length setup.now.registry.now ≤ length pairs.old.items }
    requires blank { setup.now.mode.beginning ≡ Beginning.Blank → (i : ℕ) → i < length setup.now.registry.now
        → AreBlank (images_at (images D.view pairs.old.items) i) }
    requires settled { setup.now.mode.beginning ≡ Beginning.Resumed → (i : ℕ) → i < length setup.now.registry.now
        → AreSettled (images_at (images D.view pairs.old.items) i) }
    requires linked { setup.now.mode.beginning ≡ Beginning.Resumed → H.linked ≡ true }
    requires unpicked { H.linked ≡ false → AllUnpicked (bench D.view pairs.old.items) }
    requires carries { CanCarry setup.now.registry.now (link_view (C.view carrier.old) (F.view fabric.old)) }
    ensures text { EndsText result (run_way H.linked setup.now.mode.unanswered)
        (run_plan setup.now.mode setup.now.registry.now (images D.view pairs.old.items) (run_of (given (S.view source.old) (S.view source.new))))
        (S.view source.old) (S.view source.new) }
    ensures taken { Consumes (S.view source.old).left (S.view source.new).left (given (S.view source.old) (S.view source.new)) }
    ensures ran { PlanOutcome result (run_way H.linked setup.now.mode.unanswered)
        (run_plan setup.now.mode setup.now.registry.now (images D.view pairs.old.items) (run_of (given (S.view source.old) (S.view source.new))))
        (S.view source.old) (S.view source.new)
        (devices (W.view out.old) (bench D.view pairs.old.items) (link_view (C.view carrier.old) (F.view fabric.old)))
        (devices (W.view out.new) (bench D.view pairs.new.items) (link_view (C.view carrier.new) (F.view fabric.new))) }
    ensures onward { DisksGoOn result H.linked (bench D.view pairs.old.items) (bench D.view pairs.new.items) }
{
    let mut run = Run::new::<H, D>(alloc, setup.registry, pairs, setup.mode)?;
    let ended = run.lines::<H, S, W, D, C, F>(alloc, pairs, carrier, fabric, source, out);
    let flushed = run.flush(out);
    // The process ends after a run, and gives its memory back at once.
    mem::forget(run);
    if lacks_memory(&ended) {
        return Err(RunFault::NoMemory);
    }
    flushed?;
    ended
}
