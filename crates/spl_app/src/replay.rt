//! Runs a schedule in memory.
ghost use Rattle.std.specs.{Prelude.{◌≡◌, ◌<◌, ◌≤◌, ℕ, List, false, length, IsErrOf}, Io.KnownBytes.Consumes};
ghost use Rattle.spl_edge.specs.{Devices.{FabricView, PairView, bench}, Sources.given};
ghost use Rattle.spl_runs.specs.Run.{is_trace, run_way, DisksGoOn, EndsText, PlanOutcome, devices, held_on};
ghost use Rattle.spl_node.specs.Benches.{AllTell, AreBlank, images_at, AllUnarmed, NoneForgotten, images, AllUnpicked};
ghost use Rattle.spl_app.specs.{Parts.plan_given, Headline.Began, Asked.{mode_of, no_links, outside}};
ghost use Rattle.spl_cli.specs.Command.{in_memory};

use crate::ended::status_of;
use crate::fabric::NoFabric;
use spl_cli::{Status, registries_are_small};
use spl_edge::{Pair, Sink, Source, StopDisk};
use spl_pump::Straight;
use spl_registry::Registry;
use spl_runs::{Beginning, Mode, Picking, RunEnd, RunFault, Setup, Writing, run_lines};
use spl_world::WorldFault;
use std::alloc::Global;

/// Runs each line that a source gives over the nodes of a registry, whose disks are blank, and writes what the mode says of it.
/// Messages are handed over in memory, and a node that goes down picks what its disks keep.
pub fn run_in_memory<S: Source, W: Sink, D: StopDisk>(
    alloc: Global,
    registry: &Registry,
    pairs: &mut Vec<Pair<D>>,
    source: &mut S,
    out: &mut W,
    mode: Mode,
) -> Result<RunEnd, RunFault>
    requires fresh { mode.beginning ≡ Beginning.Blank }
    requires pairs { length registry.now ≤ length pairs.old.items }
    requires blank { (i : ℕ) → i < length registry.now → AreBlank (images_at (images D.view pairs.old.items) i) }
    requires unpicked { AllUnpicked (bench D.view pairs.old.items) }
    ensures text { EndsText result (run_way false mode.unanswered)
        (plan_given mode registry.now (images D.view pairs.old.items) (S.view source.old) (S.view source.new)) (S.view source.old) (S.view source.new) }
    ensures taken { Consumes (S.view source.old).left (S.view source.new).left (given (S.view source.old) (S.view source.new)) }
    ensures ran { PlanOutcome result (run_way false mode.unanswered)
        (plan_given mode registry.now (images D.view pairs.old.items) (S.view source.old) (S.view source.new))
        (S.view source.old) (S.view source.new)
        (devices (W.view out.old) (bench D.view pairs.old.items) no_links) (devices (W.view out.new) (bench D.view pairs.new.items) no_links) }
    ensures report { AllTell (length registry.now) (held_on (bench D.view pairs.old.items)) }
    ensures sound { (k at : ℕ) → IsErrOf result (RunFault.World (WorldFault.NotAJournal k at)) → ⊥ }
    ensures onward { DisksGoOn result false (bench D.view pairs.old.items) (bench D.view pairs.new.items) }
{
    registries_are_small(registry);
    let mut carrier = Straight::new();
    let mut fabric = NoFabric;
    let setup = Setup { registry, mode };
    run_lines::<Picking, S, W, D, Straight, NoFabric>(
        alloc,
        &setup,
        pairs,
        &mut carrier,
        &mut fabric,
        source,
        out,
    )
}

/// Runs the schedule that a source gives over the nodes of a registry, whose disks are blank, and writes the answers, or in
/// their place the trace.
pub fn replay<S: Source, W: Sink, D: StopDisk>(
    alloc: Global,
    registry: &Registry,
    schedule: &mut S,
    out: &mut W,
    pairs: &mut Vec<Pair<D>>,
    writing: Writing,
) -> Status
    requires pairs { length registry.now ≤ length pairs.old.items }
    requires blank { (i : ℕ) → i < length registry.now → AreBlank (images_at (images D.view pairs.old.items) i) }
    requires unpicked { AllUnpicked (bench D.view pairs.old.items) }
    // Whatever else there is: none of it is used.
    ensures began { (shelf : List PairView) (fabric : FabricView) → Began result (in_memory (is_trace writing))
        (plan_given (mode_of (in_memory (is_trace writing))) registry.now (held_on shelf) (S.view schedule.old) (S.view schedule.new))
        (S.view schedule.old) (S.view schedule.new)
        (outside (W.view out.old) (bench D.view pairs.old.items) shelf fabric) (outside (W.view out.new) (bench D.view pairs.new.items) shelf fabric) }
    ensures onward { NoneForgotten (bench D.view pairs.old.items) (bench D.view pairs.new.items) }
    ensures unarmed { (result ≡ Status.NoMemory → ⊥) → AllUnarmed (bench D.view pairs.new.items) }
    ensures taken { Consumes (S.view schedule.old).left (S.view schedule.new).left (given (S.view schedule.old) (S.view schedule.new)) }
{
    let mode = Mode {
        beginning: Beginning::Blank,
        writing,
        unanswered: 0,
    };
    let ended = run_in_memory(alloc, registry, pairs, schedule, out, mode);
    status_of(registry, ended)
}
