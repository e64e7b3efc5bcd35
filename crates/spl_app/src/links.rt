//! Runs a schedule over links and files.
ghost use Rattle.std.specs.{Prelude.{◌≡◌, ◌<◌, ◌≤◌, ℕ, List, length}, Io.KnownBytes.Consumes};
ghost use Rattle.spl_edge.specs.{Devices.{PairView, bench as bench_of}, Sources.given};
ghost use Rattle.spl_pump.specs.Wires.{AllBytesTaken};
ghost use Rattle.spl_runs.specs.Run.{is_resumed, held_on};
ghost use Rattle.spl_node.specs.{Benches.{AllGoOn, AreBlank, images_at, AreSettled, images}, Blank.{AllEmpty, IsSame}};
ghost use Rattle.spl_app.specs.{Parts.Came, Asked.outside};
ghost use Rattle.spl_cli.specs.Command.{over_links};

use crate::ended::status_of;
use spl_cli::Status;
use spl_edge::{Disk, Fabric, Pair, Sink, Source};
use spl_node::{BlankFault, check_blank};
use spl_pump::Pump;
use spl_registry::Registry;
use spl_runs::{Beginning, Forgetting, Mode, Setup, Writing, run_lines};
use std::alloc::Global;

// Runs a schedule over disks that hold nothing where they report it, or goes on from what they hold.
fn run_linked<S: Source, W: Sink, E: Disk, F: Fabric>(
    alloc: Global,
    registry: &Registry,
    schedule: &mut S,
    out: &mut W,
    pairs: &mut Vec<Pair<E>>,
    fabric: &mut F,
    beginning: Beginning,
) -> Status
    requires pairs { length registry.now ≤ length pairs.old.items }
    requires blank { beginning ≡ Beginning.Blank → (i : ℕ) → i < length registry.now → AreBlank (images_at (images E.view pairs.old.items) i) }
    requires settled { beginning ≡ Beginning.Resumed → (i : ℕ) → i < length registry.now → AreSettled (images_at (images E.view pairs.old.items) i) }
    requires taken { AllBytesTaken (F.view fabric.old).put (F.view fabric.old).taken }
    ensures came { (bench start : List PairView) → IsSame (length registry.now) start (bench_of E.view pairs.old.items)
        → (beginning ≡ Beginning.Blank → AllEmpty (length registry.now) (held_on start))
        → Came result (over_links (is_resumed beginning)) registry.now (held_on start) (S.view schedule.old) (S.view schedule.new)
        (outside (W.view out.old) bench start (F.view fabric.old)) (outside (W.view out.new) bench (bench_of E.view pairs.new.items) (F.view fabric.new)) }
    ensures onward { AllGoOn (bench_of E.view pairs.old.items) (bench_of E.view pairs.new.items) }
    ensures taken { Consumes (S.view schedule.old).left (S.view schedule.new).left (given (S.view schedule.old) (S.view schedule.new)) }
{
    let Ok(mut pump) = Pump::new(alloc, registry) else {
        return Status::NoMemory;
    };
    let mode = Mode {
        beginning,
        writing: Writing::Answers,
        unanswered: 0,
    };
    let setup = Setup { registry, mode };
    let ended = run_lines::<Forgetting, S, W, E, Pump, F>(
        alloc, &setup, pairs, &mut pump, fabric, schedule, out,
    );
    status_of(registry, ended)
}

/// Runs the schedule that a source gives over the nodes of a registry and their disks, on which nothing
/// is pending, and writes the answers. All messages go over the fabric. A run that is resumed begins with
/// what the disks hold. Of any other the schedule isn't read where a disk of one of the nodes holds bytes, or
/// fails where it is asked for that.
pub fn links<S: Source, W: Sink, E: Disk, F: Fabric>(
    alloc: Global,
    registry: &Registry,
    schedule: &mut S,
    out: &mut W,
    pairs: &mut Vec<Pair<E>>,
    fabric: &mut F,
    beginning: Beginning,
) -> Status
    requires pairs { length registry.now ≤ length pairs.old.items }
    requires settled { (i : ℕ) → i < length registry.now → AreSettled (images_at (images E.view pairs.old.items) i) }
    requires taken { AllBytesTaken (F.view fabric.old).put (F.view fabric.old).taken }
    ensures came { (bench : List PairView) → Came result (over_links (is_resumed beginning)) registry.now
        (held_on (bench_of E.view pairs.old.items)) (S.view schedule.old) (S.view schedule.new)
        (outside (W.view out.old) bench (bench_of E.view pairs.old.items) (F.view fabric.old))
        (outside (W.view out.new) bench (bench_of E.view pairs.new.items) (F.view fabric.new)) }
    ensures onward { AllGoOn (bench_of E.view pairs.old.items) (bench_of E.view pairs.new.items) }
    ensures taken { Consumes (S.view schedule.old).left (S.view schedule.new).left (given (S.view schedule.old) (S.view schedule.new)) }
{
    match beginning {
        Beginning::Resumed => run_linked(alloc, registry, schedule, out, pairs, fabric, beginning),
        Beginning::Blank => match check_blank(pairs, registry.len()) {
            Ok(()) => run_linked(alloc, registry, schedule, out, pairs, fabric, beginning),
            Err(BlankFault::NotBlank(slot)) => Status::NotBlank {
                node: registry.node(slot),
            },
            Err(BlankFault::Disk(slot)) => Status::DiskFault {
                node: registry.node(slot),
            },
            Err(BlankFault::NoMemory) => Status::NoMemory,
        },
    }
}
