//! The call that does all that the program does.
ghost use Rattle.std.specs.{Prelude.{◌≡◌, ◌<◌, ◌≤◌, ◌↔◌, ◌⊎◌, ℕ, List, false, true, length, map, string_bytes}, Io.KnownBytes.Consumes};
ghost use Rattle.spl_acceptor.specs.declared.group.Group.{Group};
ghost use Rattle.spl_audit.specs.Audit.{AuditIsSound, CameOfAudit};
ghost use Rattle.spl_edge.specs.{Devices.{PairView, SinkView, SourceView, bench as bench_of}, Sources.{had, given}};
ghost use Rattle.spl_gen.specs.declared.generate.TheConstants.{MOST_BATCHES};
ghost use Rattle.spl_app.specs.{Folders.{Folder, OneHistory}, Asked.{Untouched, outside_of, runs_circuits}, Headline.{PlanAgrees, CameOfPlan}};
ghost use Rattle.spl_app.specs.{Headline.OwnLinesDecide, Sound.PlanIsSound};
ghost use Rattle.spl_circuit_world.specs.Worlds.{IsOrigin, Origin};
ghost use Rattle.spl_paxos.specs.declared.line.PaxosLine.{PaxosLine};
ghost use Rattle.spl_paxos_run.specs.{Run.paxos_devices as group_devices, Paxos.{CameOfGroup, GroupCanEnd, NoneFailed, RoundsDecide}};
ghost use Rattle.spl_pump.specs.Wires.{AllBytesTaken};
ghost use Rattle.spl_runs.specs.Run.{Plan, held_on};
ghost use Rattle.spl_registry.specs.Nodes.{Entry};
ghost use Rattle.spl_node.specs.Benches.{AllGoOn, AllTell, AreBlank, Images, images_at, AllUnarmed, AreSettled, NoneForgotten, images, AllUnpicked};
ghost use Rattle.spl_cli.specs.{Command.{Asks, IsCommand, is_linked, reads, reads_schedule, uses_files}, Registered.EndsReading};

use crate::agree::{circuits_are_decided, runs_agree};
use crate::generating::run_generated;
use crate::links::links;
use crate::replay::replay;
use crate::{audits_find_no_clash, folders_have_one_history};
use spl_audit::audit_disks;
use spl_cli::{Command, Status, command_of, read_registry, registries_are_small};
use spl_edge::{Bench, Disk, Fabric, Shelf, Sink, Source, StopDisk};
use spl_paxos_run::{paxos, rounds_decide};
use spl_runs::{Beginning, Writing};
use std::alloc::Global;

// Does what a command asks for.
fn run_command<S: Source, W: Sink, D: StopDisk, E: Disk, F: Fabric>(
    alloc: Global,
    command: Command,
    registry: &mut S,
    schedule: &mut S,
    out: &mut W,
    bench: &mut Bench<D>,
    shelf: &mut Shelf<E>,
    fabric: &mut F,
) -> Status
    requires counted { (n seed : ℕ) → command ≡ Command.Gen n seed → (1 ≤ n) × (n ≤ MOST_BATCHES) }
    requires group { (g : Group) → command ≡ Command.Paxos g → (2 ≤ g.members) × (g.members ≤ 8) × (g.faults ≤ 2) }
    requires pairs { length bench.old.pairs.items ≡ 16 }
    requires blank { (i : ℕ) → i < 16 → AreBlank (images_at (images D.view bench.old.pairs.items) i) }
    requires unpicked { AllUnpicked (bench_of D.view bench.old.pairs.items) }
    requires shelf { length shelf.old.pairs.items ≡ 16 }
    requires settled { (i : ℕ) → i < 16 → AreSettled (images_at (images E.view shelf.old.pairs.items) i) }
    requires links { AllBytesTaken (F.view fabric.old).put (F.view fabric.old).taken }
    ensures own_bench { uses_files command ≡ true → bench.new ≡ bench.old }
    ensures own_shelf { uses_files command ≡ false → shelf.new ≡ shelf.old }
    ensures own_fabric { is_linked command ≡ false → fabric.new ≡ fabric.old }
    ensures unread { reads command ≡ false → registry.new ≡ registry.old }
    ensures none_read { reads_schedule command ≡ false → schedule.new ≡ schedule.old }
    ensures nodes_taken { Consumes (S.view registry.old).left (S.view registry.new).left (given (S.view registry.old) (S.view registry.new)) }
    ensures taken { Consumes (S.view schedule.old).left (S.view schedule.new).left (given (S.view schedule.old) (S.view schedule.new)) }
    ensures circuits { runs_circuits command ≡ true → ((reads command ≡ true) × EndsReading result (S.view registry.old) (S.view registry.new)
        × Untouched (W.view out.old) (W.view out.new) schedule.old schedule.new bench.old bench.new
        shelf.old shelf.new fabric.old fabric.new)
        ⊎ CameOfPlan result command (S.view registry.old) (S.view registry.new) (S.view schedule.old) (S.view schedule.new)
        (outside_of W.view D.view E.view F.view out.old bench.old shelf.old fabric.old)
        (outside_of W.view D.view E.view F.view out.new bench.new shelf.new fabric.new) }
    ensures audited { command ≡ Command.Audit → (EndsReading result (S.view registry.old) (S.view registry.new)
        × Untouched (W.view out.old) (W.view out.new) schedule.old schedule.new bench.old bench.new
        shelf.old shelf.new fabric.old fabric.new)
        ⊎ CameOfAudit result (S.view registry.old) (S.view registry.new) (bench_of E.view shelf.old.pairs.items) (bench_of E.view shelf.new.pairs.items)
        (W.view out.old) (W.view out.new) }
    ensures rounds { (g : Group) → command ≡ Command.Paxos g → CameOfGroup result g (S.view schedule.old) (S.view schedule.new)
        (group_devices (W.view out.old) (bench_of D.view bench.old.pairs.items)) (group_devices (W.view out.new) (bench_of D.view bench.new.pairs.items)) }
    ensures disks { NoneForgotten (bench_of D.view bench.old.pairs.items) (bench_of D.view bench.new.pairs.items)
        × ((result ≡ Status.NoMemory → ⊥) → AllUnarmed (bench_of D.view bench.new.pairs.items))
        × AllGoOn (bench_of E.view shelf.old.pairs.items) (bench_of E.view shelf.new.pairs.items) }
{
    if let Command::Gen { batches, seed } = command {
        return run_generated(alloc, batches, seed, out, &mut bench.pairs);
    }
    if let Command::Paxos(group) = command {
        return paxos(alloc, group, schedule, out, &mut bench.pairs);
    }
    match read_registry(alloc, registry) {
        Ok(found) => {
            registries_are_small(&found);
            let disks = &mut bench.pairs;
            let files = &mut shelf.pairs;
            match command {
                Command::Links => links(
                    alloc,
                    &found,
                    schedule,
                    out,
                    files,
                    fabric,
                    Beginning::Blank,
                ),
                Command::Resume => links(
                    alloc,
                    &found,
                    schedule,
                    out,
                    files,
                    fabric,
                    Beginning::Resumed,
                ),
                Command::Audit => audit_disks(alloc, &found, out, files),
                Command::Trace => replay(alloc, &found, schedule, out, disks, Writing::Trace),
                _ => replay(alloc, &found, schedule, out, disks, Writing::Answers),
            }
        }
        Err(status) => status,
    }
}

/// Does what the words ask for: `replay REGISTRY SCHEDULE` reads the registry, runs the schedule line
/// by line over its nodes, and writes each answer with the number of its line. The names are for the
/// caller, who opens them. `trace REGISTRY SCHEDULE` does the same, but writes the lines without calms that
/// make the same run. `gen N SEED` runs the schedule of N batches that is made from the seed, and
/// writes the answers to its last nine lines alone. `links REGISTRY SCHEDULE DIR` runs as `replay` does, but
/// over the disks of the shelf, which have to be blank, and with messages over the fabric; it takes fewer
/// kinds of lines, and settles the circuit that a line names after it. `resume REGISTRY SCHEDULE DIR` does so
/// over disks that a former run left, and begins with what they hold. `audit REGISTRY DIR` compares what the
/// disks of nodes hold, and changes none. `paxos MEMBERS F SCHEDULE` runs a schedule of Paxos
/// Commit over so many members and the acceptors of which F may fail, without a registry. A run can end because memory ran
/// out; then a prefix of what it writes is written. What a run holds in memory is left to the end of the process.
pub fn splinter<S: Source, W: Sink, D: StopDisk, E: Disk, F: Fabric>(
    alloc: Global,
    words: &[String],
    registry: &mut S,
    schedule: &mut S,
    out: &mut W,
    bench: &mut Bench<D>,
    shelf: &mut Shelf<E>,
    fabric: &mut F,
) -> Status
    requires pairs { length bench.old.pairs.items ≡ 16 }
    requires blank { (i : ℕ) → i < 16 → AreBlank (images_at (images D.view bench.old.pairs.items) i) }
    requires unpicked { AllUnpicked (bench_of D.view bench.old.pairs.items) }
    requires shelf { length shelf.old.pairs.items ≡ 16 }
    requires settled { (i : ℕ) → i < 16 → AreSettled (images_at (images E.view shelf.old.pairs.items) i) }
    requires links { AllBytesTaken (F.view fabric.old).put (F.view fabric.old).taken }

    // Usage exactly where the words are no command. Nothing is read or written then, and no disk is called.
    ensures usage { (result ≡ Status.Usage) ↔ (IsCommand (map string_bytes words.now) → ⊥) }
    ensures nothing { result ≡ Status.Usage → (registry.new ≡ registry.old)
        × Untouched (W.view out.old) (W.view out.new) schedule.old schedule.new bench.old bench.new
        shelf.old shelf.new fabric.old fabric.new }

    // A command over files leaves the disks in memory alone, and any other the files; only those over links use the fabric. A
    // generated schedule reads neither source, one of Paxos Commit no registry, and an audit no schedule.
    ensures apart { (m : Command) → Asks (map string_bytes words.now) m
        → (uses_files m ≡ true → bench.new ≡ bench.old) × (uses_files m ≡ false → shelf.new ≡ shelf.old)
        × (is_linked m ≡ false → fabric.new ≡ fabric.old)
        × (reads m ≡ false → registry.new ≡ registry.old) × (reads_schedule m ≡ false → schedule.new ≡ schedule.old) }

    // What was taken of the sources is what they had.
    ensures nodes_taken { Consumes (S.view registry.old).left (S.view registry.new).left (given (S.view registry.old) (S.view registry.new)) }
    ensures taken { Consumes (S.view schedule.old).left (S.view schedule.new).left (given (S.view schedule.old) (S.view schedule.new)) }

    // Of a command that runs circuits: the registry's reading ended the run, and nothing else was done. Or the bytes given spell a
    // plan, and this came of it: the run didn't begin, or it came so far, and what is written, on the disks and on the links is that
    // of the tasks that ran.
    ensures circuits { (m : Command) → Asks (map string_bytes words.now) m → runs_circuits m ≡ true
        → ((reads m ≡ true) × EndsReading result (S.view registry.old) (S.view registry.new)
        × Untouched (W.view out.old) (W.view out.new) schedule.old schedule.new bench.old bench.new
        shelf.old shelf.new fabric.old fabric.new)
        ⊎ CameOfPlan result m (S.view registry.old) (S.view registry.new) (S.view schedule.old) (S.view schedule.new)
        (outside_of W.view D.view E.view F.view out.old bench.old shelf.old fabric.old)
        (outside_of W.view D.view E.view F.view out.new bench.new shelf.new fabric.new) }

    // Where the sources had a run that can go to its end, and nothing outside failed, it doesn't give up by itself.
    ensures complete { (m : Command) → Asks (map string_bytes words.now) m → runs_circuits m ≡ true
        → PlanIsSound m (had (S.view registry.old).left (given (S.view registry.old) (S.view registry.new)))
        (had (S.view schedule.old).left (given (S.view schedule.old) (S.view schedule.new)))
        (S.view registry.old) (S.view registry.new) (S.view schedule.old) (S.view schedule.new)
        (outside_of W.view D.view E.view F.view out.old bench.old shelf.old fabric.old)
        (outside_of W.view D.view E.view F.view out.new bench.new shelf.new fabric.new)
        → (result ≡ Status.Ok) ⊎ (result ≡ Status.NoMemory) }

    // The members of each circuit agree at each moment of a plan, and what is shown of it is of prefixes of its lists, whatever is
    // written. It is about the output since what is written are these tasks' answers, by those very definitions (`answer_to`). A
    // run that goes on from what a former one left agrees with that one, and shows what they have as one.
    ensures agreed { (m : Command) (p : Plan) → PlanAgrees m p }

    // Any number of runs over the files of one folder, whatever each ended with, and also where a crash followed, are one history:
    // the files stand for the cells that it leaves, and the members of each circuit agree at each moment of it.
    ensures history { (es : List Entry) (is : List Images) (folder : Folder es is) → OneHistory folder }

    // A circuit's own lines alone decide what is answered about it, and what its nodes keep of it, from wherever a run begins.
    ensures determined { (o : Origin) → IsOrigin o → OwnLinesDecide o }

    // Of an audit: the registry's reading ended it, and nothing else was done. Or its bytes spell nodes, and what is written is of
    // what these keep, for which their disks stand. Over blank disks or journals it doesn't give up by itself where nothing failed,
    // and over the files of one folder it finds no clash.
    ensures audited { Asks (map string_bytes words.now) Command.Audit
        → (EndsReading result (S.view registry.old) (S.view registry.new)
        × Untouched (W.view out.old) (W.view out.new) schedule.old schedule.new bench.old bench.new
        shelf.old shelf.new fabric.old fabric.new)
        ⊎ CameOfAudit result (S.view registry.old) (S.view registry.new) (bench_of E.view shelf.old.pairs.items) (bench_of E.view shelf.new.pairs.items)
        (W.view out.old) (W.view out.new) }
    ensures audit_complete { Asks (map string_bytes words.now) Command.Audit
        → AuditIsSound (had (S.view registry.old).left (given (S.view registry.old) (S.view registry.new)))
        (S.view registry.old) (S.view registry.new) (bench_of E.view shelf.old.pairs.items) (bench_of E.view shelf.new.pairs.items)
        (W.view out.old) (W.view out.new)
        → ((result ≡ Status.Ok) ⊎ (result ≡ Status.Disagreed)) ⊎ (result ≡ Status.NoMemory) }
    ensures unclashed { (s : Status) (r q : SourceView) (ps qs : List PairView) (w x : SinkView) (came : CameOfAudit s r q ps qs w x)
        → AllTell (length came.nodes) (held_on ps) → Folder came.nodes (held_on ps) → s ≡ Status.Disagreed → ⊥ }

    // Of a schedule of Paxos Commit: what is written and on the disks is that of the lines that ran, and it doesn't give up by
    // itself. The members decide no round differently, whatever lines ran, and two turns of a leader settle one.
    ensures rounds { (g : Group) → (Asks (map string_bytes words.now) (Command.Paxos g)
        → CameOfGroup result g (S.view schedule.old) (S.view schedule.new)
        (group_devices (W.view out.old) (bench_of D.view bench.old.pairs.items)) (group_devices (W.view out.new) (bench_of D.view bench.new.pairs.items)))
        × ((ls : List (ℕ × PaxosLine)) → RoundsDecide g ls) }
    ensures rounds_complete { (g : Group) → Asks (map string_bytes words.now) (Command.Paxos g)
        → GroupCanEnd g (had (S.view schedule.old).left (given (S.view schedule.old) (S.view schedule.new)))
        → NoneFailed g (S.view schedule.old) (S.view schedule.new)
        (group_devices (W.view out.old) (bench_of D.view bench.old.pairs.items)) (group_devices (W.view out.new) (bench_of D.view bench.new.pairs.items))
        → (result ≡ Status.Ok) ⊎ (result ≡ Status.NoMemory) }

    // No fault of a disk is forgotten. Unless memory ran out no disk of the bench is armed, and none of the shelf ever is.
    ensures disks { NoneForgotten (bench_of D.view bench.old.pairs.items) (bench_of D.view bench.new.pairs.items)
        × ((result ≡ Status.NoMemory → ⊥) → AllUnarmed (bench_of D.view bench.new.pairs.items))
        × AllGoOn (bench_of E.view shelf.old.pairs.items) (bench_of E.view shelf.new.pairs.items) }
{
    runs_agree();
    circuits_are_decided();
    folders_have_one_history();
    audits_find_no_clash();
    rounds_decide();
    match command_of(words) {
        Some(command) => run_command(
            alloc, command, registry, schedule, out, bench, shelf, fabric,
        ),
        None => Status::Usage,
    }
}
