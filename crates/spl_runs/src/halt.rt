//! How a node goes down at a line that says so.
ghost use Rattle.std.specs.Prelude.{◌≡◌, ℕ, Bool, Option, List, true, false, IsSome, IfOk, IfErr, OnOk};
ghost use Rattle.spl_answer.specs.Texts.{answer_spelling};
ghost use Rattle.spl_edge.specs.Devices.{SinkView, bench, image_now};
ghost use Rattle.spl_lines.specs.Tasks.{Task, IsRunnable};
ghost use Rattle.spl_runs.specs.{Faults.{FailsAs, HaveCauses}, Moments.AreRun, Run.{Plan, is_run, Devices, devices}, Steps.task, Stops.{RunsOn, StopsInTask}};
ghost use Rattle.spl_world.specs.{Held.stops, Links.LinkView, Views.{IsPlace, Sits, world_node_ids, is_world_halted, places_of, seen}};

use spl_edge::{Disk, Pair, StopDisk};
use spl_lines::Said;
use spl_sched::Line;
use spl_wire::Answer;
use spl_world::{World, WorldFault};
use std::alloc::Global;

/// How a node goes down at a line that says so.
pub trait Halt<D: Disk> {
    /// Over links a stop forgets and calls no disk, and no other line stops a node.
    ghost linked: { Bool };

    /// Whether it is so.
    fn is_linked() -> bool
        ensures { result ≡ linked };

    /// Runs a line that stops a node, and answers it. `TooMany` comes exactly where the lines pass a limit with it, and any
    /// other error is running out of memory. After an error the world is halted.
    fn halt(
        alloc: Global,
        world: &mut World,
        pairs: &mut Vec<Pair<D>>,
        line: &Line,
    ) -> Result<Answer, WorldFault>
        requires running { is_world_halted world.old ≡ false }
        requires known { IsRunnable (world_node_ids world.old) (Said.Line line.now) }
        requires stops { stops line.now ≡ true }
        requires taken { linked ≡ true → is_run line.now ≡ true }
        requires sits { Sits (seen D.view world.old pairs.old.items) }
        ensures ids { world_node_ids world.new ≡ world_node_ids world.old }
        ensures places { places_of world.new ≡ places_of world.old }
        ensures running { OnOk result (is_world_halted world.new ≡ false) }
        ensures sits { OnOk result (Sits (seen D.view world.new pairs.new.items)) }
        // After tasks that ran over disks that report.
        ensures ran { (p : Plan) (ts : List Task) (number : Option ℕ) (x : Devices) (sink : SinkView) (links : LinkView)
            → AreRun linked p ts world.old x (devices sink (bench D.view pairs.old.items) links)
            → IfOk result (λ a. RunsOn linked p ts (task number (Said.Line line.now)) world.new x
            (devices sink (bench D.view pairs.new.items) links) (answer_spelling a)) }
        ensures ended { (p : Plan) (ts : List Task) (number : Option ℕ) (x : Devices) (sink : SinkView) (links : LinkView)
            → AreRun linked p ts world.old x (devices sink (bench D.view pairs.old.items) links)
            → IfErr result (StopsInTask linked p ts (task number (Said.Line line.now)) x
            (devices sink (bench D.view pairs.new.items) links)) }
        // Whatever the disks report.
        ensures causes { (links : LinkView) → HaveCauses linked (FailsAs result) (IsPlace (places_of world.old)) (bench D.view pairs.old.items)
            (bench D.view pairs.new.items) links links };

    /// Disks that a stop picks from say what they hold.
    ghost tells: { linked ≡ false → (d : D) → IsSome (image_now (D.view d)) };
}

/// The disks of the node are picked from.
pub struct Picking;

impl<D: StopDisk> Halt<D> for Picking {
    ghost linked = { false };

    ghost tells = { λ _ d. D.tells d };

    fn is_linked() -> bool {
        false
    }

    fn halt(
        alloc: Global,
        world: &mut World,
        pairs: &mut Vec<Pair<D>>,
        line: &Line,
    ) -> Result<Answer, WorldFault> {
        world.halt(alloc, pairs, line)
    }
}

/// The node forgets its open rounds, and no disk is called.
pub struct Forgetting;

impl<D: Disk> Halt<D> for Forgetting {
    ghost linked = { true };

    ghost tells = { λ linked d. absurd cc };

    fn is_linked() -> bool {
        true
    }

    fn halt(
        _alloc: Global,
        world: &mut World,
        _pairs: &mut Vec<Pair<D>>,
        line: &Line,
    ) -> Result<Answer, WorldFault> {
        match line {
            Line::Stop(node) => world.stop(node),
            _ => unreachable!(),
        }
    }
}
