//! A line of a schedule in the world.
ghost use Rattle.std.specs.Prelude.{◌≡◌, ◌+◌, ℕ, ◌<◌, List, true, OnOk, IsErrOf};
ghost use Rattle.spl_edge.specs.Devices.{PairView, bench};
ghost use Rattle.spl_circuit_world.specs.{Projection.Ran, Worlds.Origin};
ghost use Rattle.spl_world.specs.{Held.{starts, stops, FailedSince}, Picks.AllHeld, Views.world_node_ids, Calls.{CanStep, CountsNone, CountsOne}};
ghost use Rattle.spl_world.specs.Calls.{FailsInEvent, IsHaltedBy, IsReadyOver, IsStepAt, Keeping, Leaves, MayGo, RunsOrFails, RunsAndCarries, around};
ghost use Rattle.spl_world.specs.Calls.{disks_view};

use crate::carrying::Sending;
use crate::checking::checked;
use crate::fault::WorldFault;
use crate::world::World;
use spl_circuit_world::MOST_EVENTS;
use spl_edge::{Disk, Fabric, Pair};
use spl_pump::Carry;
use spl_sched::{Line, Step};
use spl_wire::Answer;
use std::alloc::Global;

impl World {
    // Runs a step.
    fn run<D: Disk, C: Carry, F: Fabric>(
        &mut self,
        alloc: Global,
        pairs: &mut Vec<Pair<D>>,
        carrier: &mut C,
        fabric: &mut F,
        step: &Step,
    ) -> Result<Answer, WorldFault>
        requires step { IsStepAt (world_node_ids self.old) step.now }
        requires ready { IsReadyOver self.old (around D.view C.view F.view pairs.old.items carrier.old fabric.old) }
        ensures leaves { Leaves result self.old self.new (around D.view C.view F.view pairs.old.items carrier.old fabric.old)
            (around D.view C.view F.view pairs.new.items carrier.new fabric.new) }
        ensures counts { CountsNone self.old self.new }
        ensures runs { RunsAndCarries step.now result self.old self.new
            (around D.view C.view F.view pairs.old.items carrier.old fabric.old)
            (around D.view C.view F.view pairs.new.items carrier.new fabric.new) }
        ensures faults { FailsInEvent result }
    {
        match step {
            Step::At {
                node,
                circuit,
                event,
            } => {
                let slot = self.index_of(node);
                self.event_at(alloc, pairs, slot, *circuit, event)
            }
            Step::Deliver {
                from,
                to,
                circuit,
                number,
            } => {
                let sender = self.index_of(from);
                let recipient = self.index_of(to);
                let sending = Sending {
                    from: sender,
                    to: recipient,
                    circuit: *circuit,
                    index: (*number - 1) as usize,
                };
                self.deliver_at(alloc, pairs, carrier, fabric, &sending)
            }
        }
    }

    /// Runs a line that stops no node and is no calm, and answers it. `before` are the lines that ran so far. `TooMany` comes exactly
    /// where the events of these lines and of this one are more than `MOST_EVENTS`, and is about
    /// them; `Disk` only where a disk of that node failed more often; `NotAJournal` only where the
    /// line starts that node, and never where its disks say what they hold; `Link` only where the
    /// fabric failed more often; and `Lied` only where other bytes were taken from it than were put.
    /// Any other error is that memory ran out. After an error the world is halted.
    ///
    /// Each message that is delivered goes through the carrier, and nothing else does.
    pub fn step<D: Disk, C: Carry, F: Fabric>(
        &mut self,
        alloc: Global,
        pairs: &mut Vec<Pair<D>>,
        carrier: &mut C,
        fabric: &mut F,
        line: &Line,
    ) -> Result<Answer, WorldFault>
        requires go { MayGo self.old (around D.view C.view F.view pairs.old.items carrier.old fabric.old) }
        requires line { CanStep (world_node_ids self.old) line.now }
        ensures runs { RunsOrFails line.now result self.old self.new (around D.view C.view F.view pairs.old.items carrier.old fabric.old)
            (around D.view C.view F.view pairs.new.items carrier.new fabric.new) }
        ensures counts { CountsOne result self.old self.new }
        ensures halts { IsHaltedBy result self.new }
        ensures keeps { Keeping line.now result self.old self.new (disks_view D.view pairs.old.items) (disks_view D.view pairs.new.items) }
        ensures failed { (start : List PairView) (o : Origin) (before : List Ran) (slot : ℕ) → IsErrOf result (WorldFault.Disk slot)
            → AllHeld o start before self.old (bench D.view pairs.old.items) → FailedSince slot start (bench D.view pairs.new.items) }
    {
        let answered = self.run_line(alloc, pairs, carrier, fabric, line);
        self.events.are_within();
        let failed = answered.is_err();
        self.halted = failed;
        answered
    }

    // Runs a line, whether the world is halted or not.
    fn run_line<D: Disk, C: Carry, F: Fabric>(
        &mut self,
        alloc: Global,
        pairs: &mut Vec<Pair<D>>,
        carrier: &mut C,
        fabric: &mut F,
        line: &Line,
    ) -> Result<Answer, WorldFault>
        requires line { CanStep (world_node_ids self.old) line.now }
        requires ready { IsReadyOver self.old (around D.view C.view F.view pairs.old.items carrier.old fabric.old) }
        ensures runs { RunsOrFails line.now result self.old self.new (around D.view C.view F.view pairs.old.items carrier.old fabric.old)
            (around D.view C.view F.view pairs.new.items carrier.new fabric.new) }
        ensures stops { self.new.stops ≡ self.old.stops }
        ensures counted { OnOk result (self.new.events ≡ self.old.events + 1) }
    {
        self.events.add(1)?;
        match line {
            Line::Step(step) => self.run(alloc, pairs, carrier, fabric, step),
            Line::Start(node) => {
                let slot = self.index_of(node);
                self.start_at(alloc, pairs, slot)?;
                Ok(Answer::Power { up: true })
            }
            Line::Roll(node) => {
                let slot = self.index_of(node);
                Ok(self.roll_at(alloc, slot)?)
            }
            Line::Check(check) => Ok(checked(alloc, check.get())?),
            _ => unreachable!(),
        }
    }
}
