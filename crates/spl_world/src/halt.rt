//! A line that stops a node.
ghost use Rattle.std.specs.Prelude.{◌≡◌, ℕ, Some, false, OnOk, IsErrOf};
ghost use Rattle.spl_edge.specs.Devices.{bench};
ghost use Rattle.spl_node.specs.Benches.{AllUnarmed, images};
ghost use Rattle.spl_world.specs.{Halts.bit_answer, Held.stops, Views.{Sits, world_node_ids, is_world_halted, seen}, Calls.{CanHalt, ChangesOne, CountsNone}};
ghost use Rattle.spl_world.specs.Calls.{FailsInHalt, Halting, HaltsNode, IsHaltedBy, LeavesHalted, LineHalts, Picking, disks_view};

use crate::fault::WorldFault;
use crate::world::World;
use spl_circuit_world::{MOST_EVENTS, MOST_STOPS};
use spl_edge::{Pair, StopDisk};
use spl_node::Stopping;
use spl_sched::Line;
use spl_wire::{Answer, Bit, Refusal};
use std::alloc::{AllocError, Global};

// What a cut is answered.
fn cut_answer(bit: Option<Bit>) -> Answer
    ensures { result ≡ bit_answer Answer.Cut bit }
{
    match bit {
        Some(bit) => Answer::Cut(bit),
        None => Answer::Refused(Refusal::Down),
    }
}

// What a call that fails is answered.
fn fail_answer(bit: Option<Bit>) -> Answer
    ensures { result ≡ bit_answer Answer.Fault bit }
{
    match bit {
        Some(bit) => Answer::Fault(bit),
        None => Answer::Refused(Refusal::Down),
    }
}

impl World {
    /// Runs a line that stops a node, and answers it: a stop, or a step in which its node goes down.
    /// `before` are the lines that ran so far. `TooMany` comes exactly where the events of these
    /// lines and of this one are more than `MOST_EVENTS`, or, where they aren't, their stops more
    /// than `MOST_STOPS`. Any other error is that memory ran out. After an error the world is halted.
    pub fn halt<D: StopDisk>(
        &mut self,
        alloc: Global,
        pairs: &mut Vec<Pair<D>>,
        line: &Line,
    ) -> Result<Answer, WorldFault>
        requires running { is_world_halted self.old ≡ false }
        requires line { CanHalt (world_node_ids self.old) line.now }
        requires sits { Sits (seen D.view self.old pairs.old.items) }
        ensures leaves { LeavesHalted result self.old self.new (disks_view D.view pairs.old.items) (disks_view D.view pairs.new.items) }
        ensures halts { IsHaltedBy result self.new }
        ensures runs { Halting line.now result self.old self.new (images D.view pairs.old.items) (images D.view pairs.new.items) }
        ensures picks { Picking line.now result self.old self.new (disks_view D.view pairs.old.items) (disks_view D.view pairs.new.items) }
        // Whatever the result.
        ensures one { ChangesOne line.now self.old (bench D.view pairs.old.items) (bench D.view pairs.new.items) }
        ensures kept { (which : ℕ) → IsErrOf result (WorldFault.TooMany which) → pairs.new ≡ pairs.old }
        ensures unarmed { AllUnarmed (bench D.view pairs.old.items) → OnOk result (AllUnarmed (bench D.view pairs.new.items)) }
        ensures faults { FailsInHalt result }
    {
        let answered = self.halt_line(alloc, pairs, line);
        self.events.are_within();
        self.stops.are_within();
        let failed = answered.is_err();
        self.halted = failed;
        answered
    }

    // Runs a line, whether the world is halted or not.
    fn halt_line<D: StopDisk>(
        &mut self,
        alloc: Global,
        pairs: &mut Vec<Pair<D>>,
        line: &Line,
    ) -> Result<Answer, WorldFault>
        requires line { CanHalt (world_node_ids self.old) line.now }
        requires sits { Sits (seen D.view self.old pairs.old.items) }
        ensures halts { LineHalts line.now result self.old self.new (disks_view D.view pairs.old.items) (disks_view D.view pairs.new.items) }
        ensures kept { (which : ℕ) → IsErrOf result (WorldFault.TooMany which) → pairs.new ≡ pairs.old }
    {
        self.events.add(1)?;
        self.stops.add()?;
        Ok(self.halt_node(alloc, pairs, line)?)
    }

    // The node of a line stops.
    fn halt_node<D: StopDisk>(
        &mut self,
        alloc: Global,
        pairs: &mut Vec<Pair<D>>,
        line: &Line,
    ) -> Result<Answer, AllocError>
        requires line { CanHalt (world_node_ids self.old) line.now }
        requires sits { Sits (seen D.view self.old pairs.old.items) }
        ensures halts { HaltsNode line.now result self.old self.new (disks_view D.view pairs.old.items) (disks_view D.view pairs.new.items) }
        ensures counts { CountsNone self.old self.new }
    {
        match line {
            Line::Stop(node) => {
                let slot = self.index_of(node);
                self.stop_at(alloc, pairs, slot)?;
                Ok(Answer::Power { up: false })
            }
            Line::Cut { calls, fill, step } => {
                let stopping = Stopping::Cut {
                    calls: *calls,
                    fill: *fill,
                };
                let bit = self.halt_step(alloc, pairs, step, stopping)?;
                Ok(cut_answer(bit))
            }
            Line::Fail { call, step } => {
                let stopping = Stopping::Fail { call: *call };
                let bit = self.halt_step(alloc, pairs, step, stopping)?;
                Ok(fail_answer(bit))
            }
            _ => unreachable!(),
        }
    }
}
