//! A turn of a calm: the step that it is, and how it runs.
ghost use Rattle.std.specs.{Prelude.{◌≡◌, ◌+◌, ◌<◌, true, false, IfErr, IfOk, OnOk, IsTrue, length}, List.list_all};
ghost use Rattle.spl_base.specs.Ids.{is_node_id};
ghost use Rattle.spl_circuit.specs.Nodes.{has_node};
ghost use Rattle.spl_sched.specs.{Grammar.{is_step, step_nodes}, declared.line.Step.Step as StepValue};
ghost use Rattle.spl_sched.specs.declared.line.Line.TheVariants as line;
ghost use Rattle.spl_world.specs.{Cursor.IsStep, Disks.is_of_journal, Turns.{IsThere, TurnAfter, is_numbered}, Views.{IsNodeAt, world_node_ids}};
ghost use Rattle.spl_world.specs.Calls.{CountsNone, CountsOne, FailsInEvent, IsHaltedBy, IsReadyOver, Leaves, MayGo, RunsAndCarries, StepsLine, around};
ghost use Rattle.spl_node.specs.Benches.{images};

use crate::calm::Turn;
use crate::carrying::Sending;
use crate::fault::WorldFault;
use crate::world::World;
use spl_base::{CircuitId, NodeId};
use spl_circuit_world::MOST_EVENTS;
use spl_edge::{Disk, Fabric, Pair};
use spl_pump::Carry;
use spl_sched::Step;
use spl_wire::{Answer, Event};
use std::alloc::{AllocError, Global};

impl World {
    // The id of the node of this index.
    #[inline(always)]
    fn id_at(&self, slot: usize) -> NodeId
        requires below { slot < length self.now.slots.items }
        ensures at { IsNodeAt self.now slot result }
        ensures known { has_node (world_node_ids self.now) result ≡ true }
        ensures spelled { IsTrue (is_node_id result) }
    {
        let id = *self.slot_at(slot).id();
        let _ = id.bytes();
        id
    }

    /// Whether a turn is a step that a line can name: a delivery isn't where the number of its message is above those of a line.
    #[inline(always)]
    pub fn has_line(&self, circuit: &CircuitId, turn: &Turn) -> bool
        requires there { IsThere self.now turn.now }
        ensures value { result ≡ is_numbered turn.now }
        ensures fits { (s : StepValue) → result ≡ true → IsStep (world_node_ids self.now) circuit.now turn.now s → is_step s ≡ true }
    {
        let _ = circuit.bytes();
        match *turn {
            Turn::Tick { slot, .. } => {
                let _ = self.id_at(slot);
                true
            }
            Turn::Deliver { from, to, index } => {
                let _ = self.id_at(from);
                let _ = self.id_at(to);
                index < u32::MAX as usize
            }
        }
    }

    /// The step that a turn is. The only error is that memory ran out.
    #[inline(always)]
    pub fn step_of(&self, circuit: &CircuitId, turn: &Turn) -> Result<Step, AllocError>
        requires there { IsThere self.now turn.now }
        ensures step { IfOk result (IsStep (world_node_ids self.now) circuit.now turn.now) }
        ensures known { IfOk result (λ s. list_all (has_node (world_node_ids self.now)) (step_nodes s) ≡ true) }
        ensures fits { IfOk result (λ s. is_step s ≡ true) }
    {
        let _ = circuit.bytes();
        match *turn {
            Turn::Tick { slot, .. } => Ok(Step::At {
                node: self.id_at(slot),
                circuit: *circuit,
                event: Event::Tick,
            }),
            Turn::Deliver { from, to, index } => {
                // No memory has so many messages.
                if index >= u32::MAX as usize {
                    return Err(AllocError);
                }
                Ok(Step::Deliver {
                    from: self.id_at(from),
                    to: self.id_at(to),
                    circuit: *circuit,
                    number: index as u32 + 1,
                })
            }
        }
    }

    // Runs the step that a turn is.
    #[inline(always)]
    fn run_turn<D: Disk, C: Carry, F: Fabric>(
        &mut self,
        alloc: Global,
        pairs: &mut Vec<Pair<D>>,
        carrier: &mut C,
        fabric: &mut F,
        circuit: CircuitId,
        turn: &Turn,
    ) -> Result<Answer, WorldFault>
        requires there { IsThere self.old turn.now }
        requires ready { IsReadyOver self.old (around D.view C.view F.view pairs.old.items carrier.old fabric.old) }
        ensures leaves { Leaves result self.old self.new (around D.view C.view F.view pairs.old.items carrier.old fabric.old)
            (around D.view C.view F.view pairs.new.items carrier.new fabric.new) }
        ensures counts { CountsNone self.old self.new }
        ensures runs { (s : StepValue) → IsStep (world_node_ids self.old) circuit turn.now s
            → RunsAndCarries s result self.old self.new (around D.view C.view F.view pairs.old.items carrier.old fabric.old)
            (around D.view C.view F.view pairs.new.items carrier.new fabric.new) }
        ensures faults { FailsInEvent result }
    {
        match *turn {
            Turn::Tick { slot, .. } => self.event_at(alloc, pairs, slot, circuit, &Event::Tick),
            Turn::Deliver { from, to, index } => {
                let sending = Sending {
                    from,
                    to,
                    circuit,
                    index,
                };
                self.deliver_at(alloc, pairs, carrier, fabric, &sending)
            }
        }
    }

    // Counts a turn and runs it, whether the world is halted or not.
    #[inline(always)]
    fn count_turn<D: Disk, C: Carry, F: Fabric>(
        &mut self,
        alloc: Global,
        pairs: &mut Vec<Pair<D>>,
        carrier: &mut C,
        fabric: &mut F,
        circuit: CircuitId,
        turn: &Turn,
    ) -> Result<Answer, WorldFault>
        requires there { IsThere self.old turn.now }
        requires ready { IsReadyOver self.old (around D.view C.view F.view pairs.old.items carrier.old fabric.old) }
        ensures leaves { Leaves result self.old self.new (around D.view C.view F.view pairs.old.items carrier.old fabric.old)
            (around D.view C.view F.view pairs.new.items carrier.new fabric.new) }
        ensures counted { OnOk result (self.new.events ≡ self.old.events + 1) }
        ensures runs { (a : TurnAfter self.old circuit turn.now (images D.view pairs.old.items))
            → StepsLine a.o a.others a.before (line.Step a.step) result self.old self.new
            (around D.view C.view F.view pairs.old.items carrier.old fabric.old)
            (around D.view C.view F.view pairs.new.items carrier.new fabric.new) }
        ensures sound { IfErr result (λ e. is_of_journal e ≡ false) }
    {
        self.events.add(1)?;
        self.run_turn(alloc, pairs, carrier, fabric, circuit, turn)
    }

    /// Runs a turn of a calm of this circuit, as `step` runs the line of the step that it is. `TooMany` comes exactly where the
    /// events of the lines that ran so far and of this one are more than `MOST_EVENTS`, and is about them; `Disk` only where a disk
    /// of that node failed more often; `NotAJournal` never; `Link` only where the fabric failed more often; and `Lied` only where
    /// other bytes were taken from it than were put. Any other error is that memory ran out. After an error the world is halted.
    pub fn turn<D: Disk, C: Carry, F: Fabric>(
        &mut self,
        alloc: Global,
        pairs: &mut Vec<Pair<D>>,
        carrier: &mut C,
        fabric: &mut F,
        circuit: &CircuitId,
        turn: &Turn,
    ) -> Result<Answer, WorldFault>
        requires go { MayGo self.old (around D.view C.view F.view pairs.old.items carrier.old fabric.old) }
        requires there { IsThere self.old turn.now }
        ensures leaves { Leaves result self.old self.new (around D.view C.view F.view pairs.old.items carrier.old fabric.old)
            (around D.view C.view F.view pairs.new.items carrier.new fabric.new) }
        ensures counts { CountsOne result self.old self.new }
        ensures halts { IsHaltedBy result self.new }
        ensures runs { (a : TurnAfter self.old circuit.now turn.now (images D.view pairs.old.items))
            → StepsLine a.o a.others a.before (line.Step a.step) result self.old self.new
            (around D.view C.view F.view pairs.old.items carrier.old fabric.old)
            (around D.view C.view F.view pairs.new.items carrier.new fabric.new) }
        ensures sound { IfErr result (λ e. is_of_journal e ≡ false) }
    {
        let answered = self.count_turn(alloc, pairs, carrier, fabric, *circuit, turn);
        self.events.are_within();
        let failed = answered.is_err();
        self.halted = failed;
        answered
    }
}
