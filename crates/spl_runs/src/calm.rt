//! Runs a calm, step by step.
ghost use Rattle.std.specs.{Prelude.{◌≡◌, ◌+◌, ◌≤◌, ◌++◌, ◌∷◌, [], List, IsTrue, IfOk, OnOk, length, true, false}, Result.MatchResult};
ghost use Rattle.spl_circuit_world.specs.{Whole.whole_world, declared.TheConstants.MOST_EVENTS};
ghost use Rattle.spl_runs.specs.{Calms.{CalmAfter, FailedAfter, IsThrough, IsUnderWay, NodesGoOn, Past, RanAfter, calm_line}, Steps.KeepsRest};
ghost use Rattle.spl_sched.specs.{Grammar.{is_line, is_step}, declared.line.{Line.Line as LineValue, Step.Step as StepValue}};
ghost use Rattle.spl_trace.specs.{Traced.calm_lines, Tracers.HasHeard};
ghost use Rattle.spl_world.specs.{Calls.around, Calms.IsSquare, Cursor.{IsStep, IsTurn}, Turns.IsThere, Links.{AreLinksReady, Places, link_view}, Views.Sits};
ghost use Rattle.spl_world.specs.Views.{StandsAfterLines, world_node_ids, is_world_halted, places_of, seen};
ghost use Rattle.spl_node.specs.Benches.{images};

use crate::run::Run;
use spl_base::CircuitId;
use spl_edge::{Disk, Fabric, Pair};
use spl_pump::Carry;
use spl_sched::Line;
use spl_trace::Tracer;
use spl_wire::Answer;
use spl_world::{Calm, Turn, World, WorldFault};
use std::alloc::{AllocError, Global};

// Runs a turn. A tick that has nothing to do is counted alone.
#[inline(always)]
fn run_turn<D: Disk, C: Carry, F: Fabric>(
    alloc: Global,
    world: &mut World,
    pairs: &mut Vec<Pair<D>>,
    carrier: &mut C,
    fabric: &mut F,
    circuit: &CircuitId,
    turn: &Turn,
) -> Result<(), WorldFault>
    requires running { is_world_halted world.old ≡ false }
    requires there { IsTurn world.old circuit.now turn.now }
    requires sits { Sits (seen D.view world.old pairs.old.items) }
    requires ready { AreLinksReady (places_of world.old) (link_view (C.view carrier.old) (F.view fabric.old)) }
    ensures on { NodesGoOn result world.old world.new (around D.view C.view F.view pairs.old.items carrier.old fabric.old)
        (around D.view C.view F.view pairs.new.items carrier.new fabric.new) }
    ensures counted { OnOk result (world.new.events ≡ world.old.events + 1) }
    ensures within { OnOk result (world.new.events ≤ MOST_EVENTS) }
    ensures comes { (t : Past) (s : StepValue) → IsStep (world_node_ids world.old) circuit.now turn.now s → is_step s ≡ true
        → Places t.place (world_node_ids world.old) (places_of world.old)
        → StandsAfterLines t.o t.others t.before world.old (images D.view pairs.old.items)
        → MatchResult result (λ u. RanAfter t (LineValue.Step s) world.new (images D.view pairs.new.items)
        (link_view (C.view carrier.old) (F.view fabric.old)) (link_view (C.view carrier.new) (F.view fabric.new)))
        (λ e. FailedAfter t (LineValue.Step s) e (world_node_ids world.old) (places_of world.old) (images D.view pairs.new.items)
        (link_view (C.view carrier.old) (F.view fabric.old)) (link_view (C.view carrier.new) (F.view fabric.new))) }
{
    if turn.is_idle() {
        return world.count_ticks(1);
    }
    world.turn(alloc, pairs, carrier, fabric, circuit, turn)?;
    Ok(())
}

// Writes the step that a turn is, where the tracer is on.
#[inline(always)]
fn trace(
    alloc: Global,
    world: &World,
    tracer: &mut Tracer,
    circuit: &CircuitId,
    turn: &Turn,
) -> Result<(), AllocError>
    requires there { IsThere world.now turn.now }
    ensures on { tracer.new.on ≡ tracer.old.on }
    ensures heard { (s : StepValue) (es : List LineValue) → IsStep (world_node_ids world.now) circuit.now turn.now s → HasHeard tracer.old es
        → OnOk result (HasHeard tracer.new (es ++ LineValue.Step s ∷ [])) }
{
    if !tracer.is_on() {
        return Ok(());
    }
    let step = world.step_of(circuit, turn)?;
    tracer.line(alloc, &Line::Step(step))
}

impl Run {
    // Runs what is left of a calm, turn by turn, and writes each where the tracer is on.
    fn turns<D: Disk, C: Carry, F: Fabric>(
        &mut self,
        alloc: Global,
        pairs: &mut Vec<Pair<D>>,
        carrier: &mut C,
        fabric: &mut F,
        circuit: &CircuitId,
        calm: &mut Calm,
    ) -> Result<(), WorldFault>
        requires running { is_world_halted self.old.world ≡ false }
        requires about { calm.old.circuit ≡ circuit.now }
        requires square { IsSquare (length self.old.world.slots.items) calm.old.rows.items }
        requires sits { Sits (seen D.view self.old.world pairs.old.items) }
        requires ready { AreLinksReady (places_of self.old.world) (link_view (C.view carrier.old) (F.view fabric.old)) }
        ensures on { NodesGoOn result self.old.world self.new.world (around D.view C.view F.view pairs.old.items carrier.old fabric.old)
            (around D.view C.view F.view pairs.new.items carrier.new fabric.new) }
        ensures rest { KeepsRest self.old self.new }
        ensures whole { calm.new.whole ≡ calm.old.whole }
        ensures comes { (d : CalmAfter) → d.circuit ≡ circuit.now → IsTrue (is_line (calm_line d))
            → Places d.past.place (world_node_ids self.old.world) (places_of self.old.world)
            → IsUnderWay d calm.old self.old.world (images D.view pairs.old.items) (link_view (C.view carrier.old) (F.view fabric.old))
            (link_view (C.view carrier.old) (F.view fabric.old)) self.old.tracer
            → MatchResult result (λ u. IsThrough d calm.new self.new.world (images D.view pairs.new.items)
            (link_view (C.view carrier.old) (F.view fabric.old)) (link_view (C.view carrier.new) (F.view fabric.new)) self.new.tracer)
            (λ e. FailedAfter d.past (calm_line d) e (world_node_ids self.old.world) (places_of self.old.world) (images D.view pairs.new.items)
            (link_view (C.view carrier.old) (F.view fabric.old)) (link_view (C.view carrier.new) (F.view fabric.new))) }
    {
        'turns: loop {
            let Some(turn) = calm.next(&self.world) else {
                return Ok(());
            };
            // No memory has so many messages.
            if !self.world.has_line(circuit, &turn) {
                return Err(WorldFault::NoMemory);
            }
            run_turn(
                alloc,
                &mut self.world,
                pairs,
                carrier,
                fabric,
                circuit,
                &turn,
            )?;
            trace(alloc, &self.world, &mut self.tracer, circuit, &turn)?;
        }
    }

    /// Runs a calm, and writes its ticks and deliveries where the tracer is on.
    pub(crate) fn run_calm<D: Disk, C: Carry, F: Fabric>(
        &mut self,
        alloc: Global,
        pairs: &mut Vec<Pair<D>>,
        carrier: &mut C,
        fabric: &mut F,
        circuit: CircuitId,
        passes: u8,
    ) -> Result<Answer, WorldFault>
        requires running { is_world_halted self.old.world ≡ false }
        requires fits { IsTrue (is_line (LineValue.Calm circuit passes)) }
        requires cleared { self.old.tracer.text ≡ [] }
        requires sits { Sits (seen D.view self.old.world pairs.old.items) }
        requires ready { AreLinksReady (places_of self.old.world) (link_view (C.view carrier.old) (F.view fabric.old)) }
        ensures on { NodesGoOn result self.old.world self.new.world (around D.view C.view F.view pairs.old.items carrier.old fabric.old)
            (around D.view C.view F.view pairs.new.items carrier.new fabric.new) }
        ensures rest { KeepsRest self.old self.new }
        ensures within { OnOk result (self.new.world.events ≤ MOST_EVENTS) }
        ensures answer { IfOk result (λ a. a ≡ Answer.Calm passes) }
        ensures comes { (t : Past) → Places t.place (world_node_ids self.old.world) (places_of self.old.world)
            → StandsAfterLines t.o t.others t.before self.old.world (images D.view pairs.old.items)
            → MatchResult result (λ a. RanAfter t (LineValue.Calm circuit passes) self.new.world (images D.view pairs.new.items)
            (link_view (C.view carrier.old) (F.view fabric.old)) (link_view (C.view carrier.new) (F.view fabric.new)))
            (λ e. FailedAfter t (LineValue.Calm circuit passes) e (world_node_ids self.old.world) (places_of self.old.world) (images D.view pairs.new.items)
            (link_view (C.view carrier.old) (F.view fabric.old)) (link_view (C.view carrier.new) (F.view fabric.new))) }
        ensures heard { (t : Past) → StandsAfterLines t.o t.others t.before self.old.world (images D.view pairs.old.items)
            → Places t.place (world_node_ids self.old.world) (places_of self.old.world)
            → OnOk result (HasHeard self.new.tracer (calm_lines circuit (whole_world t.o circuit t.before) passes)) }
    {
        let mut calm = Calm::new(alloc, &self.world, circuit, passes, self.tracer.is_on())?;
        self.turns(alloc, pairs, carrier, fabric, &circuit, &mut calm)?;
        self.world.count_ticks(calm.ticks_left())?;
        Ok(Answer::Calm { passes })
    }
}
