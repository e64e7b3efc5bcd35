//! Runs lines of watchers.
ghost use Rattle.std.specs.{Prelude.{◌≡◌, ◌∷◌, [], ℕ, List, Bool, Some, false, true, IfOk, OnErr, IsErrOf}, Str.bytes_eq};
ghost use Rattle.spl_circuit.specs.Nodes.{CircuitId, has_node};
ghost use Rattle.spl_edge.specs.Devices.{PairView};
ghost use Rattle.spl_delta.specs.{Kept.watchers_of, Watches.{watch_text, watch_answer, watch_circuit, watch_node, watchers_after}};
ghost use Rattle.spl_lines.specs.Tasks.{IsRunnable, line_said};
ghost use Rattle.spl_circuit_world.specs.Worlds.{World as CircuitWorld};
ghost use Rattle.spl_runs.specs.{Moments.MayGoOn, Run.{Devices, devices, number_of, run_way}, Steps.{RunsSaid, Step, task}};
ghost use Rattle.spl_node.specs.Benches.{Images};
ghost use Rattle.spl_world.specs.{Links.LinkView, Views.{HoldsWorld, world_node_ids, is_world_halted, nodes_over}};

use crate::fault::RunFault;
use crate::read::ReadLine;
use crate::run::Run;
use crate::told::tell_watch;
use spl_delta::{WatchAnswer, WatchLine, Watchers};
use spl_edge::Sink;
use spl_lines::Said;
use spl_world::{World, WorldFault};
use std::alloc::{AllocError, Global};

// The answer to a line of a watcher, by what its node keeps; and what it makes of the watchers. Fails only where memory runs out,
// and leaves them then as they were.
fn tell(
    alloc: Global,
    world: &World,
    watchers: &mut Watchers,
    line: &WatchLine,
) -> Result<WatchAnswer, AllocError>
    requires known { has_node (world_node_ids world.now) (watch_node line.now) ≡ true }
    ensures answer { (is : List Images) (m : CircuitWorld) → HoldsWorld (watch_circuit line.now) m (nodes_over world.now is)
        → IfOk result (λ a. a ≡ watch_answer m (watchers_of watchers.old (watch_circuit line.now)) line.now) }
    ensures after { (is : List Images) (m : CircuitWorld) → HoldsWorld (watch_circuit line.now) m (nodes_over world.now is)
        → IfOk result (λ a. watchers_of watchers.new (watch_circuit line.now)
        ≡ watchers_after (m.at (watch_node line.now)) (watchers_of watchers.old (watch_circuit line.now)) line.now a) }
    ensures others { (c : CircuitId) → bytes_eq (watch_circuit line.now) c ≡ false
        → watchers_of watchers.new c ≡ watchers_of watchers.old c }
    ensures err { OnErr result ((c : CircuitId) → watchers_of watchers.new c ≡ watchers_of watchers.old c) }
{
    let node = line.node();
    let circuit = line.circuit();
    if !world.has_up(&node) {
        return Ok(WatchAnswer::Down);
    }
    let Some(cell) = world.cell(&node, &circuit) else {
        return Ok(WatchAnswer::NoCircuit);
    };
    let Some(definition) = cell.definition() else {
        return Ok(WatchAnswer::NoCircuit);
    };
    let Some(service) = cell.service() else {
        return Ok(WatchAnswer::NotActive);
    };
    watchers.answer(alloc, definition, service, line)
}

impl Run {
    // Runs a line of a watcher, and answers it. `TooMany` comes exactly where the events pass their limit with it, and any other
    // error is running out of memory.
    fn watch(&mut self, alloc: Global, line: &WatchLine) -> Result<WatchAnswer, WorldFault>
        requires known { has_node (world_node_ids self.old.world) (watch_node line.now) ≡ true }
        requires running { is_world_halted self.old.world ≡ false }
        ensures { (linked : Bool) (x : Devices) → MayGoOn self.old.nodes.items self.old.world x.disks x.links
            → RunsSaid linked (Said.Watch line.now) watch_text result self.old self.new x x }
    {
        self.world.count_event()?;
        Ok(tell(alloc, &self.world, &mut self.watchers, line)?)
    }

    // Runs a line of a watcher, which its bytes spell, and lets what is written of it wait.
    pub(crate) fn answer_watch<W: Sink>(
        &mut self,
        alloc: Global,
        out: &mut W,
        read: &ReadLine<'_, WatchLine>,
    ) -> Result<(), RunFault>
        requires spelled { line_said read.now.line.bytes.now ≡ Some (Said.Watch read.now.says.now) }
        requires known { IsRunnable self.old.nodes.items (Said.Watch read.now.says.now) }
        requires nodes { world_node_ids self.old.world ≡ self.old.nodes.items }
        requires running { is_world_halted self.old.world ≡ false }
        ensures good { (n : ℕ) → IsErrOf result (RunFault.BadLine n) → ⊥ }
        ensures step { (linked : Bool) (disks : List PairView) (links : LinkView) → MayGoOn self.old.nodes.items self.old.world disks links
            → Step linked (task (number_of (run_way linked self.old.unanswered) read.now.line.number) (Said.Watch read.now.says.now) ∷ []) result self.old
            self.new (devices (W.view out.old) disks links) (devices (W.view out.new) disks links) }
    {
        let answer = self.watch(alloc, read.says)?;
        tell_watch(
            self.tracer.is_on(),
            &answer,
            read.says,
            read.line.bytes,
            &mut self.text,
        )?;
        self.output.put_after(
            out,
            self.tracer.is_on(),
            self.unanswered,
            read.line.number,
            &self.text,
        )?;
        Ok(())
    }
}
