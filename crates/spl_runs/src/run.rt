//! Runs the lines of a schedule.
ghost use Rattle.std.specs.{Prelude.{◌≡◌, ◌<◌, ◌≤◌, ◌∷◌, [], ℕ, List, Some, Err, false, true, length, IfErr, IfOk, OnOk, IsErrOf}, Io.KnownBytes.Appends};
ghost use Rattle.spl_answer.specs.Texts.{answer_spelling};
ghost use Rattle.spl_edge.specs.{Devices.{AppendsPart, HasCause, SinkView, bench}, Sources.given};
ghost use Rattle.spl_lines.specs.{Lines.run_of, Tasks.{Task, ran_by, IsRunnable, line_said}};
ghost use Rattle.spl_circuit_world.specs.Whole.{whole_world};
ghost use Rattle.spl_runs.specs.{Faults.{FailsAs, HaveCauses, feed_end, world_fault}, Moments.{AreDone, MayGoOn}, Run.{MayAnswer, Plan, after_line, is_run}};
ghost use Rattle.spl_runs.specs.{Run.{number_of, origin, run_plan, run_way, AreUnmade, Devices, HasFailed, devices, held_on}, Steps.{RunBegins, LinesRun}};
ghost use Rattle.spl_runs.specs.Steps.{RunsSaid, Step, TakesLine, task};
ghost use Rattle.spl_trace.specs.{Heard.heard_of, Tracers.HasHeard};
ghost use Rattle.spl_node.specs.Benches.{AllGoOn, AllTell, AreBlank, images_at, AreSettled, images, AllUnpicked};
ghost use Rattle.spl_world.specs.Links.{LinkView, link_view};

use crate::begin::begin;
use crate::fault::{RunEnd, RunFault};
use crate::halt::Halt;
use crate::lines::is_taken;
use crate::mode::{Beginning, Mode};
use crate::read::{ReadLine, ScheduleLine};
use crate::told::tell_line;
use spl_base::NodeId;
use spl_delta::Watchers;
use spl_edge::{DeviceError, Disk, Fabric, Pair, Sink, Source};
use spl_lines::{Feed, FeedFault, Output, Said, Unread, read_admitted};
use spl_pump::Carry;
use spl_registry::Registry;
use spl_sched::Line;
use spl_trace::Tracer;
use spl_wire::Answer;
use spl_world::{World, WorldFault, sorted_ids, stops_node};
use std::alloc::Global;

/// The passes of the calm after a line that names a circuit.
const CALM_PASSES: u8 = 8;

// How a run ended whose next line, of this number, didn't come.
fn end_of(fault: FeedFault, number: u32) -> Result<RunEnd, RunFault>
    ensures { result ≡ feed_end fault number }
{
    match fault {
        FeedFault::Unfinished | FeedFault::Overlong => Err(RunFault::BadLine(number)),
        FeedFault::TooLong => Ok(RunEnd::TooLong),
        FeedFault::Read => Ok(RunEnd::Read),
        FeedFault::NoMemory => Err(RunFault::NoMemory),
    }
}

/// A run: its nodes, the watchers of its circuits, what hears the events of a calm, what is written of the last line, and what
/// waits to be written. Of the first lines, as many as this, nothing is written.
#[derive(Drop)]
pub(crate) struct Run {
    pub(crate) nodes: Vec<NodeId>,
    pub(crate) world: World,
    pub(crate) watchers: Watchers,
    pub(crate) tracer: Tracer,
    pub(crate) text: Vec<u8>,
    pub(crate) output: Output,
    pub(crate) unanswered: u32,
}

impl Run {
    /// A run over the nodes of a registry, which begins by a mode. It goes on from what disks hold only over links.
    pub(crate) fn new<H: Halt<D>, D: Disk>(
        alloc: Global,
        registry: &Registry,
        pairs: &mut Vec<Pair<D>>,
        mode: Mode,
    ) -> Result<Run, WorldFault>
        requires room { length registry.now ≤ length pairs.old.items }
        requires blank { mode.beginning ≡ Beginning.Blank → (i : ℕ) → i < length registry.now → AreBlank (images_at (images D.view pairs.old.items) i) }
        requires settled { mode.beginning ≡ Beginning.Resumed → (i : ℕ) → i < length registry.now → AreSettled (images_at (images D.view pairs.old.items) i) }
        requires linked { mode.beginning ≡ Beginning.Resumed → H.linked ≡ true }
        requires unpicked { H.linked ≡ false → AllUnpicked (bench D.view pairs.old.items) }
        ensures begins { IfOk result (RunBegins H.linked mode registry.now (images D.view pairs.old.items) (bench D.view pairs.old.items)
            (bench D.view pairs.new.items)) }
        ensures causes { (y : LinkView) → HaveCauses H.linked (FailsAs result) (λ k. k < length registry.now) (bench D.view pairs.old.items)
            (bench D.view pairs.new.items) y y }
        ensures unmade { (lines : List (List ℕ)) → AllTell (length registry.now) (held_on (bench D.view pairs.old.items)) → IfErr result
            (λ e. AreUnmade (Err (world_fault e)) (run_plan mode registry.now (images D.view pairs.old.items) lines)
            (held_on (bench D.view pairs.old.items)) (held_on (bench D.view pairs.new.items))) }
        ensures onward { AllGoOn (bench D.view pairs.old.items) (bench D.view pairs.new.items) }
        ensures failed { (k : ℕ) → IsErrOf result (WorldFault.Disk k)
            → HasFailed H.linked k (bench D.view pairs.old.items) (bench D.view pairs.new.items) }
    {
        Ok(Run {
            nodes: sorted_ids(alloc, registry)?,
            watchers: Watchers::new(alloc),
            text: Vec::new(alloc),
            tracer: Tracer::new(alloc, mode.writing.is_trace()),
            output: Output::new(alloc, H::is_linked())?,
            world: begin(alloc, registry, pairs, mode.beginning)?,
            unanswered: mode.unanswered,
        })
    }

    // Runs a line of the nodes, and answers it. The tracer writes the steps of a calm, and nothing of any other line.
    fn run<H: Halt<D>, D: Disk, C: Carry, F: Fabric>(
        &mut self,
        alloc: Global,
        pairs: &mut Vec<Pair<D>>,
        carrier: &mut C,
        fabric: &mut F,
        line: &Line,
    ) -> Result<Answer, WorldFault>
        requires go { MayGoOn self.old.nodes.items self.old.world (bench D.view pairs.old.items)
            (link_view (C.view carrier.old) (F.view fabric.old)) }
        requires known { IsRunnable self.old.nodes.items (Said.Line line.now) }
        requires runs { H.linked ≡ true → is_run line.now ≡ true }
        ensures runs { (sink : SinkView) → RunsSaid H.linked (Said.Line line.now) answer_spelling result self.old self.new
            (devices sink (bench D.view pairs.old.items) (link_view (C.view carrier.old) (F.view fabric.old)))
            (devices sink (bench D.view pairs.new.items) (link_view (C.view carrier.new) (F.view fabric.new))) }
        ensures heard { (p : Plan) (ts : List Task) (x : Devices) (sink : SinkView) → AreDone H.linked p ts self.old x
            (devices sink (bench D.view pairs.old.items) (link_view (C.view carrier.old) (F.view fabric.old)))
            → OnOk result (HasHeard self.new.tracer (heard_of (λ c. whole_world (origin p) c (ran_by ts)) line.now)) }
    {
        self.tracer.clear();
        if stops_node(line) {
            return H::halt(alloc, &mut self.world, pairs, line);
        }
        match line {
            Line::Calm { circuit, passes } => {
                self.run_calm(alloc, pairs, carrier, fabric, *circuit, *passes)
            }
            _ => self.world.step(alloc, pairs, carrier, fabric, line),
        }
    }

    // Runs a line of the nodes, which its bytes spell, and lets what is written of it wait.
    fn answer_line<H: Halt<D>, W: Sink, D: Disk, C: Carry, F: Fabric>(
        &mut self,
        alloc: Global,
        pairs: &mut Vec<Pair<D>>,
        carrier: &mut C,
        fabric: &mut F,
        out: &mut W,
        read: &ReadLine<'_, Line>,
    ) -> Result<(), RunFault>
        requires go { MayGoOn self.old.nodes.items self.old.world (bench D.view pairs.old.items)
            (link_view (C.view carrier.old) (F.view fabric.old)) }
        requires may { MayAnswer H.linked self.old.nodes.items read.now.line.bytes.now (Said.Line read.now.says.now) }
        ensures good { (n : ℕ) → IsErrOf result (RunFault.BadLine n) → ⊥ }
        ensures step { Step H.linked (task (number_of (run_way H.linked self.old.unanswered) read.now.line.number) (Said.Line read.now.says.now) ∷ [])
            result self.old self.new
            (devices (W.view out.old) (bench D.view pairs.old.items) (link_view (C.view carrier.old) (F.view fabric.old)))
            (devices (W.view out.new) (bench D.view pairs.new.items) (link_view (C.view carrier.new) (F.view fabric.new))) }
    {
        let line = read.line;
        let says = read.says;
        let answer = self.run::<H, D, C, F>(alloc, pairs, carrier, fabric, says)?;
        tell_line(&self.tracer, &answer, says, line.bytes, &mut self.text)?;
        self.output.put_after(
            out,
            self.tracer.is_on(),
            self.unanswered,
            line.number,
            &self.text,
        )?;
        Ok(())
    }

    // Runs what a line says, which its bytes spell, and lets what is written of it wait.
    fn answer<H: Halt<D>, W: Sink, D: Disk, C: Carry, F: Fabric>(
        &mut self,
        alloc: Global,
        pairs: &mut Vec<Pair<D>>,
        carrier: &mut C,
        fabric: &mut F,
        out: &mut W,
        read: &ReadLine<'_, Said>,
    ) -> Result<(), RunFault>
        requires go { MayGoOn self.old.nodes.items self.old.world (bench D.view pairs.old.items)
            (link_view (C.view carrier.old) (F.view fabric.old)) }
        requires may { MayAnswer H.linked self.old.nodes.items read.now.line.bytes.now read.now.says.now }
        ensures good { (n : ℕ) → IsErrOf result (RunFault.BadLine n) → ⊥ }
        ensures step { Step H.linked (task (number_of (run_way H.linked self.old.unanswered) read.now.line.number) read.now.says.now ∷ [])
            result self.old self.new
            (devices (W.view out.old) (bench D.view pairs.old.items) (link_view (C.view carrier.old) (F.view fabric.old)))
            (devices (W.view out.new) (bench D.view pairs.new.items) (link_view (C.view carrier.new) (F.view fabric.new))) }
    {
        let line = read.line;
        match read.says {
            Said::Line(says) => {
                let read = ReadLine { line, says };
                self.answer_line::<H, W, D, C, F>(alloc, pairs, carrier, fabric, out, &read)
            }
            Said::Watch(says) => {
                let says = says.get();
                let read = ReadLine { line, says };
                self.answer_watch::<W>(alloc, out, &read)
            }
        }
    }

    // Over links, runs a calm of the circuit that a line names. Nothing of it is written.
    fn settle<H: Halt<D>, D: Disk, C: Carry, F: Fabric>(
        &mut self,
        alloc: Global,
        pairs: &mut Vec<Pair<D>>,
        carrier: &mut C,
        fabric: &mut F,
        said: &Said,
    ) -> Result<(), RunFault>
        requires go { MayGoOn self.old.nodes.items self.old.world (bench D.view pairs.old.items)
            (link_view (C.view carrier.old) (F.view fabric.old)) }
        requires known { IsRunnable self.old.nodes.items said.now }
        ensures good { (n : ℕ) → IsErrOf result (RunFault.BadLine n) → ⊥ }
        ensures step { (sink : SinkView) → Step H.linked (after_line (run_way H.linked self.old.unanswered) said.now) result self.old self.new
            (devices sink (bench D.view pairs.old.items) (link_view (C.view carrier.old) (F.view fabric.old)))
            (devices sink (bench D.view pairs.new.items) (link_view (C.view carrier.new) (F.view fabric.new))) }
    {
        if !H::is_linked() {
            return Ok(());
        }
        let Some(circuit) = said.circuit() else {
            return Ok(());
        };
        let calm = Line::Calm {
            circuit,
            passes: CALM_PASSES,
        };
        self.run::<H, D, C, F>(alloc, pairs, carrier, fabric, &calm)?;
        Ok(())
    }

    // Reads a line, runs what it asks for, and answers it. A line that a schedule may not have there changes nothing.
    fn line<H: Halt<D>, W: Sink, D: Disk, C: Carry, F: Fabric>(
        &mut self,
        alloc: Global,
        pairs: &mut Vec<Pair<D>>,
        carrier: &mut C,
        fabric: &mut F,
        out: &mut W,
        line: &ScheduleLine<'_>,
    ) -> Result<(), RunFault>
        requires go { MayGoOn self.old.nodes.items self.old.world (bench D.view pairs.old.items)
            (link_view (C.view carrier.old) (F.view fabric.old)) }
        ensures { TakesLine H.linked line.now.number line.now.bytes.now result self.old self.new
            (devices (W.view out.old) (bench D.view pairs.old.items) (link_view (C.view carrier.old) (F.view fabric.old)))
            (devices (W.view out.new) (bench D.view pairs.new.items) (link_view (C.view carrier.new) (F.view fabric.new))) }
    {
        // What is read is large, so it stays where it was read.
        match &read_admitted(alloc, &self.nodes, line.bytes) {
            Ok(said) => {
                if H::is_linked() && !is_taken(said) {
                    return Err(RunFault::BadLine(line.number));
                }
                let read = ReadLine {
                    line: *line,
                    says: said,
                };
                self.answer::<H, W, D, C, F>(alloc, pairs, carrier, fabric, out, &read)?;
                self.settle::<H, D, C, F>(alloc, pairs, carrier, fabric, said)
            }
            Err(Unread::Silent) => Ok(()),
            Err(Unread::BadLine) => Err(RunFault::BadLine(line.number)),
            Err(Unread::NoMemory) => Err(RunFault::NoMemory),
        }
    }

    /// Runs each line that a source gives, up to the first that a schedule may not have there or that ends with an error. It
    /// reads no further than that line.
    pub(crate) fn lines<H: Halt<D>, S: Source, W: Sink, D: Disk, C: Carry, F: Fabric>(
        &mut self,
        alloc: Global,
        pairs: &mut Vec<Pair<D>>,
        carrier: &mut C,
        fabric: &mut F,
        source: &mut S,
        out: &mut W,
    ) -> Result<RunEnd, RunFault>
        requires go { MayGoOn self.old.nodes.items self.old.world (bench D.view pairs.old.items)
            (link_view (C.view carrier.old) (F.view fabric.old)) }
        ensures { LinesRun H.linked result (run_of (given (S.view source.old) (S.view source.new))) self.old self.new
            (devices (W.view out.old) (bench D.view pairs.old.items) (link_view (C.view carrier.old) (F.view fabric.old)))
            (devices (W.view out.new) (bench D.view pairs.new.items) (link_view (C.view carrier.new) (F.view fabric.new)))
            (S.view source.old) (S.view source.new) }
    {
        let Ok(mut feed) = Feed::new(alloc) else {
            return Err(RunFault::NoMemory);
        };
        let mut number = 1u32;
        'lines: loop {
            match feed.advance(source) {
                Ok(true) => {
                    let bytes = feed.line();
                    let line = ScheduleLine { number, bytes };
                    match self.line::<H, W, D, C, F>(alloc, pairs, carrier, fabric, out, &line) {
                        Ok(()) => number += 1,
                        Err(fault) => return Err(fault),
                    }
                }
                Ok(false) => return Ok(RunEnd::Whole),
                Err(fault) => return end_of(fault, number),
            }
        }
    }

    /// Hands over all answers that wait.
    pub(crate) fn flush<W: Sink>(&mut self, out: &mut W) -> Result<(), DeviceError>
        ensures ok { OnOk result (Appends (W.view out.old).written (W.view out.new).written self.old.output) }
        ensures part { AppendsPart (W.view out.old).written (W.view out.new).written self.old.output }
        ensures cause { HasCause (W.view out.old).faults (W.view out.new).faults result }
    {
        self.output.flush(out)
    }
}
