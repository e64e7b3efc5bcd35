//! Runs the lines of a schedule of Paxos Commit.
ghost use Rattle.std.specs.{Prelude.{◌≡◌, ◌≤◌, ◌⊎◌, ◌++◌, ◌∷◌, [], ℕ, List, IfOk, IfErr, IfSome, IsTrue, OnOk, IsErrOf, length}, Io.KnownBytes.Appends};
ghost use Rattle.std.specs.Io.KnownBytes.{Consumes};
ghost use Rattle.spl_edge.specs.{Devices.{AppendsPart, HasCause, Rose, PairView, SinkView, bench}, Sources.given};
ghost use Rattle.spl_lines.specs.Lines.{run_of};
ghost use Rattle.spl_acceptor.specs.declared.group.Group.{Group};
ghost use Rattle.spl_paxos.specs.declared.line.PaxosLine.{PaxosLine};
ghost use Rattle.spl_paxos_run.specs.{Faults.IsOfWorld, Places.{has_line_names, process_count}, Wholes.{AreFresh, AreSpared, AreProcessesUnmade, group_of}};
ghost use Rattle.spl_paxos_run.specs.{Limits.{IsOverPaxosLimit, AreLinesWithin, is_stop, paxos_stops}, Run.{PaxosDevices, PaxosEndsText, paxos_devices}};
ghost use Rattle.spl_paxos_run.specs.{Schedule.{IsPaxosLine, paxos_line_said, with_number}, Stages.{AreLinesDone, ReachesPaxosEnd, RunFailsAt, RunFailsBy}};
ghost use Rattle.spl_paxos_run.specs.Stages.{paxos_feed_end, paxos_fault};

use crate::{PaxosFault, PaxosWorld};
use spl_acceptor::{Group, Name};
use spl_circuit_world::{MOST_EVENTS, MOST_STOPS};
use spl_edge::{DeviceError, Pair, Sink, Source, StopDisk};
use spl_lines::{Feed, FeedFault, Output, is_silent, longest_line};
use spl_paxos::{PaxosLine, append_answer, read_step};
use spl_words::LineFault;
use std::alloc::Global;

/// How a run ended that ran all lines given.
#[derive(Clone, Copy, PartialEq, Eq)]
pub enum PaxosEnd {
    /// The source is at its end, and nothing stands after its last line.
    Whole,
    /// The source gave too many bytes.
    TooLong,
    /// The source failed.
    Read,
}

// How a run ended whose next line, of this number, didn't come.
fn end_of(fault: FeedFault, number: u32) -> Result<PaxosEnd, PaxosFault>
    ensures { result ≡ paxos_feed_end fault number }
{
    match fault {
        FeedFault::Unfinished | FeedFault::Overlong => Err(PaxosFault::BadLine(number)),
        FeedFault::TooLong => Ok(PaxosEnd::TooLong),
        FeedFault::Read => Ok(PaxosEnd::Read),
        FeedFault::NoMemory => Err(PaxosFault::NoMemory),
    }
}

// What an error of the sink is to the run.
pub(crate) fn fault_of(fault: DeviceError) -> PaxosFault
    ensures { result ≡ paxos_fault fault }
{
    match fault {
        DeviceError::Failed => PaxosFault::Write,
        DeviceError::NoMemory => PaxosFault::NoMemory,
    }
}

// Whether a line stops a process.
fn is_stop(line: &PaxosLine) -> bool
    ensures { result ≡ is_stop line.now }
{
    matches!(line, PaxosLine::Stop(_))
}

/// A run: its processes, the text of the last answer, the answers that wait, and how many lines ran and how many of them stop a
/// process.
#[derive(Drop)]
pub(crate) struct Run {
    world: PaxosWorld,
    text: Vec<u8>,
    output: Output,
    events: u32,
    stops: u8,
}

impl Run {
    /// A run whose processes are on the first disks of as many pairs, where nothing happened yet.
    pub(crate) fn new<D: StopDisk>(
        alloc: Global,
        group: Group,
        pairs: &mut Vec<Pair<D>>,
    ) -> Result<Run, PaxosFault>
        requires members { (2 ≤ group.members) × (group.members ≤ 8) }
        requires faults { group.faults ≤ 2 }
        requires room { process_count group ≤ length pairs.old.items }
        requires fresh { AreFresh group (bench D.view pairs.old.items) }
        ensures done { (sink : SinkView) → IfOk result (λ run.
            AreLinesDone group [] run (paxos_devices sink (bench D.view pairs.old.items)) (paxos_devices sink (bench D.view pairs.new.items))) }
        ensures unmade { IfErr result (λ f. AreProcessesUnmade group f (bench D.view pairs.old.items) (bench D.view pairs.new.items)) }
        ensures only { IfErr result IsOfWorld }
        ensures spared { AreSpared group (bench D.view pairs.old.items) (bench D.view pairs.new.items) }
    {
        Ok(Run {
            text: Vec::new(alloc),
            output: Output::new(alloc, false)?,
            world: PaxosWorld::new(alloc, group, pairs)?,
            events: 0,
            stops: 0,
        })
    }

    // Counts a line, where the limits allow it.
    fn count(&mut self, line: &PaxosLine) -> Result<(), PaxosFault>
        requires events { self.old.events ≤ MOST_EVENTS }
        requires stops { self.old.stops ≤ MOST_STOPS }
        ensures world { self.new.world ≡ self.old.world }
        ensures output { self.new.output ≡ self.old.output }
        ensures counted { (ls : List (ℕ × PaxosLine)) (n : ℕ) → AreLinesWithin ls → self.old.events ≡ length ls → self.old.stops ≡ paxos_stops ls
            → OnOk result (AreLinesWithin (ls ++ (n, line.now) ∷ []) × (self.new.events ≡ length (ls ++ (n, line.now) ∷ []))
            × (self.new.stops ≡ paxos_stops (ls ++ (n, line.now) ∷ []))) }
        ensures over { (ls : List (ℕ × PaxosLine)) (n : ℕ) → self.old.events ≡ length ls → self.old.stops ≡ paxos_stops ls
            → IfErr result (λ f. (which : ℕ) × (f ≡ PaxosFault.TooMany which) × IsOverPaxosLimit (ls ++ (n, line.now) ∷ []) which) }
    {
        if self.events >= MOST_EVENTS {
            return Err(PaxosFault::TooMany { which: 1 });
        }
        if is_stop(line) {
            if self.stops >= MOST_STOPS {
                return Err(PaxosFault::TooMany { which: 2 });
            }
            self.stops += 1;
        }
        self.events += 1;
        Ok(())
    }

    // What is run of a line, the one of this number.
    fn read(&self, alloc: Global, number: u32, line: &[u8]) -> Result<Option<PaxosLine>, PaxosFault>
        ensures good { OnOk result (IsPaxosLine (group_of self.now.world) line.now) }
        ensures said { IfOk result (λ o. o ≡ paxos_line_said line.now) }
        ensures known { IfOk result (λ o. IfSome o (λ l. IsTrue (has_line_names (group_of self.now.world) l))) }
        ensures bad { IfErr result (λ f. (f ≡ PaxosFault.NoMemory)
            ⊎ ((f ≡ PaxosFault.BadLine number) × (IsPaxosLine (group_of self.now.world) line.now → ⊥))) }
    {
        if line.len() > longest_line(line) {
            return Err(PaxosFault::BadLine(number));
        }
        if is_silent(line) {
            return Ok(None);
        }
        match read_step(alloc, line) {
            Ok(said) if self.world.knows(&said) => Ok(Some(said)),
            Ok(_) => Err(PaxosFault::BadLine(number)),
            Err(LineFault::BadLine) => Err(PaxosFault::BadLine(number)),
            Err(LineFault::NoMemory) => Err(PaxosFault::NoMemory),
        }
    }

    // Carries out a line, and lets its answer wait, with the number of the line. Such lines ran before.
    fn answer<W: Sink, D: StopDisk>(
        &mut self,
        alloc: Global,
        pairs: &mut Vec<Pair<D>>,
        out: &mut W,
        number: u32,
        line: &PaxosLine,
    ) -> Result<(), PaxosFault>
        requires known { IsTrue (has_line_names (group_of self.old.world) line.now) }
        requires done { (g : Group) × (ls : List (ℕ × PaxosLine)) × (x : PaxosDevices)
            × AreLinesDone g ls self.old x (paxos_devices (W.view out.old) (bench D.view pairs.old.items)) }
        ensures done { (g : Group) (ls : List (ℕ × PaxosLine)) (x : PaxosDevices)
            → AreLinesDone g ls self.old x (paxos_devices (W.view out.old) (bench D.view pairs.old.items))
            → OnOk result (AreLinesDone g (ls ++ (number, line.now) ∷ []) self.new x (paxos_devices (W.view out.new) (bench D.view pairs.new.items))) }
        ensures stopped { (g : Group) (ls : List (ℕ × PaxosLine)) (x : PaxosDevices)
            → AreLinesDone g ls self.old x (paxos_devices (W.view out.old) (bench D.view pairs.old.items))
            → IfErr result (λ f. RunFailsAt f g (ls ++ (number, line.now) ∷ []) self.new.output x
            (paxos_devices (W.view out.new) (bench D.view pairs.new.items))) }
        ensures good { (n : ℕ) → IsErrOf result (PaxosFault.BadLine n) → ⊥ }
        ensures later { (W.view out.old).faults ≤ (W.view out.new).faults }
    {
        self.count(line)?;
        let answer = self.world.step(alloc, pairs, line)?;
        self.text.clear();
        append_answer(answer, &mut self.text)?;
        match self.output.put(out, number, &self.text) {
            Ok(()) => Ok(()),
            Err(fault) => Err(fault_of(fault)),
        }
    }

    // Carries out what a line asks for, and answers it. A line that a schedule may not have there changes nothing.
    fn line<W: Sink, D: StopDisk>(
        &mut self,
        alloc: Global,
        pairs: &mut Vec<Pair<D>>,
        out: &mut W,
        number: u32,
        line: &[u8],
    ) -> Result<(), PaxosFault>
        requires done { (g : Group) × (ls : List (ℕ × PaxosLine)) × (x : PaxosDevices)
            × AreLinesDone g ls self.old x (paxos_devices (W.view out.old) (bench D.view pairs.old.items)) }
        ensures done { (g : Group) (ls : List (ℕ × PaxosLine)) (x : PaxosDevices)
            → AreLinesDone g ls self.old x (paxos_devices (W.view out.old) (bench D.view pairs.old.items))
            → OnOk result (IsPaxosLine g line.now × AreLinesDone g (ls ++ with_number number (paxos_line_said line.now) []) self.new x
            (paxos_devices (W.view out.new) (bench D.view pairs.new.items))) }
        ensures stopped { (g : Group) (ls : List (ℕ × PaxosLine)) (x : PaxosDevices)
            → AreLinesDone g ls self.old x (paxos_devices (W.view out.old) (bench D.view pairs.old.items))
            → IfErr result (λ f. RunFailsBy f g ls number line.now self.new.output x (paxos_devices (W.view out.new) (bench D.view pairs.new.items))) }
        ensures later { (W.view out.old).faults ≤ (W.view out.new).faults }
    {
        let Some(said) = self.read(alloc, number, line)? else {
            return Ok(());
        };
        self.answer(alloc, pairs, out, number, &said)
    }

    /// Runs each line that a source gives, up to the first that a schedule may not have there or that ends with an error. It
    /// reads no further than that line.
    pub(crate) fn lines<S: Source, W: Sink, D: StopDisk>(
        &mut self,
        alloc: Global,
        pairs: &mut Vec<Pair<D>>,
        source: &mut S,
        out: &mut W,
    ) -> Result<PaxosEnd, PaxosFault>
        requires done { (g : Group) × (x : PaxosDevices) × AreLinesDone g [] self.old x (paxos_devices (W.view out.old) (bench D.view pairs.old.items)) }
        ensures comes { (g : Group) (x : PaxosDevices) → AreLinesDone g [] self.old x (paxos_devices (W.view out.old) (bench D.view pairs.old.items))
            → ReachesPaxosEnd result g (run_of (given (S.view source.old) (S.view source.new))) self.new.output x
            (paxos_devices (W.view out.new) (bench D.view pairs.new.items)) }
        ensures text { (g : Group) (x : PaxosDevices) → AreLinesDone g [] self.old x (paxos_devices (W.view out.old) (bench D.view pairs.old.items))
            → PaxosEndsText result g (run_of (given (S.view source.old) (S.view source.new))) (S.view source.old) (S.view source.new) }
        ensures taken { Consumes (S.view source.old).left (S.view source.new).left (given (S.view source.old) (S.view source.new)) }
        ensures later { (W.view out.old).faults ≤ (W.view out.new).faults }
    {
        let Ok(mut feed) = Feed::new(alloc) else {
            return Err(PaxosFault::NoMemory);
        };
        let mut count = 0u32;
        'lines: loop {
            match feed.advance(source) {
                Ok(true) => {
                    let line = feed.line();
                    match self.line(alloc, pairs, out, count + 1, line) {
                        Ok(()) => count += 1,
                        Err(fault) => return Err(fault),
                    }
                }
                Ok(false) => return Ok(PaxosEnd::Whole),
                Err(fault) => return end_of(fault, count + 1),
            }
        }
    }

    /// Hands over all answers that wait.
    pub(crate) fn flush<W: Sink>(&mut self, out: &mut W) -> Result<(), DeviceError>
        ensures ok { OnOk result (Appends (W.view out.old).written (W.view out.new).written self.old.output) }
        ensures part { AppendsPart (W.view out.old).written (W.view out.new).written self.old.output }
        ensures cause { HasCause (W.view out.old).faults (W.view out.new).faults result }
    {
        self.output.flush(out)
    }
}
