//! A turn of a node that serves.
ghost use Rattle.std.specs.Prelude.{◌≡◌, ◌⊎◌, ◌++◌, ◌∷◌, ◌+◌, ◌<◌, ◌^◌, ◌&&◌, [], ℕ, List, Some, false, true, length, map, OnOk, IfOk, IsErrOf, IsTrue};
ghost use Rattle.std.specs.{List.AllByRecursion, Str.bytes_eq};
ghost use Rattle.spl_answer.specs.Texts.{answer_spelling};
ghost use Rattle.spl_circuit.specs.Nodes.{NodeId as Id};
ghost use Rattle.spl_edge.specs.Devices.{image_now, pair_view};
ghost use Rattle.spl_snapshot.specs.{Counting.{HasRisen, IfBoth, PairLeavesInTurn, PairOnward, PairTellsAs}, Pairs.{PairStands, is_second}};
ghost use Rattle.spl_cell_rules.specs.{Valid.IsFor, Cells.site_at};
ghost use Rattle.spl_wire.specs.{Bounds.AllSendable, Forms.message_form};
ghost use Rattle.spl_node.specs.{Records.is_record, Stands.{StandFor, circuit_cell, here_of, is_node_halted}, Turns.{MayBeSent, given_in}};
ghost use Rattle.spl_serve.specs.{Asking.{IsAskedFor, asked_by_line}, Outside.MayArrive, Served.Served, Servers.{TurnBegan, TurnGoesOn, ServerStands}};
ghost use Rattle.spl_serve.specs.{Servers.{Serves, TakesOne, handed, is_tick_due, server_here, server_served, turn_cells, turn_here}, Turns.{Deed, Handles}};
ghost use Rattle.spl_serve.specs.Turns.{Tells, Watches, answer_departures, cells_past, departures_of, ended, events_in, given_out, sends_in, served_past};
ghost use Rattle.spl_serve.specs.Waits.{waits_at};
ghost use Rattle.spl_serve.specs.declared.outside.Arrival.TheVariants as arrival;

use crate::hearing::{circuit_of, is_heard};
use crate::line::{Asked, Unasked, read_asked};
use crate::outside::{Arrival, Departure};
use crate::server::Server;
use crate::tally::Tally;
use crate::waits::waits_of;
use crate::watching::{answer_watch, text_of_watch};
use spl_answer::append_text;
use spl_base::{Boxed, CircuitId, NodeId, Piece};
use spl_cell::Cell;
use spl_delta::{WatchLine, Watchers};
use spl_edge::{Disk, Pair};
use spl_fragments::write_frames;
use spl_journal::JournalFault;
use spl_node::{Outcome, Turn};
use spl_state::RunCache;
use spl_wire::{Answer, Event, Message, Outgoing};
use std::alloc::{AllocError, Global};

// What will leave by something that came: by an event, once its record is kept; or a text.
#[derive(Drop)]
enum Slot {
    Event { caller: Option<usize> },
    Text { caller: usize, text: Piece },
}

/// A node that serves in a turn: what comes is handled, and nothing leaves before `keep` has kept the records of all of it.
#[derive(Drop)]
pub struct ServerTurn {
    turn: Turn,
    runs: RunCache,
    tally: Tally,
    watchers: Watchers,
    slots: Vec<Slot>,
}

// The text of an answer, with a line feed.
fn text_of(alloc: Global, answer: &Answer) -> Result<Piece, AllocError>
    ensures { IfOk result (λ p. p ≡ ended (answer_spelling answer.now)) }
{
    let mut out = Vec::new(alloc);
    append_text(answer, &mut out)?;
    out.push(b'\n')?;
    Ok(Piece::from_vec(out))
}

// Whether a cell is that of a circuit at a node.
fn is_at(cell: &Cell, here: &NodeId, circuit: &CircuitId) -> bool
    ensures { result ≡ (bytes_eq cell.now.site.here here.now && bytes_eq cell.now.site.circuit circuit.now) }
{
    cell.here() == *here && cell.circuit() == *circuit
}

// What waits at a cell that is that of a circuit at a node.
#[tactic(auto, using(crate::proofs::Waiting::waits_same))]
fn waits_there(
    alloc: Global,
    here: &NodeId,
    circuit: &CircuitId,
    cell: &Cell,
) -> Result<Vec<u8>, AllocError>
    ensures { IfOk result (λ v. v.items ≡ waits_at (site_at here.now circuit.now) cell.now.state) }
{
    if cell.is_halted() || !is_at(cell, here, circuit) {
        return Err(AllocError);
    }
    waits_of(alloc, cell)
}

// What waits at the cell of a circuit, with a line feed. A node keeps each cell at its own place, and one that isn't halted, but
// its contracts don't say so: where they weren't, this fails as where memory runs out.
fn waits_at(alloc: Global, turn: &Turn, circuit: &CircuitId) -> Result<Piece, AllocError>
    ensures { IfOk result (λ p. p ≡ ended (waits_at (site_at (here_of turn.now.node) circuit.now) (circuit_cell turn.now.node circuit.now))) }
{
    let mut text = match turn.cell(circuit) {
        Some(cell) => waits_there(alloc, &turn.here(), circuit, cell)?,
        None => waits_of(alloc, &Cell::empty(turn.here(), *circuit))?,
    };
    text.push(b'\n')?;
    Ok(Piece::from_vec(text))
}

// An answer leaves, where somebody waits for it.
fn leave_answer(
    alloc: Global,
    caller: Option<usize>,
    answer: &Answer,
    out: &mut Vec<Departure>,
) -> Result<(), AllocError>
    ensures { OnOk result (out.new.items ≡ out.old.items ++ answer_departures caller answer.now) }
{
    if let Some(caller) = caller {
        let text = text_of(alloc, answer)?;
        out.push(Departure::Answer { caller, text })?;
    }
    Ok(())
}

// Messages leave.
fn leave_sends(
    alloc: Global,
    sends: &[Outgoing],
    out: &mut Vec<Departure>,
) -> Result<(), AllocError>
    requires { AllSendable sends.now }
    ensures { OnOk result (out.new.items ≡ out.old.items ++ map sends_in sends.now) }
{
    for send in sends {
        let frames = write_frames(alloc, send.message.get())?;
        out.push(Departure::Frames {
            to: send.to,
            frames,
        })?;
    }
    Ok(())
}

// What leaves by an event: its answer, where somebody waits for it, and then its messages.
fn leave(
    alloc: Global,
    caller: Option<usize>,
    outcome: &Outcome,
    out: &mut Vec<Departure>,
) -> Result<(), AllocError>
    requires { AllSendable outcome.now.sends }
    ensures { OnOk result (out.new.items ≡ out.old.items ++ given_out caller (given_in outcome.now)) }
{
    leave_answer(alloc, caller, &outcome.answer, out)?;
    leave_sends(alloc, outcome.sends.as_slice(), out)
}

// What leaves by what a turn held back, with what its events gave.
fn hand_out(
    alloc: Global,
    slots: Vec<Slot>,
    given: Vec<Outcome>,
) -> Result<Vec<Departure>, AllocError>
    requires { AllByRecursion MayBeSent given.items }
    ensures { IfOk result (λ out. out.items ≡ handed slots.items (map given_in given.items)) }
{
    let mut out = Vec::new(alloc);
    let mut given = given.into_iter();
    for slot in slots {
        match slot {
            Slot::Text { caller, text } => out.push(Departure::Answer { caller, text })?,
            Slot::Event { caller } => {
                if let Some(outcome) = given.next() {
                    leave(alloc, caller, &outcome, &mut out)?;
                }
            }
        }
    }
    Ok(out)
}

impl ServerTurn {
    /// A turn in which nothing came yet.
    pub(crate) fn new(alloc: Global, server: Server) -> ServerTurn
        requires running { is_node_halted server.node ≡ false }
        ensures node { result.turn.node ≡ server.node }
        ensures nothing { Serves (server_here server) (server_served server) [] result }
    {
        let Server {
            node,
            runs,
            tally,
            watchers,
        } = server;
        ServerTurn {
            turn: Turn::new(alloc, node),
            runs,
            tally,
            watchers,
            slots: Vec::new(alloc),
        }
    }

    // Makes the digests again that an event reports; nothing that is seen changes.
    fn prepare(&mut self, circuit: &CircuitId, event: &Event)
        ensures turn { self.new.turn ≡ self.old.turn }
        ensures slots { self.new.slots.items ≡ self.old.slots.items }
        ensures watchers { self.new.watchers ≡ self.old.watchers }
    {
        if matches!(event, Event::Root | Event::Prove(_)) {
            self.turn.renew(circuit, &mut self.runs);
        }
    }

    // Handles an event.
    fn handle(
        &mut self,
        alloc: Global,
        caller: Option<usize>,
        circuit: &CircuitId,
        event: &Event,
    ) -> Result<(), AllocError>
        requires running { is_node_halted self.old.turn.node ≡ false }
        requires own { IsFor (site_at (turn_here self.old) circuit.now) event.now }
        ensures goes { OnOk result (TurnGoesOn self.old self.new) }
        ensures handled { OnOk result ((here : Id) (before : Served) (ds : List Deed) → Serves here before ds self.old
            → Serves here before (ds ++ Handles caller (circuit.now, event.now) ∷ []) self.new) }
    {
        self.prepare(circuit, event);
        self.turn.handle(alloc, circuit, event)?;
        self.slots.push(Slot::Event { caller })?;
        Ok(())
    }

    // A text for a caller.
    fn tell(&mut self, caller: usize, text: Piece) -> Result<(), AllocError>
        requires running { is_node_halted self.old.turn.node ≡ false }
        ensures goes { OnOk result (TurnGoesOn self.old self.new) }
        ensures told { OnOk result ((here : Id) (before : Served) (ds : List Deed) → Serves here before ds self.old
            → Serves here before (ds ++ Tells caller text ∷ []) self.new) }
    {
        self.slots.push(Slot::Text { caller, text })?;
        Ok(())
    }

    // The answer to a line of a watcher, for a caller.
    fn watch(&mut self, alloc: Global, caller: usize, line: &WatchLine) -> Result<(), AllocError>
        requires running { is_node_halted self.old.turn.node ≡ false }
        ensures goes { OnOk result (TurnGoesOn self.old self.new) }
        ensures watched { OnOk result ((here : Id) (before : Served) (ds : List Deed) → Serves here before ds self.old
            → Serves here before (ds ++ Watches caller line.now ∷ []) self.new) }
    {
        let answer = answer_watch(alloc, &self.turn, &mut self.watchers, line)?;
        let text = text_of_watch(alloc, &answer)?;
        self.slots.push(Slot::Text { caller, text })?;
        Ok(())
    }

    // What a line asks.
    fn answer(
        &mut self,
        alloc: Global,
        caller: usize,
        asked: Asked,
    ) -> Result<Option<CircuitId>, AllocError>
        requires running { is_node_halted self.old.turn.node ≡ false }
        requires own { IsAskedFor (turn_here self.old) asked }
        ensures goes { OnOk result (TurnGoesOn self.old self.new) }
        ensures takes { IfOk result (λ at. (here : Id) (before : Served) (ds : List Deed) (ns : List Id) (line : List ℕ)
            → asked_by_line here ns line ≡ Some asked → Serves here before ds self.old
            → TakesOne here ns before ds (arrival.Line caller line) at self.new) }
    {
        match asked {
            Asked::At { circuit, event } => {
                self.handle(alloc, Some(caller), &circuit, &event)?;
                Ok(Some(circuit))
            }
            Asked::Roll => {
                let answer = Answer::Roll(self.turn.roll(alloc)?);
                self.tell(caller, text_of(alloc, &answer)?)?;
                Ok(None)
            }
            Asked::Waits { circuit } => {
                let text = waits_at(alloc, &self.turn, &circuit)?;
                self.tell(caller, text)?;
                Ok(None)
            }
            Asked::OfWatcher { line } => {
                self.watch(alloc, caller, line.get())?;
                Ok(None)
            }
        }
    }

    // A line of an operator.
    fn ask(
        &mut self,
        alloc: Global,
        nodes: &[NodeId],
        caller: usize,
        line: &[u8],
    ) -> Result<Option<CircuitId>, AllocError>
        requires running { is_node_halted self.old.turn.node ≡ false }
        ensures goes { OnOk result (TurnGoesOn self.old self.new) }
        ensures takes { IfOk result (λ at. (here : Id) (before : Served) (ds : List Deed) → Serves here before ds self.old
            → TakesOne here nodes.now before ds (arrival.Line caller line.now) at self.new) }
    {
        let here = self.turn.here();
        let asked = match read_asked(alloc, nodes, &here, line) {
            Ok(asked) => asked,
            Err(Unasked::NoMemory) => return Err(AllocError),
            Err(Unasked::BadLine) => {
                self.tell(caller, Piece::from(alloc, b"bad line\n")?)?;
                return Ok(None);
            }
        };
        self.answer(alloc, caller, asked)
    }

    // A message of a peer.
    fn hear(
        &mut self,
        alloc: Global,
        from: NodeId,
        message: Boxed<Message>,
    ) -> Result<Option<CircuitId>, AllocError>
        requires running { is_node_halted self.old.turn.node ≡ false }
        requires written { IsTrue (message_form.fits message) }
        ensures goes { OnOk result (TurnGoesOn self.old self.new) }
        ensures takes { IfOk result (λ at. (here : Id) (before : Served) (ds : List Deed) (ns : List Id) → Serves here before ds self.old
            → TakesOne here ns before ds (arrival.Message from message) at self.new) }
    {
        if !is_heard(&self.turn.here(), &from, message.get()) {
            return Ok(None);
        }
        let circuit = circuit_of(message.get());
        let event = Event::Deliver { from, message };
        self.handle(alloc, None, &circuit, &event)?;
        Ok(Some(circuit))
    }

    // The answer to a line that asks the process to stop.
    fn say_stopping(
        &mut self,
        alloc: Global,
        caller: usize,
    ) -> Result<Option<CircuitId>, AllocError>
        requires running { is_node_halted self.old.turn.node ≡ false }
        ensures goes { OnOk result (TurnGoesOn self.old self.new) }
        ensures takes { IfOk result (λ at. (here : Id) (before : Served) (ds : List Deed) (ns : List Id) → Serves here before ds self.old
            → TakesOne here ns before ds (arrival.Stop caller) at self.new) }
    {
        self.tell(caller, Piece::from(alloc, b"ok stopping\n")?)?;
        Ok(None)
    }

    /// Takes what came, and says at which circuit it was an event. The only error is that memory ran out; after it nothing
    /// more can be kept, and the node is read again from its disks.
    pub fn take(
        &mut self,
        alloc: Global,
        nodes: &[NodeId],
        arrival: Arrival,
    ) -> Result<Option<CircuitId>, AllocError>
        requires running { is_node_halted self.old.turn.node ≡ false }
        requires written { MayArrive arrival }
        ensures goes { OnOk result (TurnGoesOn self.old self.new) }
        ensures takes { IfOk result (λ at. (here : Id) (before : Served) (ds : List Deed) → Serves here before ds self.old
            → TakesOne here nodes.now before ds arrival at self.new) }
    {
        match arrival {
            Arrival::Line { caller, line } => self.ask(alloc, nodes, caller, line.bytes()),
            Arrival::Message { from, message } => self.hear(alloc, from, message),
            Arrival::Stop { caller } => self.say_stopping(alloc, caller),
            Arrival::Tick { circuit } => {
                self.handle(alloc, None, &circuit, &Event::Tick)?;
                Ok(Some(circuit))
            }
        }
    }

    /// Whether a tick has anything to do at the cell of a circuit.
    pub fn is_due(&self, circuit: &CircuitId) -> bool
        ensures { result ≡ is_tick_due (turn_here self.now) (turn_cells self.now) circuit.now }
    {
        self.turn.due(circuit) == Some(true)
    }

    /// Whether a tick would change the cell of a circuit: a round would begin.
    pub fn begins(&self, alloc: Global, circuit: &CircuitId) -> Result<bool, AllocError> {
        if !self.is_due(circuit) {
            return Ok(false);
        }
        match self.turn.cell(circuit) {
            Some(cell) if !cell.is_halted() => {
                Ok(cell.plan(alloc, &Event::Tick)?.changes.len() > 0)
            }
            _ => Ok(false),
        }
    }

    /// Keeps the records of the turn by one append, and then hands out what leaves by it. Where nothing changed no disk is
    /// called. After an error nothing is handed out, and the node is read again from its disks: they stand for the cells
    /// before all of the turn or for those after it.
    pub fn keep<D: Disk>(
        self,
        alloc: Global,
        disks: &mut Pair<D>,
    ) -> Result<(Server, Vec<Departure>), JournalFault>
        requires began { TurnBegan self }
        requires pair { PairStands is_record self.turn.node.pairing (image_now (D.view disks.old.first)) (image_now (D.view disks.old.second)) }

        // What leaves is what the deeds of the turn give, and the server has the cells and the watchers after them.
        ensures here { IfOk result (λ r. server_here r.0 ≡ turn_here self) }
        ensures running { IfOk result (λ r. is_node_halted r.0.node ≡ false) }
        ensures departures { IfOk result (λ r. (here : Id) (before : Served) (ds : List Deed) → Serves here before ds self
            → r.1.items ≡ departures_of here before ds) }
        ensures served { IfOk result (λ r. (here : Id) (before : Served) (ds : List Deed) → Serves here before ds self
            → server_served r.0 ≡ served_past here before ds) }

        // What it did is counted.
        ensures turns { IfOk result (λ r. self.tally.turns + 1 < 2 ^ 64 → r.0.tally.turns ≡ self.tally.turns + 1) }
        ensures events { IfOk result (λ r. (here : Id) (before : Served) (ds : List Deed) → Serves here before ds self
            → self.tally.events + length (events_in ds) < 2 ^ 64 → r.0.tally.events ≡ self.tally.events + length (events_in ds)) }

        // A stop at any moment of the call leaves disks that stand for the cells before the turn or for those after it.
        ensures any_moment { (here : Id) (before : Served) (ds : List Deed) → Serves here before ds self
            → IfBoth (image_now (D.view disks.old.first)) (image_now (D.view disks.old.second)) (λ i j. StandFor here before.cells i.bytes j.bytes
            → PairLeavesInTurn (is_second self.turn.node.pairing) (pair_view D.view disks.old) (pair_view D.view disks.new)
            (λ c d. StandFor here before.cells c d ⊎ StandFor here (cells_past here before.cells ds) c d)) }
        ensures stands { IfOk result (λ r. (here : Id) (before : Served) (ds : List Deed) → Serves here before ds self
            → IfBoth (image_now (D.view disks.old.first)) (image_now (D.view disks.old.second)) (λ i j. StandFor here before.cells i.bytes j.bytes
            → ServerStands r.0 (pair_view D.view disks.new))) }
        ensures pair { IfOk result (λ r. PairStands is_record r.0.node.pairing (image_now (D.view disks.new.first)) (image_now (D.view disks.new.second))) }
        ensures told { OnOk result (PairTellsAs (pair_view D.view disks.old) (pair_view D.view disks.new)) }
        ensures not { (at : ℕ) → IsErrOf result (JournalFault.NotAJournal at) → ⊥ }
        ensures failed { IsErrOf result JournalFault.Disk → HasRisen (pair_view D.view disks.old) (pair_view D.view disks.new) }
        ensures onward { PairOnward (pair_view D.view disks.old) (pair_view D.view disks.new) }
    {
        let ServerTurn {
            turn,
            runs,
            tally,
            watchers,
            slots,
        } = self;
        let (node, given) = turn.keep(alloc, disks)?;
        let tally = tally.after(given.as_slice());
        let departures = hand_out(alloc, slots, given)?;
        let server = Server {
            node,
            runs,
            tally,
            watchers,
        };
        Ok((server, departures))
    }
}
