//! A node of the world.
ghost use Rattle.std.specs.{Prelude.{◌≡◌, ◌⊎◌, ℕ, length, slice_get, None, is_some, if◌then◌else◌, true, false, IfOk, IfSome, IsErrOf}, Option.option_copied};
ghost use Rattle.std.specs.{List.{list_any, Sorted.IsStrictlySortedBy}, Ordering.nat_cmp, Cmp.Lexicographic.slice_cmp, Str.bytes_eq};
ghost use Rattle.spl_edge.specs.Devices.{pair_view};
ghost use Rattle.spl_circuit.specs.Nodes.{NodeId as Id};
ghost use Rattle.spl_cell.specs.Due.{due};
ghost use Rattle.spl_cell_rules.specs.{Cells.{site_at, is_bound}, Changes.stopped_cell, Valid.IsFor};
ghost use Rattle.spl_node.specs.{Stands.{HostStands, HostStandsOn}, Stopping.IsStopping, Kept.state_or_empty, Benches.{AreBlank, Images, Tell, AreSettled}};
ghost use Rattle.spl_node.specs.Benches.{images_of, IsUnread};
ghost use Rattle.spl_world.specs.{Kept.{IsTotal, AllBelong, lists_about, lists_or_none, sent_to}, Held.AreKept, Opening.IsOpened, Slots.CarriesOutEvent};
ghost use Rattle.spl_world.specs.Slots.{ComesUp, EndsAtSlot, EndsSound, GoesDown, GoesDownIn, IsMadeOn, IsNode, KeepsSent, LeavesEvent, MayBeUnread};
ghost use Rattle.spl_world.specs.{Slots.{PicksDown, PicksDownIn}, Views.{node_view, slot_id, slot_up}};

use crate::fault::{WorldFault, journal_fault};
use crate::outbox::Outbox;
use crate::posts::Posts;
use spl_base::{Boxed, CircuitId, Listing, NodeId};
use spl_cell::Cell;
use spl_edge::{Disk, Pair, StopDisk};
use spl_node::{Host, Outcome, Stopping};
use spl_state::RunCache;
use spl_wire::{Answer, Event, Message};
use std::alloc::{AllocError, Global};

/// A node of the world: its host, the position of its disks among the pairs, and what it ever sent.
#[derive(Drop)]
pub struct Slot {
    pub(crate) host: Host,
    pub(crate) position: u8,
    pub(crate) posts: Posts,
}

impl Slot {
    /// A node that is up and where nothing happened, over two blank disks.
    pub fn new<D: Disk>(
        alloc: Global,
        id: NodeId,
        position: u8,
        disks: &mut Pair<D>,
    ) -> Result<Slot, WorldFault>
        requires blank { AreBlank (images_of D.view disks.old) }
        ensures node { IfOk result (IsNode id position) }
        ensures made { IfOk result (IsMadeOn (pair_view D.view disks.old) (pair_view D.view disks.new)) }
        ensures ends { EndsSound result position (pair_view D.view disks.old) (pair_view D.view disks.new) }
    {
        match Host::new(alloc, id, disks) {
            Ok(host) => Ok(Slot {
                host,
                position,
                posts: Posts::new(alloc),
            }),
            Err(fault) => Err(journal_fault(fault, position)),
        }
    }

    /// A node that is up over disks that a former run left, on which nothing is pending. Two blank
    /// disks are those of a node where nothing happened; any others are read, and go on standing for
    /// what they stood for: a journal of an older form is written again. `NotAJournal` comes exactly
    /// where they hold bytes and are no journal, and `Disk` only where one of them failed.
    pub fn open<D: Disk>(
        alloc: Global,
        id: NodeId,
        position: u8,
        disks: &mut Pair<D>,
    ) -> Result<Slot, WorldFault>
        requires settled { AreSettled (images_of D.view disks.old) }
        ensures node { IfOk result (IsNode id position) }
        ensures opened { IfOk result (λ s. IsOpened s (images_of D.view disks.old) (images_of D.view disks.new)) }
        ensures unread { (slot at : ℕ) → IsErrOf result (WorldFault.NotAJournal slot at) → (slot ≡ position)
            × (images_of D.view disks.new ≡ images_of D.view disks.old) × IsUnread at (images_of D.view disks.old) }
        // Whatever the result, its disks were blank, or stand for what they stood for.
        ensures left { AreKept id (images_of D.view disks.old) (images_of D.view disks.new) ⊎ AreBlank (images_of D.view disks.old) }
        ensures ends { EndsAtSlot result position (pair_view D.view disks.old) (pair_view D.view disks.new) }
    {
        match Host::open(alloc, id, disks) {
            Ok(host) => Ok(Slot {
                host,
                position,
                posts: Posts::new(alloc),
            }),
            Err(fault) => Err(journal_fault(fault, position)),
        }
    }

    /// Its id.
    pub fn id(&self) -> &NodeId
        ensures { result.now ≡ slot_id self.now }
    {
        self.host.id()
    }

    /// The position of its disks among the pairs.
    pub fn position(&self) -> usize
        ensures { result ≡ self.now.position }
    {
        usize::from(self.position)
    }

    /// Whether it is up.
    pub fn is_up(&self) -> bool
        ensures { result ≡ slot_up self.now }
    {
        self.host.is_up()
    }

    /// Whether a tick has anything to do at the cell of a circuit; None where the node is down, or
    /// the cell isn't bound and open.
    pub fn due(&self, circuit: &CircuitId) -> Option<bool>
        ensures due { (is : Images) → HostStands self.now.host is.0 is.1
            → result ≡ (if slot_up self.now then due (site_at (slot_id self.now) circuit.now) ((node_view self.now is).cells circuit.now) else None) }
        ensures up { is_some result ≡ true → slot_up self.now ≡ true }
    {
        self.host.due(circuit)
    }

    /// The cell of a circuit; None where the node is down, or nothing is kept of the circuit.
    pub fn cell(&self, circuit: &CircuitId) -> Option<&Cell>
        ensures { (is : Images) → slot_up self.now ≡ true → state_or_empty (option_copied result) ≡ (node_view self.now is).cells circuit.now }
    {
        self.host.cell(circuit)
    }

    /// Makes the digests of the state of a circuit's cell again before an event that reports its root,
    /// or a proof under it; nothing that is seen changes.
    pub fn prepare(&mut self, circuit: &CircuitId, event: &Event, cache: &mut RunCache)
        ensures { self.new ≡ self.old }
    {
        if matches!(event, Event::Root | Event::Prove(_)) {
            self.host.renew(circuit, cache);
        }
    }

    /// An event at the cell of a circuit, and its answer: the plan of the event is carried out, and
    /// its messages are posted. The other cells stay as they were.
    pub fn handle<D: Disk>(
        &mut self,
        alloc: Global,
        disks: &mut Pair<D>,
        circuit: &CircuitId,
        event: &Event,
    ) -> Result<Answer, WorldFault>
        requires up { slot_up self.old ≡ true }
        requires own { IsFor (site_at (slot_id self.old) circuit.now) event.now }
        requires stands { HostStandsOn self.old.host (pair_view D.view disks.old) }
        ensures does { CarriesOutEvent circuit.now event.now result self.old self.new (pair_view D.view disks.old) (pair_view D.view disks.new) }
        ensures leaves { LeavesEvent circuit.now event.now result self.old self.new (pair_view D.view disks.old) (pair_view D.view disks.new) }
        ensures ends { EndsSound result self.old.position (pair_view D.view disks.old) (pair_view D.view disks.new) }
    {
        match self.host.handle(alloc, disks, circuit, event) {
            Ok(Outcome { answer, sends, .. }) => {
                self.posts.post(alloc, *circuit, sends.as_slice())?;
                Ok(answer)
            }
            Err(fault) => Err(journal_fault(fault, self.position)),
        }
    }

    /// The node comes up, with the cells that it had. One that is up stays so.
    pub fn start<D: Disk>(&mut self, alloc: Global, disks: &mut Pair<D>) -> Result<(), WorldFault>
        requires stands { HostStandsOn self.old.host (pair_view D.view disks.old) }
        ensures keeps { KeepsSent self.old self.new }
        ensures comes { ComesUp result self.old self.new (pair_view D.view disks.old) (pair_view D.view disks.new) }
        ensures ends { EndsAtSlot result self.old.position (pair_view D.view disks.old) (pair_view D.view disks.new) }
        ensures journal { MayBeUnread result self.old.position (pair_view D.view disks.old) }
    {
        match self.host.start(alloc, disks) {
            Ok(()) => Ok(()),
            Err(fault) => Err(journal_fault(fault, self.position)),
        }
    }

    /// The node goes down: it forgets its open rounds, and each of its disks keeps what it had at
    /// its last sync. One that is down stays so.
    pub fn stop<D: StopDisk>(
        &mut self,
        alloc: Global,
        disks: &mut Pair<D>,
    ) -> Result<(), AllocError>
        requires stands { HostStandsOn self.old.host (pair_view D.view disks.old) }
        ensures keeps { KeepsSent self.old self.new }
        ensures goes { GoesDown result self.old self.new (pair_view D.view disks.old) (pair_view D.view disks.new) }
        ensures none { slot_up self.old ≡ false → disks.new ≡ disks.old }
        ensures picks { PicksDown result self.old (pair_view D.view disks.old) (pair_view D.view disks.new) }
    {
        self.host.stop(alloc, disks)
    }

    /// The node goes down without a call of its disks: it forgets its open rounds. One that is down
    /// stays so.
    pub fn go_down(&mut self)
        ensures keeps { KeepsSent self.old self.new }
        ensures down { slot_up self.new ≡ false }
        // Where its disks report it keeps its cells except the open rounds.
        ensures stopped { slot_up self.old ≡ true → (is : Images) → HostStands self.old.host is.0 is.1 → Tell is → (c : Id)
            → (node_view self.new is).cells c ≡ stopped_cell ((node_view self.old is).cells c) }
        ensures same { slot_up self.old ≡ false → (is : Images) (c : Id) → (node_view self.new is).cells c ≡ (node_view self.old is).cells c }
        ensures stands { (is : Images) → HostStands self.old.host is.0 is.1 → HostStands self.new.host is.0 is.1 }
    {
        self.host.go_down();
    }

    /// The node goes down in an event at the cell of a circuit, or in none: it forgets its open
    /// rounds, the changes of the event are made where the disks have their record, and nothing is
    /// posted. Answers whether the event has changes.
    pub fn stop_in<D: StopDisk>(
        &mut self,
        alloc: Global,
        disks: &mut Pair<D>,
        circuit: &CircuitId,
        event: Option<&Event>,
        stopping: Stopping,
    ) -> Result<bool, AllocError>
        requires up { slot_up self.old ≡ true }
        requires own { IfSome (option_copied event) (IsFor (site_at (slot_id self.old) circuit.now)) }
        requires calls { IsStopping stopping }
        requires stands { HostStandsOn self.old.host (pair_view D.view disks.old) }
        ensures keeps { KeepsSent self.old self.new }
        ensures goes { GoesDownIn circuit.now (option_copied event.entry) stopping result self.old self.new
            (pair_view D.view disks.old) (pair_view D.view disks.new) }
        ensures picks { PicksDownIn circuit.now (option_copied event.entry) stopping result self.old
            (pair_view D.view disks.old) (pair_view D.view disks.new) }
    {
        self.host.stop_in(alloc, disks, circuit, event, stopping)
    }

    /// The ids of the circuits that are bound there, in order.
    pub fn roll(&self, alloc: Global) -> Result<Listing<CircuitId>, AllocError>
        requires { slot_up self.now ≡ true }
        ensures sorted { IfOk result (λ ids. IsStrictlySortedBy (slice_cmp nat_cmp) ids) }
        ensures bound { IfOk result (λ ids. (is : Images) (c : Id) → list_any (bytes_eq c) ids ≡ is_bound ((node_view self.now is).cells c)) }
    {
        self.host.roll(alloc)
    }

    /// What it sent about a circuit; None only where that is nothing.
    pub fn outbox(&self, circuit: &CircuitId) -> Option<&Outbox>
        ensures { lists_or_none (option_copied result) ≡ lists_about self.now.posts circuit.now }
    {
        self.posts.outbox(circuit)
    }

    /// How many messages about a circuit were sent to a node.
    pub fn count(&self, circuit: &CircuitId, to: &NodeId) -> usize
        ensures { result ≡ length (sent_to (lists_about self.now.posts circuit.now) to.now) }
    {
        self.posts.count(circuit, to)
    }

    /// How many messages about a circuit it sent, to any nodes.
    pub fn total(&self, circuit: &CircuitId) -> usize
        ensures { IsTotal result (lists_about self.now.posts circuit.now) }
    {
        self.posts.total(circuit)
    }

    /// The message of this index, from 0, of those about a circuit that were sent to a node; None
    /// exactly where there are fewer.
    pub fn message(&self, circuit: &CircuitId, to: &NodeId, index: usize) -> Option<&Boxed<Message>>
        ensures value { option_copied result ≡ slice_get (sent_to (lists_about self.now.posts circuit.now) to.now) index }
        ensures about { AllBelong circuit.now (sent_to (lists_about self.now.posts circuit.now) to.now) }
    {
        self.posts.message(circuit, to, index)
    }
}
