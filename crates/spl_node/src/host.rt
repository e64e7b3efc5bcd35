//! A node that goes down and comes up over its two disks.
ghost use Rattle.std.specs.Prelude.{◌≡◌, ◌⊎◌, ◌≤◌, [], ℕ, true, false, if◌then◌else◌, Option, None, Err, is_some, IsOk, OnOk, IfOk, IfSome, IsErrOf};
ghost use Rattle.std.specs.{List.{list_any, Sorted.IsStrictlySortedBy}, Option.option_copied, Ordering.nat_cmp, Cmp.Lexicographic.slice_cmp, Str.bytes_eq};
ghost use Rattle.spl_circuit.specs.Nodes.{NodeId, CircuitId};
ghost use Rattle.spl_edge.specs.Devices.{Rose, Image, IsSettled, image_now, pair_view, Onward};
ghost use Rattle.spl_journal.specs.Records.{IsBlank};
ghost use Rattle.spl_snapshot.specs.Counting.{IfBoth, IfPairTells, PairLeaves, TellsAs, PairOnward, PairStays, PairTellsAs, HasRisen};
ghost use Rattle.spl_cell_rules.specs.{Cells.{Empty, is_bound, site_at}, Changes.stopped_cell, Valid.IsFor};
ghost use Rattle.spl_cell.specs.Due.{due};
ghost use Rattle.spl_node.specs.Handled.{FailsStopped, ForgetsNothing, HandleEnds, LeavesHandled, PicksStopped, StopsIn, cells_on, changes_on, plan_on};
ghost use Rattle.spl_node.specs.Stands.{BothTell, HostStands, HostStandsOn, PairTells, PicksOld, host_id, host_cell, host_cell_on, host_second, is_host_up};
ghost use Rattle.spl_node.specs.{Stands.{made_cell_on, HoldAs, IsWritten, StandOn, WereBlank, disk_records, StandFor}, Kept.state_or_empty, Steps.Gives};
ghost use Rattle.spl_node.specs.{Stopping.{BothPickAtMostOnce, IsStopping, StandForEither}, declared.host.Host.Host as Kept};

use crate::keeper::are_blank;
use crate::stopping::{arm, handle_armed, pick_both};
use crate::{Node, Outcome, Stopping};
use spl_base::{CircuitId, Listing, NodeId};
use spl_cell::Cell;
use spl_edge::{Disk, Fill, Pair, StopDisk};
use spl_journal::JournalFault;
use spl_state::RunCache;
use spl_wire::Event;
use std::alloc::{AllocError, Global};

/// A node that is up or down. While it is up its cells are in memory; while it is down they are
/// those that its disks make again.
#[derive(Drop)]
pub struct Host {
    id: NodeId,
    node: Option<Node>,
}

impl Host {
    /// A node that is up and where nothing happened, over two blank disks; the journal is made on
    /// the first.
    pub fn new<D: Disk>(
        alloc: Global,
        id: NodeId,
        disks: &mut Pair<D>,
    ) -> Result<Host, JournalFault>
        requires first { IfSome (image_now (D.view disks.old.first)) IsBlank }
        requires second { IfSome (image_now (D.view disks.old.second)) IsBlank }
        ensures id { IfOk result (λ h. host_id h ≡ id) }
        ensures up { IfOk result (λ h. is_host_up h ≡ true) }
        ensures empty { IfOk result (λ h. (first second : Option Image) (c : CircuitId) → host_cell h first second c ≡ Empty) }
        ensures stands { IfOk result (λ h. HostStandsOn h (pair_view D.view disks.new)) }
        ensures told_first { OnOk result (TellsAs (image_now (D.view disks.old.first)) (image_now (D.view disks.new.first))) }
        ensures not { (at : ℕ) → IsErrOf result (JournalFault.NotAJournal at) → ⊥ }
        ensures failed { IsErrOf result JournalFault.Disk → Rose (D.view disks.old.first).faults (D.view disks.new.first).faults }
        ensures on_first { Onward (D.view disks.old.first) (D.view disks.new.first) }
        ensures second { disks.new.second ≡ disks.old.second }
    {
        let node = Node::create(alloc, id, disks)?;
        Ok(Host {
            id,
            node: Some(node),
        })
    }

    /// A node that is up over disks that a former run left, on which nothing is pending. Two blank
    /// disks are those of a node where nothing happened, and a journal is made on the first; any
    /// others are read, and hold what they held, but that a journal of an older form is written
    /// again on the disk that doesn't count. `NotAJournal` comes exactly where they hold bytes and
    /// are no journal, and `Disk` only where one of them failed.
    pub fn open<D: Disk>(
        alloc: Global,
        id: NodeId,
        disks: &mut Pair<D>,
    ) -> Result<Host, JournalFault>
        requires first { IfSome (image_now (D.view disks.old.first)) IsSettled }
        requires second { IfSome (image_now (D.view disks.old.second)) IsSettled }
        ensures id { IfOk result (λ h. host_id h ≡ id) }
        ensures up { IfOk result (λ h. is_host_up h ≡ true) }
        ensures stands { IfOk result (λ h. HostStandsOn h (pair_view D.view disks.new)) }
        ensures cells { IfOk result (λ h. PairTells (pair_view D.view disks.old)
            → (first second : Option Image) (c : CircuitId) → host_cell h first second c
            ≡ made_cell_on id c (pair_view D.view disks.old)) }
        ensures journal { OnOk result (IfPairTells (pair_view D.view disks.old)
            (λ i j. IsOk (disk_records i.bytes j.bytes))) }
        ensures not { (at : ℕ) → IsErrOf result (JournalFault.NotAJournal at)
            → IfPairTells (pair_view D.view disks.old)
            (λ i j. disk_records i.bytes j.bytes ≡ Err at) }
        ensures told { OnOk result (PairTellsAs (pair_view D.view disks.old) (pair_view D.view disks.new)) }

        // The disks hold what they held; or they were blank, or stand for the same cells at any moment of the call, and
        // then `NotAJournal` doesn't come.
        ensures still { HoldAs (pair_view D.view disks.old) (pair_view D.view disks.new)
            ⊎ (WereBlank (pair_view D.view disks.old) ⊎ StandOn id (pair_view D.view disks.old) (pair_view D.view disks.new)) }
        ensures unread { (at : ℕ) → IsErrOf result (JournalFault.NotAJournal at)
            → HoldAs (pair_view D.view disks.old) (pair_view D.view disks.new) }
        ensures failed { IsErrOf result JournalFault.Disk → HasRisen (pair_view D.view disks.old) (pair_view D.view disks.new) }
        ensures onward { PairOnward (pair_view D.view disks.old) (pair_view D.view disks.new) }
    {
        if are_blank(disks)? {
            return Host::new(alloc, id, disks);
        }
        let node = Node::open(alloc, id, disks)?;
        Ok(Host {
            id,
            node: Some(node),
        })
    }

    /// Its id.
    pub fn id(&self) -> &NodeId
        ensures { result.now ≡ host_id self.now }
    {
        &self.id
    }

    /// Whether it is up.
    pub fn is_up(&self) -> bool
        ensures { result ≡ is_host_up self.now }
    {
        self.node.is_some()
    }

    /// Whether a tick has anything to do at the cell of a circuit; None where the node is down, or
    /// the cell isn't bound and open.
    pub fn due(&self, circuit: &CircuitId) -> Option<bool>
        ensures due { (first second : Option Image) → HostStands self.now first second
            → result ≡ (if is_host_up self.now then due (site_at (host_id self.now) circuit.now) (host_cell self.now first second circuit.now) else None) }
        ensures up { is_some result ≡ true → is_host_up self.now ≡ true }
    {
        match &self.node {
            Some(node) => node.due(circuit),
            None => None,
        }
    }

    /// The cell of a circuit; None where the node is down, or nothing is kept of the circuit.
    pub fn cell(&self, circuit: &CircuitId) -> Option<&Cell>
        ensures { (first second : Option Image) → is_host_up self.now ≡ true
            → state_or_empty (option_copied result) ≡ host_cell self.now first second circuit.now }
    {
        match &self.node {
            Some(node) => node.cell(circuit),
            None => None,
        }
    }

    /// Makes the digests of the state of a circuit's cell again, where the node is up, so that
    /// reporting its root costs nothing; nothing that is seen changes.
    pub fn renew(&mut self, circuit: &CircuitId, cache: &mut RunCache)
        ensures { self.new ≡ self.old }
    {
        if let Some(node) = &mut self.node {
            node.renew(circuit, cache);
        }
    }

    /// An event at the cell of a circuit. The record of what it changes is kept before the answer
    /// comes. After an error the disks have to be read again.
    pub fn handle<D: Disk>(
        &mut self,
        alloc: Global,
        disks: &mut Pair<D>,
        circuit: &CircuitId,
        event: &Event,
    ) -> Result<Outcome, JournalFault>
        requires up { is_host_up self.old ≡ true }
        requires own { IsFor (site_at (host_id self.old) circuit.now) event.now }
        requires stands { HostStandsOn self.old (pair_view D.view disks.old) }
        ensures id { host_id self.new ≡ host_id self.old }
        ensures up { is_host_up self.new ≡ true }
        ensures gives { IfOk result (Gives (plan_on self.old (pair_view D.view disks.old) circuit.now event.now)) }

        // The plan is carried out at the cell of the circuit, and the other cells stay.
        ensures cells { OnOk result ((first second : Option Image) (c : CircuitId) → host_cell self.new first second c
            ≡ cells_on self.old (pair_view D.view disks.old) circuit.now event.now c) }

        // A stop at any moment of the call leaves disks that stand for the cells before the event or for those after it.
        ensures leaves { LeavesHandled circuit.now event.now result self.old self.new (pair_view D.view disks.old) (pair_view D.view disks.new) }
        ensures no_calls { (plan_on self.old (pair_view D.view disks.old) circuit.now event.now).changes ≡ [] → disks.new ≡ disks.old }
        ensures ends { HandleEnds result (pair_view D.view disks.old) (pair_view D.view disks.new) }
    {
        let Some(node) = &mut self.node else {
            unreachable!();
        };
        node.step(alloc, disks, circuit, event)
    }

    /// Takes the node down: nothing of it stays in memory, and each of its disks keeps what it had
    /// at its last sync. A node that is down stays as it is. The only error is that memory ran out.
    pub fn stop<D: StopDisk>(
        &mut self,
        alloc: Global,
        disks: &mut Pair<D>,
    ) -> Result<(), AllocError>
        requires stands { HostStandsOn self.old (pair_view D.view disks.old) }
        ensures id { host_id self.new ≡ host_id self.old }
        ensures down { OnOk result (is_host_up self.new ≡ false) }
        ensures stands { OnOk result (HostStandsOn self.new (pair_view D.view disks.new)) }

        // A node that was up forgets its open rounds; nothing changes where it was down.
        ensures cells { OnOk result (is_host_up self.old ≡ true → (c : CircuitId)
            → host_cell_on self.new (pair_view D.view disks.new) c ≡ stopped_cell
            (host_cell_on self.old (pair_view D.view disks.old) c)) }
        ensures same { is_host_up self.old ≡ false → (self.new ≡ self.old) × (disks.new ≡ disks.old) }

        // Where it was up each disk picks what it had at its last sync, and these images stand for the cells.
        ensures picks_first { OnOk result (is_host_up self.old ≡ true → PicksOld (D.view disks.old.first) (D.view disks.new.first)) }
        ensures picks_second { OnOk result (is_host_up self.old ≡ true → PicksOld (D.view disks.old.second) (D.view disks.new.second)) }
        ensures picked { OnOk result (is_host_up self.old ≡ true → IfPairTells (pair_view D.view disks.new)
            (λ i j. StandFor (host_id self.old) (host_cell_on self.old (pair_view D.view disks.old))
            i.bytes j.bytes)) }

        // Whatever the result, a stop leaves what stands for the cells.
        ensures leaves { PairLeaves (pair_view D.view disks.new) (pair_view D.view disks.new)
            (StandFor (host_id self.old) (host_cell_on self.old (pair_view D.view disks.old))) }
        ensures once { BothPickAtMostOnce (pair_view D.view disks.old) (pair_view D.view disks.new) }
        ensures first_stays { (D.view disks.old.first).faults ≤ (D.view disks.new.first).faults }
        ensures second_stays { (D.view disks.old.second).faults ≤ (D.view disks.new.second).faults }
    {
        if self.node.is_none() {
            return Ok(());
        }
        self.node = None;
        pick_both(alloc, disks, Fill::Old)
    }

    /// Takes the node down without a call of its disks: nothing of it stays in memory. A node that
    /// is down stays as it is.
    pub fn go_down(&mut self)
        ensures id { host_id self.new ≡ host_id self.old }
        ensures down { is_host_up self.new ≡ false }
        ensures same { is_host_up self.old ≡ false → self.new ≡ self.old }

        // Its disks are as it takes them, and where both report it keeps its cells except their open rounds.
        ensures stands { (first second : Option Image) → HostStands self.old first second → HostStands self.new first second }
        ensures cells { (first second : Option Image) → HostStands self.old first second → BothTell first second → (c : CircuitId)
            → host_cell self.new first second c ≡ stopped_cell (host_cell self.old first second c) }
    {
        self.node.take();
    }

    /// Takes the node down in an event at the cell of a circuit, or in none: its disks are armed, the
    /// event is handled, and each disk picks what it keeps. Nothing is sent. It says whether the
    /// event has changes. The only error is that memory ran out.
    pub fn stop_in<D: StopDisk>(
        &mut self,
        alloc: Global,
        disks: &mut Pair<D>,
        circuit: &CircuitId,
        event: Option<&Event>,
        stopping: Stopping,
    ) -> Result<bool, AllocError>
        requires up { is_host_up self.old ≡ true }
        requires own { IfSome (option_copied event) (IsFor (site_at (host_id self.old) circuit.now)) }
        requires calls { IsStopping stopping }
        requires stands { HostStandsOn self.old (pair_view D.view disks.old) }
        ensures id { host_id self.new ≡ host_id self.old }

        // The changes are made where their record is kept, and the open rounds are forgotten.
        ensures stops { StopsIn circuit.now (option_copied event.entry) stopping result self.old self.new
            (pair_view D.view disks.old) (pair_view D.view disks.new) }
        ensures picks { PicksStopped stopping result (host_second self.old) (pair_view D.view disks.old) (pair_view D.view disks.new) }

        // Whatever the result, a stop leaves what stands for the cells before the event or for those after the stop in it.
        ensures leaves { PairLeaves (pair_view D.view disks.new) (pair_view D.view disks.new)
            (StandForEither (host_id self.old) (host_cell_on self.old (pair_view D.view disks.old)) circuit.now
            (changes_on self.old (pair_view D.view disks.old) circuit.now (option_copied event.entry))) }
        ensures fails { FailsStopped D.view circuit.now (option_copied event.entry) stopping result self.old disks.old disks.new }
        ensures forgets { ForgetsNothing (pair_view D.view disks.old) (pair_view D.view disks.new) }
    {
        let Some(mut node) = self.node.take() else {
            unreachable!();
        };
        arm(disks, node.counting() == 1, stopping);
        let changed = handle_armed(&mut node, alloc, disks, circuit, event, stopping)?;
        pick_both(alloc, disks, stopping.fill())?;
        Ok(changed)
    }

    /// Brings the node up: its cells are those that its disks make. A journal of an older form is
    /// written again on the disk that doesn't count. A node that is up stays as it is.
    pub fn start<D: Disk>(&mut self, alloc: Global, disks: &mut Pair<D>) -> Result<(), JournalFault>
        requires stands { HostStandsOn self.old (pair_view D.view disks.old) }
        ensures id { host_id self.new ≡ host_id self.old }
        ensures up { OnOk result (is_host_up self.new ≡ true) }
        ensures stands { OnOk result (HostStandsOn self.new (pair_view D.view disks.new)) }
        ensures cells { OnOk result (PairTells (pair_view D.view disks.old) → (c : CircuitId)
            → host_cell_on self.new (pair_view D.view disks.new) c ≡ host_cell_on self.old
            (pair_view D.view disks.old) c) }
        ensures same { is_host_up self.old ≡ true → (self.new ≡ self.old) × (disks.new ≡ disks.old) }
        ensures not { PairTells (pair_view D.view disks.old) → (at : ℕ)
            → IsErrOf result (JournalFault.NotAJournal at) → ⊥ }
        ensures failed { IsErrOf result JournalFault.Disk → HasRisen (pair_view D.view disks.old) (pair_view D.view disks.new) }
        ensures told { OnOk result (PairTellsAs (pair_view D.view disks.old) (pair_view D.view disks.new)) }

        // Whatever the result, a stop at any moment of the call leaves disks that stand for the cells. They are only read
        // where the journal is of the form in which journals are made.
        ensures any_moment { IfPairTells (pair_view D.view disks.old)
            (λ i j. PairLeaves (pair_view D.view disks.old) (pair_view D.view disks.new)
            (StandFor (host_id self.old) (host_cell_on self.old (pair_view D.view disks.old)))) }
        ensures written { IfPairTells (pair_view D.view disks.old)
            (λ i j. IsWritten i.bytes j.bytes → PairStays (pair_view D.view disks.old) (pair_view D.view disks.new)) }
        ensures onward { PairOnward (pair_view D.view disks.old) (pair_view D.view disks.new) }
    {
        if self.node.is_some() {
            return Ok(());
        }
        let node = Node::open(alloc, self.id, disks)?;
        self.node = Some(node);
        Ok(())
    }

    /// The ids of the circuits that are bound here, in order. The only error is that memory ran out.
    pub fn roll(&self, alloc: Global) -> Result<Listing<CircuitId>, AllocError>
        requires { is_host_up self.now ≡ true }
        ensures sorted { IfOk result (λ ids. IsStrictlySortedBy (slice_cmp nat_cmp) ids) }
        ensures bound { IfOk result (λ ids. (first second : Option Image) (c : CircuitId)
            → list_any (bytes_eq c) ids ≡ is_bound (host_cell self.now first second c)) }
    {
        match &self.node {
            Some(node) => node.roll(alloc),
            None => unreachable!(),
        }
    }
}

/// The disks of a node stand for its cells, whether it is up or down.
pub fn disks_stand_for_cells()
    ensures { (h : Kept) (first second : Option Image) → HostStands h first second
        → IfBoth first second (λ i j. StandFor (host_id h) (host_cell h first second) i.bytes j.bytes) }
{}
