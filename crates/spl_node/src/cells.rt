//! The cells of a node.
ghost use Rattle.std.specs.{Prelude.{◌≡◌, true, IsTrue, [], Some, IfOk, OnOk, OnErr}, Ordering.nat_cmp, Cmp.Lexicographic.slice_cmp, BTreeMap.insert_entry};
ghost use Rattle.std.specs.{List.Sorted.IsStrictlySortedBy, Option.{option_copied, option_map}, Map.keys_of};
ghost use Rattle.spl_circuit.specs.Nodes.{NodeId, CircuitId};
ghost use Rattle.spl_wire.specs.Forms.{record_form};
ghost use Rattle.spl_cell_rules.specs.{Cells.{Empty, Site, site_at}, Plans.plan_of, Valid.{IsFor, IsKept}};
ghost use Rattle.spl_cell.specs.{Due.due, States.IsStill, Views.bound_in};
ghost use Rattle.spl_node.specs.{Done.{IsGiven, no_circuit}, Kept.{cell_at, cells_after, cells_with, state_or_empty, AreOwn, IsOwn}};

use crate::done::{Done, handled, no_circuit, replayed};
use spl_base::{CircuitId, NodeId};
use spl_cell::{Cell, Held};
use spl_cell_rules::{cells_stay_valid, records_are_formed};
use spl_state::RunCache;
use spl_wire::{Event, Record};
use std::alloc::{AllocError, Global};
use std::collections::BTreeMap;
use std::marker::Model;

/// The cells of a node by their circuits, those that aren't empty. Contracts see the node, and the
/// cells in the order of the ids.
#[derive(Drop)]
pub struct Cells {
    here: NodeId,
    pub(crate) map: BTreeMap<CircuitId, Cell>,
}

impl Model for Cells {
    ghost use Rattle.spl_node.specs.Kept.{CellsView, AreOwn};

    ghost Value = { CellsView };

    ghost view = { λ s. record { here = s.here; entries = s.map.entries } };

    ghost invariant = { λ s. AreOwn s.here s.map.entries };
}

/// A cell more is kept, unless it is empty. The only error is that memory ran out.
fn keep(
    map: &mut BTreeMap<CircuitId, Cell>,
    circuit: CircuitId,
    cell: Cell,
) -> Result<(), AllocError>
    ensures kept { OnOk result (map.new.entries ≡ insert_entry (slice_cmp nat_cmp) map.old.entries circuit cell) }
    ensures err { OnErr result (map.new.entries ≡ map.old.entries) }
{
    match map.insert(circuit, cell) {
        Ok(_) => Ok(()),
        Err(_) => Err(AllocError),
    }
}

/// An empty cell, whose circuit has an id that can be written.
#[tactic(auto, using(spl_cell_rules::proofs::Named::named_circuit))]
fn fresh(here: NodeId, circuit: CircuitId) -> Cell
    ensures empty { result.state ≡ Empty }
    ensures own { IsOwn here circuit result }
{
    let _ = circuit.bytes();
    Cell::empty(here, circuit)
}

/// Whether an event is refused with `NoCircuit` where nothing is kept of the circuit.
fn needs_circuit(event: &Event) -> bool
    ensures { result ≡ true → (site : Site) → plan_of site Empty event.now ≡ no_circuit }
{
    !matches!(
        event,
        Event::Propose(_) | Event::Route { .. } | Event::Deliver { .. }
    )
}

impl Cells {
    /// No cell is kept; nothing is allocated.
    pub fn new(alloc: Global, here: NodeId) -> Cells
        ensures here { result.here ≡ here }
        ensures none { result.entries ≡ [] }
    {
        Cells {
            here,
            map: BTreeMap::new(alloc),
        }
    }

    /// The node.
    pub fn here(&self) -> NodeId
        ensures { result ≡ self.now.here }
    {
        self.here
    }

    /// The cells are those of the node, and in the order of the ids.
    pub fn is_ordered(&self)
        ensures own { AreOwn self.now.here self.now.entries }
        ensures ordered { IsStrictlySortedBy (slice_cmp nat_cmp) (keys_of self.now.entries) }
    {
        let _ = self.map.len();
    }

    /// The cell of each circuit keeps what a cell keeps.
    pub fn is_kept(&self)
        ensures { (c : CircuitId) → IsKept (site_at self.now.here c) (cell_at self.now.entries c) }
    {
        cells_stay_valid();
        records_are_formed();
        self.is_ordered();
    }

    /// Whether a tick has anything to do at the cell of a circuit; None where it isn't bound and
    /// open.
    pub fn due(&self, circuit: &CircuitId) -> Option<bool>
        ensures { result ≡ due (site_at self.now.here circuit.now) (cell_at self.now.entries circuit.now) }
    {
        match self.map.get(circuit) {
            Some(cell) => cell.due(),
            None => None,
        }
    }

    /// What is kept of a circuit; None exactly where its cell isn't bound.
    pub fn held(&self, circuit: &CircuitId) -> Option<&Held>
        ensures { option_map (λ h. h.now.bound) result ≡ bound_in (cell_at self.now.entries circuit.now) }
    {
        match self.map.get(circuit) {
            Some(cell) => cell.held(),
            None => None,
        }
    }

    /// The cell of a circuit; None where nothing is kept of it.
    pub fn cell(&self, circuit: &CircuitId) -> Option<&Cell>
        ensures { state_or_empty (option_copied result) ≡ cell_at self.now.entries circuit.now }
    {
        self.map.get(circuit)
    }

    /// Carries out the plan of an event at the cell of a circuit. After an error, which comes
    /// only when memory runs out, that cell is lost.
    #[inline(always)]
    pub fn handle(
        &mut self,
        alloc: Global,
        circuit: CircuitId,
        event: &Event,
    ) -> Result<Done, AllocError>
        requires { IsFor (site_at self.old.here circuit) event.now }
        ensures here { self.new.here ≡ self.old.here }
        ensures cells { OnOk result ((c : CircuitId) → cell_at self.new.entries c ≡ cells_after self.old.here (cell_at self.old.entries) circuit event.now c) }
        ensures given { IfOk result (λ done. IsGiven (site_at self.old.here circuit) (cell_at self.old.entries circuit)
            (plan_of (site_at self.old.here circuit) (cell_at self.old.entries circuit) event.now) done) }
    {
        if let Some(cell) = self.map.get_mut(&circuit) {
            return handled(cell, alloc, event);
        }
        if needs_circuit(event) {
            return Ok(no_circuit(alloc));
        }
        self.handle_first(alloc, circuit, event)
    }

    /// The same where nothing is kept of the circuit. It isn't inlined, so that room for a cell is
    /// made only here.
    #[inline(never)]
    fn handle_first(
        &mut self,
        alloc: Global,
        circuit: CircuitId,
        event: &Event,
    ) -> Result<Done, AllocError>
        requires own { IsFor (site_at self.old.here circuit) event.now }
        requires empty { cell_at self.old.entries circuit ≡ Empty }
        ensures here { self.new.here ≡ self.old.here }
        ensures cells { OnOk result ((c : CircuitId) → cell_at self.new.entries c ≡ cells_after self.old.here (cell_at self.old.entries) circuit event.now c) }
        ensures given { IfOk result (λ done. IsGiven (site_at self.old.here circuit) (cell_at self.old.entries circuit)
            (plan_of (site_at self.old.here circuit) (cell_at self.old.entries circuit) event.now) done) }
    {
        let mut cell = fresh(self.here, circuit);
        let done = handled(&mut cell, alloc, event)?;
        if cell.is_empty() {
            return Ok(done);
        }
        keep(&mut self.map, circuit, cell)?;
        Ok(done)
    }

    /// Makes the digests of the state of a circuit's cell again, so that reporting its root costs
    /// nothing; nothing that is seen changes.
    pub fn renew(&mut self, circuit: &CircuitId, cache: &mut RunCache)
        ensures { self.new ≡ self.old }
    {
        if let Some(cell) = self.map.get_mut(circuit) {
            cell.renew(cache);
        }
    }

    /// Makes the changes of a record that was read at the cell of its circuit. After an error,
    /// which comes only when memory runs out, that cell is lost.
    pub fn replay(&mut self, alloc: Global, found: Record) -> Result<(), AllocError>
        requires still { (c : CircuitId) → IsStill (cell_at self.old.entries c) }
        requires written { IsTrue (record_form.fits found) }
        ensures here { self.new.here ≡ self.old.here }
        ensures cells { OnOk result ((c : CircuitId) → cell_at self.new.entries c ≡ cells_with self.old.here
            (cell_at self.old.entries) found.circuit found.changes c) }
        ensures still { OnOk result ((c : CircuitId) → IsStill (cell_at self.new.entries c)) }
    {
        records_are_formed();
        let Record { circuit, changes } = found;
        if let Some(cell) = self.map.get_mut(&circuit) {
            return replayed(cell, alloc, &changes);
        }
        let mut cell = fresh(self.here, circuit);
        replayed(&mut cell, alloc, &changes)?;
        if cell.is_empty() {
            return Ok(());
        }
        keep(&mut self.map, circuit, cell)
    }
}
