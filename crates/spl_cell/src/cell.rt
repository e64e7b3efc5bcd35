//! The cell of a circuit at a node.
ghost use Rattle.std.specs.{Prelude.{◌≡◌, true, false, IsTrue, IfOk, OnOk, OnErr}, List.list_all, Option.{option_copied, option_map}};
ghost use Rattle.spl_wire.specs.{Changes.change_form, Bounds.{IsWritable, AllSendable}, Grouping.{grouped, grouped_records, spelled}};
ghost use Rattle.spl_cell_rules.specs.{Pack.packed, Cells.{Empty, is_bound, is_empty_cell}, Plans.plan_of, Changes.{changes_made, applied, moved_cell}};
ghost use Rattle.spl_cell_rules.specs.{Changes.stopped_cell, Valid.{IsValid, IsFor, FitsMoveAt, are_formed, are_legal}};
ghost use Rattle.spl_cell.specs.{Due.due, Fits.all_fit, States.IsStill, Reading.{bound_definition, running_batches, act_at, batch_at}, Views.bound_in};

use crate::held::Held;
use crate::site::Site;
use crate::state::State;
use spl_agree::Place;
use spl_base::{CircuitId, NodeId};
use spl_cell_rules::{
    cells_stay_valid, packed_cells_have_a_form, plans_fit_cells, plans_have_bounds,
};
use spl_circuit::{Act, Definition};
use spl_command::Batch;
use spl_scabbard::Service;
use spl_state::RunCache;
use spl_wire::{ChangeList, Event, PackedRecords, Plan, packed_records};
use std::alloc::{AllocError, Global};
use std::marker::Model;
use std::mem;

/// What a node keeps about one circuit (docs/RULES.md, Cells). Contracts see the node, the circuit,
/// the cell of the rules, and whether it is halted: a change that found no memory was lost, so that
/// nothing more may be asked of the cell.
#[derive(Drop)]
pub struct Cell {
    site: Site,
    state: State,
    halted: bool,
}

impl Model for Cell {
    ghost use Rattle.spl_cell_rules.specs.Valid.{IsValid};
    ghost use Rattle.spl_cell.specs.{Sites.site_of, Views.CellView, States.{cell_of, IsAt}};

    ghost Value = { CellView };

    ghost view = { λ s. record { site = site_of s.site; state = cell_of s.state; halted = s.halted } };

    ghost invariant = { λ s. IsAt (site_of s.site) s.state × IsValid (site_of s.site) (cell_of s.state) };
}

impl Cell {
    /// An empty cell.
    pub fn empty(here: NodeId, circuit: CircuitId) -> Cell
        ensures { result ≡ record { site = record { here = here; circuit = circuit }; state = Empty; halted = false } }
    {
        Cell {
            site: Site { here, circuit },
            state: State::Empty,
            halted: false,
        }
    }

    /// The node.
    pub fn here(&self) -> NodeId
        ensures { result ≡ self.now.site.here }
    {
        self.site.here
    }

    /// The circuit.
    pub fn circuit(&self) -> CircuitId
        ensures { result ≡ self.now.site.circuit }
    {
        self.site.circuit
    }

    /// Whether a change found no memory.
    pub fn is_halted(&self) -> bool
        ensures { result ≡ self.now.halted }
    {
        self.halted
    }

    /// Whether the cell is bound to a definition.
    pub fn bound(&self) -> bool
        requires running { self.now.halted ≡ false }
        ensures { result ≡ is_bound self.now.state }
    {
        matches!(self.state, State::Held(_))
    }

    /// What it keeps of the circuit; None exactly where it isn't bound.
    pub fn held(&self) -> Option<&Held>
        requires running { self.now.halted ≡ false }
        ensures { option_map (λ h. h.now.bound) result ≡ bound_in self.now.state }
    {
        match &self.state {
            State::Held(held) => Some(held),
            _ => None,
        }
    }

    /// The definition that the cell is bound to; None where it isn't bound.
    pub fn definition(&self) -> Option<&Definition>
        ensures { option_copied result ≡ bound_definition self.now.state }
    {
        match &self.state {
            State::Held(held) => Some(held.definition()),
            _ => None,
        }
    }

    /// What the batches that are committed here have left; None where the cell isn't bound, or its
    /// circuit doesn't run here.
    pub fn service(&self) -> Option<&Service>
        ensures { option_copied result ≡ running_batches self.now.state }
    {
        match &self.state {
            State::Held(held) => held.running_service(),
            _ => None,
        }
    }

    /// The act that is committed here at a place; None exactly where the cell isn't bound, or has no
    /// such place.
    pub fn act_at(&self, place: Place) -> Option<&Act>
        ensures { option_copied result ≡ act_at self.now.state place }
    {
        match &self.state {
            State::Held(held) => held.acts().get(place.0 as usize),
            _ => None,
        }
    }

    /// The batch that is committed here at a place; None exactly where the cell isn't bound, or has
    /// no such place. One of a circuit that doesn't run any more is given too.
    pub fn batch_at(&self, place: Place) -> Option<&Batch>
        ensures { option_copied result ≡ batch_at self.now.state place }
    {
        match &self.state {
            State::Held(held) => held.batches().get(place.0 as usize),
            _ => None,
        }
    }

    /// Whether nothing is kept.
    pub fn is_empty(&self) -> bool
        requires running { self.now.halted ≡ false }
        ensures { result ≡ is_empty_cell self.now.state }
    {
        matches!(self.state, State::Empty)
    }

    /// Whether a tick has anything to do here; None where the cell isn't bound, or the node takes no
    /// part any more.
    pub fn due(&self) -> Option<bool>
        requires running { self.now.halted ≡ false }
        ensures { result ≡ due self.now.site self.now.state }
    {
        match &self.state {
            State::Held(held) => held.due(),
            _ => None,
        }
    }

    /// What an event gives: an answer, durable changes, a move of the open round of each group, and
    /// messages. Nothing is changed. The only error is that memory ran out.
    #[inline(always)]
    pub fn plan(&self, alloc: Global, event: &Event) -> Result<Plan, AllocError>
        requires running { self.now.halted ≡ false }
        requires own { IsFor self.now.site event.now }
        ensures plan { IfOk result (λ p. p ≡ plan_of self.now.site self.now.state event.now) }
        ensures valid { IsValid self.now.site self.now.state }

        // Its changes fit, each after those before it, and its moves fit after them.
        ensures each { IfOk result (λ p. all_fit self.now.site self.now.state p.changes ≡ true) }
        ensures fits { IfOk result (λ p.
            (applied self.now.site self.now.state p.changes ≡ changes_made self.now.site.here self.now.state p.changes) ×
            FitsMoveAt self.now.site.here (changes_made self.now.site.here self.now.state p.changes) p.admin p.service) }

        // Its changes make a record of at most 64 changes and 65,536 bytes, which can be written.
        ensures writable { IfOk result (λ p. IsWritable self.now.site.circuit p.changes) }

        // The definitions and the acts in its changes have byte forms.
        ensures formed { IfOk result (λ p. are_formed p.changes ≡ true) }

        // Each message is one that a cell may hear; it can be written, and has at most 65,536 bytes.
        ensures legal { IfOk result (λ p. are_legal p.sends ≡ true) }
        ensures sends { IfOk result (λ p. AllSendable p.sends) }
    {
        self.site.is_named();
        plans_fit_cells();
        plans_have_bounds();
        self.site.plan(alloc, &self.state, event)
    }

    /// Makes the changes of a plan, each of which fits behind those before it, and then its moves. The only error is
    /// that memory ran out, and the cell is halted then.
    #[inline(always)]
    pub fn apply(&mut self, alloc: Global, plan: &Plan) -> Result<(), AllocError>
        requires running { self.old.halted ≡ false }
        requires each { all_fit self.old.site self.old.state plan.now.changes ≡ true }
        requires fits { FitsMoveAt self.old.site.here (applied self.old.site self.old.state plan.now.changes) plan.now.admin plan.now.service }
        requires formed { are_formed plan.now.changes ≡ true }
        ensures fixed { self.new.site ≡ self.old.site }
        ensures ok { OnOk result
            (self.new.state ≡ moved_cell self.old.site.here (applied self.old.site self.old.state plan.now.changes) plan.now.admin plan.now.service) }
        ensures running { OnOk result (self.new.halted ≡ false) }
        ensures halted { OnErr result (self.new.halted ≡ true) }
    {
        cells_stay_valid();
        self.halted = true;
        let mut state = mem::replace(&mut self.state, State::Empty);
        self.site
            .make_all(alloc, &mut state, plan.changes.as_slice())?;
        self.site.move_rounds(&mut state, plan.admin, plan.service);
        self.state = state;
        self.halted = false;
        Ok(())
    }

    /// Makes changes that were read, each where it fits; no round is open after them either, so
    /// that more may be read. The only error is that memory ran out, and the cell is halted then.
    pub fn replay(&mut self, alloc: Global, changes: &ChangeList) -> Result<(), AllocError>
        requires running { self.old.halted ≡ false }
        requires still { IsStill self.old.state }
        requires formed { are_formed changes.now ≡ true }
        ensures fixed { self.new.site ≡ self.old.site }
        ensures ok { OnOk result (self.new.state ≡ applied self.old.site self.old.state changes.now) }
        ensures still { OnOk result (IsStill self.new.state) }
        ensures running { OnOk result (self.new.halted ≡ false) }
        ensures halted { OnErr result (self.new.halted ≡ true) }
    {
        cells_stay_valid();
        self.halted = true;
        let mut state = mem::replace(&mut self.state, State::Empty);
        self.site.apply(alloc, &mut state, changes.as_slice())?;
        self.state = state;
        self.halted = false;
        Ok(())
    }

    /// The byte forms of the records of the changes that make the cell of an empty one, in order. An empty cell has
    /// none, and open rounds aren't packed. The only error is that memory ran out.
    pub fn pack(&self, alloc: Global) -> Result<PackedRecords, AllocError>
        requires running { self.now.halted ≡ false }
        ensures records { IfOk result (λ rs. rs.items
            ≡ spelled (grouped_records self.now.site.circuit (grouped self.now.site.circuit (packed self.now.state)))) }
        ensures fits { OnOk result (IsTrue (list_all change_form.fits (packed self.now.state))) }
    {
        packed_cells_have_a_form();
        let changes = self.state.packed(alloc)?;
        packed_records(alloc, self.site.circuit, changes)
    }

    /// Renews the digests of the state, so that reporting its root costs nothing; nothing that is
    /// seen changes. Cells of equal states that are renewed in turn share most of the work by the
    /// cache.
    pub fn renew(&mut self, cache: &mut RunCache)
        ensures { self.new ≡ self.old }
    {
        if let State::Held(held) = &mut self.state {
            held.renew(cache);
        }
    }

    /// A stop forgets the open rounds, and nothing else.
    pub fn restart(&mut self)
        requires running { self.old.halted ≡ false }
        ensures { self.new ≡ record self.old { state = stopped_cell self.old.state } }
    {
        cells_stay_valid();
        self.site.stop(&mut self.state);
    }
}
