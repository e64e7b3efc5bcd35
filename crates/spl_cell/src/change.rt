//! Durable changes of a cell.
ghost use Rattle.std.specs.Prelude.{◌≡◌, ◌&&◌, true, IfOk, OnOk};
ghost use Rattle.spl_agree.specs.{Member.changed, Fits.{fits as fits_group, any_value, queued}};
ghost use Rattle.spl_circuit.specs.Acts.{act_rules};
ghost use Rattle.spl_scabbard.specs.Checks.{batch_rules};
ghost use Rattle.spl_cell_rules.specs.{Cells.{Held as Bound, fresh, is_open_mark, keeps_batches}, Changes.{turn_after, may_queue, may_serve, may_keep}};
ghost use Rattle.spl_cell_rules.specs.Changes.{held_after, fits_held, fits_free, fits_cell, made_one, applied};
ghost use Rattle.spl_cell.specs.{Fits.{all_fit, is_within}, States.{cell_of, IsAt}, Mays.may_be, Sites.site_of};

use crate::durable::copy_change;
use crate::held::Held;
use crate::site::Site;
use crate::state::State;
use spl_agree::GroupChange;
use spl_base::Value;
use spl_circuit::{Act, CheckedDefinition, Mark};
use spl_command::Batch;
use spl_wire::Change;
use std::alloc::{AllocError, Global};

/// Whether a batch may be pending: one that breaks a rule is never queued.
fn may_serve(batch: &Batch) -> bool
    ensures { result ≡ may_serve batch.now }
{
    batch.fault().is_none()
}

/// Whether what a change of the service group queues may be pending.
fn may_batch(change: &GroupChange<Batch>) -> bool
    ensures { result ≡ may_be may_serve (queued change.now) }
{
    match change.queued() {
        Some(batch) => may_serve(batch),
        None => true,
    }
}

/// Whether a batch may be kept as refused, if the change keeps one: one that breaks a rule is not.
fn may_keep(change: &GroupChange<Batch>) -> bool
    ensures { result ≡ may_keep change.now }
{
    match change {
        GroupChange::Kept(batch, _) => may_serve(batch),
        _ => true,
    }
}

impl Held {
    /// The turn of the node after a change: an own act that is queued sets it.
    fn turn_after(&self, change: &GroupChange<Act>) -> u32
        ensures { result ≡ turn_after self.now.site.here self.now.bound.turn change.now }
    {
        match change {
            GroupChange::Queue(act) => {
                if act.node == self.site.here {
                    act.turn
                } else {
                    self.turn
                }
            }
            _ => self.turn,
        }
    }

    /// Whether an act may be pending: one of this node is queued alone, and with no turn after.
    fn may_queue(&self, act: &Act) -> bool
        ensures { result ≡ may_queue self.now.site.here self.now.bound.turn self.now.bound.acts.pending act.now }
    {
        if act.node != self.site.here {
            return true;
        }
        if self.has_pending_of(&self.site.here) {
            return false;
        }
        self.turn <= act.turn
    }

    /// Whether what a change of the admin group queues may be pending.
    fn may_queue_by(&self, change: &GroupChange<Act>) -> bool
        ensures { result ≡ may_be (may_queue self.now.site.here self.now.bound.turn self.now.bound.acts.pending) (queued change.now) }
    {
        match change.queued() {
            Some(act) => self.may_queue(act),
            None => true,
        }
    }

    /// Whether a change of the admin group fits. The only error is that memory ran out.
    #[tactic(auto, using(crate::proofs::Changes::fits_may))]
    fn fits_admin(&self, alloc: Global, change: &GroupChange<Act>) -> Result<bool, AllocError>
        ensures { IfOk result (λ b. b ≡
            (is_open_mark self.now.bound.mark &&
            fits_group (act_rules self.now.bound.definition)
            (may_queue self.now.site.here self.now.bound.turn self.now.bound.acts.pending) self.now.bound.acts change.now)) }
    {
        if !self.is_open() {
            return Ok(false);
        }
        if !self.may_queue_by(change) {
            return Ok(false);
        }
        self.acts.fits(alloc, change)
    }

    /// Makes a change of the admin group that fits. The only error is that memory ran out, and
    /// the cell is halted then.
    #[tactic(auto, using(crate::proofs::Changes::place_facts))]
    fn makes_admin(&mut self, alloc: Global, change: &GroupChange<Act>) -> Result<(), AllocError>
        requires { fits_group (act_rules self.old.bound.definition) any_value self.old.bound.acts change.now ≡ true }
        ensures ok { OnOk result
            (self.new ≡ record self.old {
              bound = record self.old.bound {
                turn = turn_after self.old.site.here self.old.bound.turn change.now;
                acts = changed (act_rules self.old.bound.definition) self.old.bound.acts change.now;
              };
            }) }
        ensures site { self.new.site ≡ self.old.site }
    {
        let turn = self.turn_after(change);
        let change = copy_change(alloc, change)?;
        self.acts.apply(alloc, change)?;
        self.turn = turn;
        Ok(())
    }

    /// Whether a change of the service group fits. The only error is that memory ran out.
    #[tactic(auto, using(crate::proofs::Changes::fits_may))]
    fn fits_service(&self, alloc: Global, change: &GroupChange<Batch>) -> Result<bool, AllocError>
        ensures { IfOk result (λ b. b ≡
            (is_open_mark self.now.bound.mark && (keeps_batches self.now.bound &&
            (may_keep change.now && fits_group batch_rules may_serve self.now.bound.batches change.now)))) }
    {
        if !self.is_open() {
            return Ok(false);
        }
        if !self.keeps_batches() {
            return Ok(false);
        }
        if !may_keep(change) {
            return Ok(false);
        }
        if !may_batch(change) {
            return Ok(false);
        }
        self.batches.fits(alloc, change)
    }

    /// Makes a change of the service group that fits. The only error is that memory ran out, and
    /// the cell is halted then.
    #[tactic(auto, using(crate::proofs::Changes::place_facts))]
    fn makes_service(
        &mut self,
        alloc: Global,
        change: &GroupChange<Batch>,
    ) -> Result<(), AllocError>
        requires { fits_group batch_rules any_value self.old.bound.batches change.now ≡ true }
        ensures ok { OnOk result
            (self.new ≡ record self.old { bound = record self.old.bound { batches = changed batch_rules self.old.bound.batches change.now } }) }
        ensures site { self.new.site ≡ self.old.site }
    {
        let change = copy_change(alloc, change)?;
        self.batches.apply(alloc, change)
    }

    /// Whether a change fits. The only error is that memory ran out.
    fn fits(&self, alloc: Global, change: &Change) -> Result<bool, AllocError>
        ensures { IfOk result (λ b. b ≡ fits_held self.now.site self.now.bound change.now) }
    {
        match change {
            Change::Admin(change) => self.fits_admin(alloc, change),
            Change::Service(change) => self.fits_service(alloc, change),
            Change::Abandon => Ok(self.is_open() && self.runs()),
            Change::Purge => Ok(true),
            Change::Turn(_) => Ok(self.acts.is_new()),
            Change::Bind(_) | Change::Gone(_) => Ok(false),
        }
    }

    /// Makes a change that fits and leaves the cell bound. The only error is that memory ran out, and
    /// the cell is halted then.
    #[tactic(auto, using(crate::proofs::Changes::fits_any, crate::proofs::Changes::fits_running))]
    #[inline(always)]
    fn make(&mut self, alloc: Global, change: &Change) -> Result<(), AllocError>
        requires fits { fits_held self.old.site self.old.bound change.now ≡ true }
        requires within { is_within change.now ≡ true }
        ensures ok { OnOk result (Bound self.new.bound ≡ held_after self.old.site.here self.old.bound change.now) }
        ensures site { self.new.site ≡ self.old.site }
    {
        match change {
            Change::Admin(change) => self.makes_admin(alloc, change),
            Change::Service(change) => self.makes_service(alloc, change),
            Change::Abandon => {
                self.mark = Mark::Abandoned;
                Ok(())
            }
            Change::Turn(turn) => {
                self.turn = *turn;
                Ok(())
            }
            Change::Bind(_) | Change::Purge | Change::Gone(_) => Ok(()),
        }
    }
}

impl Site {
    /// Whether a definition fits an unbound cell.
    fn fits_definition(&self, state: &State, definition: &CheckedDefinition) -> bool
        ensures { result ≡ fits_free (site_of self.now) (cell_of state.now) (Change.Bind definition.now) }
    {
        let terms = definition.get();
        if !state.is_free(terms.generation) {
            return false;
        }
        if terms.id != self.circuit {
            return false;
        }
        if definition.fault().is_some() {
            return false;
        }
        terms.is_member(&self.here)
    }

    /// Whether a change fits an unbound cell.
    fn fits_free(&self, state: &State, change: &Change) -> bool
        ensures { result ≡ fits_free (site_of self.now) (cell_of state.now) change.now }
    {
        match change {
            Change::Bind(definition) => self.fits_definition(state, definition),
            Change::Gone(old) => matches!(state, State::Empty) && 0 < old.0,
            _ => false,
        }
    }

    /// Whether a change fits. The only error is that memory ran out.
    fn fits(&self, alloc: Global, state: &State, change: &Change) -> Result<bool, AllocError>
        requires at { IsAt (site_of self.now) state.now }
        ensures { IfOk result (λ b. b ≡ fits_cell (site_of self.now) (cell_of state.now) change.now) }
    {
        match state {
            State::Held(held) => held.fits(alloc, change),
            _ => Ok(self.fits_free(state, change)),
        }
    }

    /// Binds the cell to a definition that fits.
    #[tactic(auto, using(crate::proofs::Binds::fit_facts))]
    fn bind(
        &self,
        alloc: Global,
        state: &mut State,
        definition: &CheckedDefinition,
    ) -> Result<(), AllocError>
        requires fits { fits_cell (site_of self.now) (cell_of state.old) (Change.Bind definition.now) ≡ true }
        ensures cell { OnOk result (cell_of state.new ≡ Bound (fresh definition.now)) }
        ensures at { OnOk result (IsAt (site_of self.now) state.new) }
    {
        let held = Held::new(alloc, *self, definition.copy(alloc)?);
        *state = State::Held(Box::new(alloc, held)?);
        Ok(())
    }

    /// A bound cell forgets all but the generation.
    fn purge(&self, state: &mut State)
        requires at { IsAt (site_of self.now) state.old }
        ensures cell { cell_of state.new ≡ made_one self.now.here (cell_of state.old) Change.Purge }
        ensures at { IsAt (site_of self.now) state.new }
    {
        if let State::Held(held) = state {
            let generation = held.definition().generation;
            *state = State::Purged(generation);
        }
    }

    /// Makes a change that fits. The only error is that memory ran out, and the cell is halted then.
    #[tactic(auto, using(crate::proofs::Binds::made_facts))]
    #[inline(always)]
    fn make(&self, alloc: Global, state: &mut State, change: &Change) -> Result<(), AllocError>
        requires at { IsAt (site_of self.now) state.old }
        requires fits { fits_cell (site_of self.now) (cell_of state.old) change.now ≡ true }
        ensures cell { OnOk result (cell_of state.new ≡ made_one self.now.here (cell_of state.old) change.now) }
        ensures at { OnOk result (IsAt (site_of self.now) state.new) }
    {
        match change {
            Change::Bind(definition) => self.bind(alloc, state, definition),
            Change::Purge => {
                self.purge(state);
                Ok(())
            }
            Change::Gone(old) => {
                *state = State::Purged(*old);
                Ok(())
            }
            Change::Admin(_) | Change::Service(_) | Change::Abandon | Change::Turn(_) => {
                match state {
                    State::Held(held) => held.make(alloc, change),
                    _ => Ok(()),
                }
            }
        }
    }

    /// Makes changes, each of which fits behind those before it. The only error is that memory ran out,
    /// and the cell is halted then.
    #[tactic(auto, using(crate::proofs::Lists::made_facts))]
    pub(crate) fn make_all(
        &self,
        alloc: Global,
        state: &mut State,
        changes: &[Change],
    ) -> Result<(), AllocError>
        requires at { IsAt (site_of self.now) state.old }
        requires fit { all_fit (site_of self.now) (cell_of state.old) changes.now ≡ true }
        ensures cell { OnOk result (cell_of state.new ≡ applied (site_of self.now) (cell_of state.old) changes.now) }
        ensures at { OnOk result (IsAt (site_of self.now) state.new) }
    {
        for change in changes {
            self.make(alloc, state, change)?;
        }
        Ok(())
    }

    /// Makes changes, each where it fits. The only error is that memory ran out, and the cell is
    /// halted then.
    #[tactic(auto, using(crate::proofs::Lists::applied_step))]
    pub(crate) fn apply(
        &self,
        alloc: Global,
        state: &mut State,
        changes: &[Change],
    ) -> Result<(), AllocError>
        requires at { IsAt (site_of self.now) state.old }
        ensures cell { OnOk result (cell_of state.new ≡ applied (site_of self.now) (cell_of state.old) changes.now) }
        ensures at { OnOk result (IsAt (site_of self.now) state.new) }
    {
        for change in changes {
            if self.fits(alloc, state, change)? {
                self.make(alloc, state, change)?;
            }
        }
        Ok(())
    }
}
