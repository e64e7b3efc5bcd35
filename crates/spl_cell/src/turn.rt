//! The groups of a cell are asked to go on.
ghost use Rattle.std.specs.Prelude.{◌≡◌, IfOk};
ghost use Rattle.spl_agree.specs.declared.event.GroupEvent.TheVariants as group;
ghost use Rattle.spl_cell_rules.specs.{Cells.{Held as Bound, Turns}, Events.turns, Idle.is_idle_note, Plans.{admin_lane, service_lane, group_row, planned}};
ghost use Rattle.spl_cell.specs.{Due.due, Lanes.{IsDueAt, admin_kind, service_kind}};

use crate::held::Held;
use crate::plans::{Say, refuses};
use crate::settled::Settled;
use spl_admin::Ledger;
use spl_agree::GroupEvent;
use spl_circuit::Act;
use spl_command::Batch;
use spl_scabbard::Service;
use spl_wire::{Plan, Refusal};
use std::alloc::{AllocError, Global};

impl Settled<'_> {
    /// Each group does its part, the admin group first.
    #[inline(always)]
    fn both(
        &self,
        alloc: Global,
        act: &GroupEvent<Act>,
        batch: &GroupEvent<Batch>,
    ) -> Result<Plan, AllocError>
        requires admin { IsDueAt admin_kind self.now act.now }
        requires service { IsDueAt service_kind self.now batch.now }
        ensures { IfOk result (λ p. p ≡ planned self.now.site (Turns self.now.bound act.now batch.now)) }
    {
        let acts = self.row::<Ledger>(alloc, act)?;
        let batches = self.row::<Service>(alloc, batch)?;
        let held = self.held();
        held.site
            .both_plans(alloc, held.definition(), acts, batches)
    }

    /// The groups go on by a tick or an expire, the service group where the circuit is active here.
    #[inline(always)]
    pub(crate) fn turns(
        &self,
        alloc: Global,
        act: &GroupEvent<Act>,
        batch: &GroupEvent<Batch>,
    ) -> Result<Plan, AllocError>
        requires admin { IsDueAt admin_kind self.now act.now }
        requires service { IsDueAt service_kind self.now batch.now }
        ensures { IfOk result (λ p. p ≡ planned self.now.site (turns self.now.site self.now.bound act.now batch.now)) }
    {
        let held = self.held();
        if !held.is_open() {
            return Ok(refuses(alloc, Refusal::Closed));
        }
        if held.runs() {
            return self.both(alloc, act, batch);
        }
        self.goes_on::<Ledger>(alloc, Say::Alone, &held.site.here, act)
    }
}

impl Held {
    /// Whether a tick has nothing to do in the admin group.
    fn acts_rest(&self) -> bool
        ensures { result ≡ is_idle_note (group_row (admin_lane self.now.site self.now.bound.definition) self.now.bound.acts group.Tick).note }
    {
        self.acts.rests()
    }

    /// Whether a tick has nothing to do in the service group.
    fn batches_rest(&self) -> bool
        ensures { result ≡ is_idle_note (group_row (service_lane self.now.site self.now.bound.definition) self.now.bound.batches group.Tick).note }
    {
        self.batches.rests()
    }

    /// Whether a tick has anything to do in the groups that go on by it; None where the node takes no
    /// part any more.
    pub(crate) fn due(&self) -> Option<bool>
        ensures { result ≡ due self.now.site (Bound self.now.bound) }
    {
        if !self.is_open() {
            return None;
        }
        if self.runs() {
            return Some(!(self.acts_rest() && self.batches_rest()));
        }
        Some(!self.acts_rest())
    }
}
