//! A node submits a batch.
ghost use Rattle.std.specs.Prelude.{◌≡◌, None, IfOk};
ghost use Rattle.spl_agree.specs.Member.{known};
ghost use Rattle.spl_scabbard.specs.Checks.{batch_rules};
ghost use Rattle.spl_cell_rules.specs.{Batches.{submits, submits_known, submits_new}, Plans.planned};

use crate::plans::{Say, refuses, tells_only};
use crate::settled::Settled;
use spl_agree::{Agreed, GroupEvent, MOST_PENDING};
use spl_base::Value;
use spl_command::Batch;
use spl_scabbard::Service;
use spl_wire::{Answer, Plan, Refusal};
use std::alloc::{AllocError, Global};

impl Settled<'_> {
    /// A batch whose id isn't known here.
    fn submits_new(&self, alloc: Global, batch: &Batch) -> Result<Plan, AllocError>
        requires fresh { known batch_rules self.now.bound.batches batch.now ≡ None }
        ensures { IfOk result (λ p. p ≡ planned self.now.site (submits_new self.now.site self.now.bound batch.now)) }
    {
        let held = self.held();
        if held.pending::<Service>() as usize == MOST_PENDING {
            return Ok(refuses(alloc, Refusal::QueueFull));
        }
        let event = GroupEvent::Submit(batch.copy(alloc)?);
        self.goes_on::<Service>(alloc, Say::Submitted, &held.site.here, &event)
    }

    /// A batch that breaks no rule.
    fn submits_known(&self, alloc: Global, batch: &Batch) -> Result<Plan, AllocError>
        ensures { IfOk result (λ p. p ≡
            planned self.now.site (submits_known self.now.site self.now.bound batch.now (known batch_rules self.now.bound.batches batch.now))) }
    {
        let Some(there) = self.held().batches.known(&batch.id) else {
            return self.submits_new(alloc, batch);
        };
        if <Service as Agreed>::same(there, batch) {
            return Ok(tells_only(alloc, Answer::Submitted { known: true }));
        }
        Ok(refuses(alloc, Refusal::IdTaken))
    }

    /// The node submits a batch: it is queued, or the first reason against it is reported.
    pub(crate) fn submits(&self, alloc: Global, batch: &Batch) -> Result<Plan, AllocError>
        ensures { IfOk result (λ p. p ≡ planned self.now.site (submits self.now.site self.now.bound batch.now)) }
    {
        let held = self.held();
        if !held.runs() {
            return Ok(refuses(alloc, Refusal::NotActive));
        }
        if !held.is_open() {
            return Ok(refuses(alloc, Refusal::Closed));
        }
        if let Some(rule) = batch.fault() {
            return Ok(refuses(alloc, Refusal::BadBatch(rule)));
        }
        self.submits_known(alloc, batch)
    }
}
