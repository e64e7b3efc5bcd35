//! Batches are what the service group of a circuit agrees on.
ghost use Rattle.std.specs.Prelude.{◌≡◌, ◌++◌, ◌∷◌, [], OnOk, OnErr};
ghost use Rattle.spl_command.specs.Lists.{with_receipts};

use crate::service::Service;
use spl_agree::{Admit, Agreed, Reason};
use spl_base::{BatchId, BatchIds, Value};
use spl_command::{Batch, Receipts, apply_receipts};
use spl_state::{Draft, State};
use std::alloc::{AllocError, Global};
use std::mem;

impl Agreed for Service {
    ghost use Rattle.std.specs.Prelude.{◌≡◌, None, refl};
    ghost use Rattle.spl_command.specs.{Equality.same_batch, Same.same_batches};
    ghost use Rattle.spl_scabbard.specs.Checks.{batch_rules};

    type Key = BatchId;

    type Value = Batch;

    ghost items = { λ s. s };

    ghost rules = { λ s. batch_rules };

    ghost key_of = { λ b. b.id };

    ghost same_of = { same_batch };

    ghost stray_of = { λ b. None };

    ghost keyed = { λ s u v. refl };

    ghost samed = { λ s u v. refl };

    ghost same_is = { same_batches };

    ghost strayed = { λ s v. refl };

    fn key(value: &Batch) -> BatchId {
        value.id
    }

    fn same(a: &Batch, b: &Batch) -> bool {
        a.same(b)
    }

    fn stray(_value: &Batch) -> Option<Reason> {
        None
    }

    fn admits(&self, _sender: u8, _value: &Batch) -> Admit {
        Admit::Take
    }

    fn copy(alloc: Global, value: &Batch) -> Result<Batch, AllocError> {
        value.copy(alloc)
    }

    fn check(&self, _alloc: Global, value: &Batch) -> Result<Option<Reason>, AllocError> {
        Ok(self.misfit(value))
    }

    fn apply(&mut self, alloc: Global, value: Batch) -> Result<(), AllocError> {
        let receipts = self.run(alloc, &value)?;
        self.batches.reserve(1)?;
        self.kept.reserve(1)?;
        let state = mem::replace(&mut self.state, State::new());
        let mut draft = Draft::new(alloc, state);
        match extend(&mut draft, &mut self.ids, value.id, &receipts) {
            Ok(()) => {
                self.state = draft.finish();
                self.kept.insert(value.id, receipts).unwrap();
                self.batches.push(value).unwrap();
                Ok(())
            }
            Err(fault) => {
                self.state = draft.undo();
                Err(fault)
            }
        }
    }
}

/// Makes the changes of receipts in a draft, and adds the id of their batch to the others. When
/// memory runs out the ids are unchanged, and the draft can still be undone.
fn extend(
    draft: &mut Draft,
    ids: &mut BatchIds,
    id: BatchId,
    receipts: &Receipts,
) -> Result<(), AllocError>
    ensures before { draft.new.before ≡ draft.old.before }
    ensures ok { OnOk result (draft.new.entries ≡ with_receipts draft.old.entries receipts.now) }
    ensures ids { OnOk result (ids.new ≡ ids.old ++ id ∷ []) }
    ensures err { OnErr result (ids.new ≡ ids.old) }
{
    apply_receipts(draft, receipts)?;
    ids.push(id)
}
