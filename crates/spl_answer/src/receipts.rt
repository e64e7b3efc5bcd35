//! The JSON of the receipts of a batch.
ghost use Rattle.std.specs.Prelude.{◌≡◌, ◌++◌, IfOk, OnOk};
ghost use Rattle.serde_json.specs.{View.view, Written.compact_text};
ghost use Rattle.spl_answer.specs.Receipts.{receipts_value};

use crate::json::{Json, append_json, digits_of};
use serde_json::{Value, json};
use spl_agree::Place;
use spl_base::BatchId;
use spl_command::{Receipt, Receipts, StateChange, StateEvent};
use std::alloc::{AllocError, Global};

impl Json for StateChange {
    ghost use Rattle.spl_answer.specs.Receipts.{change_value};

    ghost json = { change_value };

    #[tactic(auto, unfolding(crate::specs::Receipts::change_value))]
    fn to_json(&self, alloc: Global) -> Result<Value, AllocError> {
        match self {
            StateChange::Set(address, value) => json!(in alloc; {
                "address": digits_of(alloc, &address.0)?,
                "value": value.to_json(alloc)?,
            }),
            StateChange::Delete(address) => json!(in alloc; {
                "address": digits_of(alloc, &address.0)?,
                "value": null,
            }),
        }
    }
}

impl Json for StateEvent {
    ghost use Rattle.spl_answer.specs.Receipts.{event_value};

    ghost json = { event_value };

    #[tactic(auto, unfolding(crate::specs::Receipts::event_value))]
    fn to_json(&self, alloc: Global) -> Result<Value, AllocError> {
        json!(in alloc; {
            "data": self.data.to_json(alloc)?,
            "type": self.kind.to_json(alloc)?,
        })
    }
}

impl Json for Receipt {
    ghost use Rattle.spl_answer.specs.Receipts.{receipt_value};

    ghost json = { receipt_value };

    #[tactic(auto, unfolding(crate::specs::Receipts::receipt_value))]
    fn to_json(&self, alloc: Global) -> Result<Value, AllocError> {
        json!(in alloc; {
            "changes": self.changes.to_json(alloc)?,
            "data": self.returned.to_json(alloc)?,
            "events": self.events.to_json(alloc)?,
        })
    }
}

#[tactic(auto, unfolding(crate::specs::Receipts::receipts_value))]
fn receipts_of(
    alloc: Global,
    batch: BatchId,
    place: Place,
    receipts: &Receipts,
) -> Result<Value, AllocError>
    ensures { IfOk result (λ v. view v ≡ receipts_value batch place receipts.now) }
{
    json!(in alloc; {
        "batch": batch.0,
        "place": place.0,
        "transactions": receipts.to_json(alloc)?,
    })
}

/// Appends the JSON of the receipts of the batch at this place.
#[tactic(auto, using(crate::proofs::Floats::receipts_have_none))]
pub(crate) fn append_receipts(
    batch: BatchId,
    place: Place,
    receipts: &Receipts,
    out: &mut Vec<u8>,
) -> Result<(), AllocError>
    ensures { OnOk result (out.new.items ≡ out.old.items ++ compact_text (receipts_value batch place receipts.now)) }
{
    let value = receipts_of(*out.allocator(), batch, place, receipts)?;
    append_json(&value, out)
}
