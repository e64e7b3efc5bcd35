//! Applying receipts to a state.
ghost use Rattle.std.specs.Prelude.{◌≡◌, fold, OnOk};
ghost use Rattle.spl_command.specs.Lists.{with_change, with_receipt, with_receipts};

use crate::receipt::{Receipt, Receipts, StateChange};
use spl_state::Draft;
use std::alloc::AllocError;

fn apply_change(draft: &mut Draft, change: &StateChange) -> Result<(), AllocError>
    ensures before { draft.new.before ≡ draft.old.before }
    ensures ok { OnOk result (draft.new.entries ≡ with_change draft.old.entries change.now) }
{
    match change {
        StateChange::Set(address, value) => draft.set(*address, value.bytes()),
        StateChange::Delete(address) => draft.delete(*address),
    }
}

fn apply_receipt(draft: &mut Draft, receipt: &Receipt) -> Result<(), AllocError>
    ensures before { draft.new.before ≡ draft.old.before }
    ensures ok { OnOk result (draft.new.entries ≡ with_receipt draft.old.entries receipt.now) }
{
    for change in receipt.changes.as_slice() {
        apply_change(draft, change)?;
    }
    Ok(())
}

/// How many changes receipts have.
fn count(receipts: &[Receipt]) -> usize {
    let mut count = 0usize;
    for receipt in receipts {
        count = count.saturating_add(receipt.changes.len());
    }
    count
}

/// Makes the changes of receipts in a draft, in their order. The only error is that memory ran out;
/// some of the changes are made then, and the draft can still be undone.
pub fn apply_receipts(draft: &mut Draft, receipts: &Receipts) -> Result<(), AllocError>
    ensures before { draft.new.before ≡ draft.old.before }
    ensures ok { OnOk result (draft.new.entries ≡ with_receipts draft.old.entries receipts.now) }
{
    draft.reserve(count(receipts.as_slice()))?;
    for receipt in receipts.as_slice() {
        apply_receipt(draft, receipt)?;
    }
    Ok(())
}
