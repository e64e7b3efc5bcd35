//! Making changes again.
ghost use Rattle.std.specs.Prelude.{◌≡◌, fold, OnOk, OnErr};
ghost use Rattle.spl_command.specs.Lists.{with_change};
ghost use Rattle.spl_delta.specs.Watches.{with_deltas};

use crate::delta::{Delta, Deltas};
use spl_command::StateChange;
use spl_state::{Draft, State};
use std::alloc::{AllocError, Global};
use std::mem;

fn make_change(draft: &mut Draft, change: &StateChange) -> Result<(), AllocError>
    ensures before { draft.new.before ≡ draft.old.before }
    ensures ok { OnOk result (draft.new.entries ≡ with_change draft.old.entries change.now) }
{
    match change {
        StateChange::Set(address, value) => draft.set(*address, value.bytes()),
        StateChange::Delete(address) => draft.delete(*address),
    }
}

fn make_changes(draft: &mut Draft, changes: &[StateChange]) -> Result<(), AllocError>
    ensures before { draft.new.before ≡ draft.old.before }
    ensures ok { OnOk result (draft.new.entries ≡ fold with_change draft.old.entries changes.now) }
{
    draft.reserve(changes.len())?;
    for change in changes {
        make_change(draft, change)?;
    }
    Ok(())
}

fn make_deltas(draft: &mut Draft, deltas: &[Delta]) -> Result<(), AllocError>
    ensures before { draft.new.before ≡ draft.old.before }
    ensures ok { OnOk result (draft.new.entries ≡ with_deltas draft.old.entries deltas.now) }
{
    for delta in deltas {
        make_changes(draft, delta.changes.as_slice())?;
    }
    Ok(())
}

/// Makes the changes of the deltas in a state, one delta after another. Fails only where memory runs out; the state is then as
/// it was.
pub fn replay(alloc: Global, base: &mut State, deltas: &Deltas) -> Result<(), AllocError>
    ensures ok { OnOk result (base.new ≡ with_deltas base.old deltas.now) }
    ensures err { OnErr result (base.new ≡ base.old) }
{
    let state = mem::replace(base, State::new());
    let mut draft = Draft::new(alloc, state);
    match make_deltas(&mut draft, deltas.as_slice()) {
        Ok(()) => {
            *base = draft.finish();
            Ok(())
        }
        Err(fault) => {
            *base = draft.undo();
            Err(fault)
        }
    }
}
