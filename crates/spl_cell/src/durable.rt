//! Changes of groups as changes of a cell.
ghost use Rattle.std.specs.Prelude.{◌≡◌, ◌++◌, map, IfOk};

use crate::lane::Lane;
use spl_agree::{GroupChange, GroupChanges};
use spl_base::Value;
use spl_wire::ChangeList;
use std::alloc::{AllocError, Global};

/// An equal change.
pub(crate) fn copy_change<V: Value>(
    alloc: Global,
    change: &GroupChange<V>,
) -> Result<GroupChange<V>, AllocError>
    ensures { IfOk result (λ x. x ≡ change.now) }
{
    match change {
        GroupChange::Queue(value) => Ok(GroupChange::Queue(value.copy(alloc)?)),
        GroupChange::Refuse(value, reason) => {
            Ok(GroupChange::Refuse(value.copy(alloc)?, *reason))
        }
        GroupChange::Begin(round) => Ok(GroupChange::Begin(*round)),
        GroupChange::Seen(round) => Ok(GroupChange::Seen(*round)),
        GroupChange::Promise(round, value) => {
            Ok(GroupChange::Promise(*round, value.copy(alloc)?))
        }
        GroupChange::Abort => Ok(GroupChange::Abort),
        GroupChange::Commit(round, value) => Ok(GroupChange::Commit(*round, value.copy(alloc)?)),
        GroupChange::Restore { next, seen } => Ok(GroupChange::Restore {
            next: *next,
            seen: *seen,
        }),
        GroupChange::Kept(value, reason) => Ok(GroupChange::Kept(value.copy(alloc)?, *reason)),
    }
}

/// The changes, and after them those of a group.
#[tactic(auto, using(crate::proofs::Steps::changes_more))]
#[inline(always)]
pub(crate) fn with_changes<L: Lane>(
    first: ChangeList,
    changes: GroupChanges<L::Value>,
) -> Result<ChangeList, AllocError>
    ensures { IfOk result (λ cs. cs ≡ first ++ map L.kind.change changes) }
{
    if changes.as_slice().is_empty() {
        return Ok(first);
    }
    let mut all = first;
    for change in changes.into_vec() {
        all.push(L::change(change))?;
    }
    Ok(all)
}
