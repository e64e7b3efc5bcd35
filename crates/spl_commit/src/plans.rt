//! Plans of a few parts.
ghost use Rattle.std.specs.Prelude.{◌≡◌, IfOk};
ghost use Rattle.spl_agree.specs.Rows.{nothing, sends_one, changes_one, both};

use spl_agree::{CommitMsg, GroupChange, GroupChanges, GroupPlan, GroupSends, Note, OpenMove};
use std::alloc::{AllocError, Global};

/// A note alone.
pub fn nothing<V: Drop>(alloc: Global, note: Note) -> GroupPlan<V>
    ensures { result ≡ nothing note }
{
    GroupPlan {
        note,
        changes: GroupChanges::new(alloc),
        opening: OpenMove::Keep,
        sends: GroupSends::new(alloc),
    }
}

/// One change, and nothing is sent.
pub fn changes_one<V: Drop>(
    alloc: Global,
    note: Note,
    change: GroupChange<V>,
) -> Result<GroupPlan<V>, AllocError>
    ensures { IfOk result (λ p. p ≡ changes_one note change) }
{
    Ok(GroupPlan {
        note,
        changes: GroupChanges::one(alloc, change)?,
        opening: OpenMove::Keep,
        sends: GroupSends::new(alloc),
    })
}

/// One message, and nothing changes.
pub fn sends_one<V: Drop>(
    alloc: Global,
    note: Note,
    to: u8,
    message: CommitMsg<V>,
) -> Result<GroupPlan<V>, AllocError>
    ensures { IfOk result (λ p. p ≡ sends_one note to message) }
{
    Ok(GroupPlan {
        note,
        changes: GroupChanges::new(alloc),
        opening: OpenMove::Keep,
        sends: GroupSends::one(alloc, to, message)?,
    })
}

/// One change, and one message.
pub fn both<V: Drop>(
    alloc: Global,
    note: Note,
    change: GroupChange<V>,
    to: u8,
    message: CommitMsg<V>,
) -> Result<GroupPlan<V>, AllocError>
    ensures { IfOk result (λ p. p ≡ both note change to message) }
{
    Ok(GroupPlan {
        note,
        changes: GroupChanges::one(alloc, change)?,
        opening: OpenMove::Keep,
        sends: GroupSends::one(alloc, to, message)?,
    })
}
