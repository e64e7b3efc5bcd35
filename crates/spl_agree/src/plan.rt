//! What an event gives at a member.
ghost use Rattle.std.specs.Prelude.{◌≡◌, List, [], ◌∷◌, ◌++◌, length, OnOk, OnErr, IfOk, slice_get, option_copied};

use crate::{CommitMsg, GroupChange, Note, OpenMove};
use std::alloc::{AllocError, Global};
use std::marker::Model;

/// Durable changes in their order. Contracts see them as a list.
#[derive(Drop)]
pub struct GroupChanges<V> {
    items: Vec<GroupChange<V>>,
}

impl<V> Model for GroupChanges<V> {
    ghost use Rattle.std.specs.Prelude.{List};
    ghost use Rattle.spl_agree.specs.declared.event.GroupChange.{GroupChange};

    ghost Value = { List (GroupChange V) };

    ghost view = { λ s. s.items.items };
}

impl<V: Drop> GroupChanges<V> {
    /// No changes.
    pub fn new(alloc: Global) -> Self
        ensures { result ≡ [] }
    {
        GroupChanges {
            items: Vec::new(alloc),
        }
    }

    /// One change.
    #[inline(always)]
    pub fn one(alloc: Global, change: GroupChange<V>) -> Result<Self, AllocError>
        ensures { IfOk result (λ cs. cs ≡ change ∷ []) }
    {
        let mut all = GroupChanges::new(alloc);
        all.push(change)?;
        Ok(all)
    }

    /// One change more, at the end. When memory runs out nothing is changed.
    #[inline(always)]
    pub fn push(&mut self, change: GroupChange<V>) -> Result<(), AllocError>
        ensures ok { OnOk result (self.new ≡ self.old ++ change ∷ []) }
        ensures err { OnErr result (self.new ≡ self.old) }
    {
        self.items.push(change)?;
        Ok(())
    }

    /// The changes, in order.
    pub fn as_slice(&self) -> &[GroupChange<V>]
        ensures { result.now ≡ self.now }
    {
        self.items.as_slice()
    }

    /// The changes, in order.
    pub fn into_vec(self) -> Vec<GroupChange<V>>
        ensures { result.items ≡ self }
    {
        let GroupChanges { items } = self;
        items
    }
}

/// Messages in the order in which they are sent, each to a position. Contracts see them as a list of pairs.
#[derive(Drop)]
pub struct GroupSends<V> {
    items: Vec<(u8, CommitMsg<V>)>,
}

impl<V> Model for GroupSends<V> {
    ghost use Rattle.std.specs.Prelude.{List, ℕ};
    ghost use Rattle.spl_agree.specs.declared.message.CommitMsg.{CommitMsg};

    ghost Value = { List (ℕ × CommitMsg V) };

    ghost view = { λ s. s.items.items };
}

impl<V: Drop> GroupSends<V> {
    /// No messages.
    pub fn new(alloc: Global) -> Self
        ensures { result ≡ [] }
    {
        GroupSends {
            items: Vec::new(alloc),
        }
    }

    /// One message.
    #[inline(always)]
    pub fn one(alloc: Global, to: u8, message: CommitMsg<V>) -> Result<Self, AllocError>
        ensures { IfOk result (λ ss. ss ≡ (to, message) ∷ []) }
    {
        let mut all = GroupSends::new(alloc);
        all.push(to, message)?;
        Ok(all)
    }

    /// One message more, at the end. When memory runs out nothing is changed.
    #[inline(always)]
    pub fn push(&mut self, to: u8, message: CommitMsg<V>) -> Result<(), AllocError>
        ensures ok { OnOk result (self.new ≡ self.old ++ (to, message) ∷ []) }
        ensures err { OnErr result (self.new ≡ self.old) }
    {
        self.items.push((to, message))?;
        Ok(())
    }

    /// The messages, in order.
    pub fn as_slice(&self) -> &[(u8, CommitMsg<V>)]
        ensures { result.now ≡ self.now }
    {
        self.items.as_slice()
    }

    /// The messages, in order.
    pub fn into_vec(self) -> Vec<(u8, CommitMsg<V>)>
        ensures { result.items ≡ self }
    {
        let GroupSends { items } = self;
        items
    }
}

/// What an event gives at a member: a note, durable changes, a move of the open round, and messages.
#[derive(Drop)]
pub struct GroupPlan<V> {
    pub note: Note,
    pub changes: GroupChanges<V>,
    pub opening: OpenMove,
    pub sends: GroupSends<V>,
}
