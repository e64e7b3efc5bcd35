//! What a forwarded and a refused value give.
ghost use Rattle.std.specs.Prelude.{◌≡◌, length, IfOk};
ghost use Rattle.spl_agree.specs.{Member.{found, found_refused, values}, Rows.{on_forward, strayed, admitted, forwarded, forwarded_pending, forwarded_held}};
ghost use Rattle.spl_agree.specs.Rows.{forwarded_refused, forwarded_new, returns, on_refused, taken_back};
ghost use Rattle.spl_commit.specs.Views.{group_by};

use crate::Member;
use crate::plans::{changes_one, nothing, sends_one};
use spl_agree::{Admit, Agreed, CommitMsg, GroupChange, GroupPlan, MOST_PENDING, Note, Reason};
use spl_queue::Known;
use std::alloc::{AllocError, Global};

impl<M: Agreed> Member<M> {
    /// A forwarded value.
    pub(crate) fn on_forward(
        &self,
        alloc: Global,
        sender: u8,
        value: &M::Value,
    ) -> Result<GroupPlan<M::Value>, AllocError>
        ensures { IfOk result (λ p. p ≡ on_forward (group_by (M.rules self.now.content) self.now) self.now.here self.now.state sender value.now) }
    {
        if self.here != self.coordinator {
            return self.strayed(alloc, sender, value);
        }
        if !self.is_other(sender) {
            return Ok(nothing(alloc, Note::Ignored));
        }
        match self.content.admits(sender, value) {
            Admit::Take => self.forwarded(alloc, sender, value),
            Admit::Ignore => Ok(nothing(alloc, Note::Ignored)),
            Admit::Return(reason) => self.returns(alloc, sender, value, reason),
        }
    }

    /// A value that was forwarded to a member that isn't the coordinator.
    fn strayed(
        &self,
        alloc: Global,
        sender: u8,
        value: &M::Value,
    ) -> Result<GroupPlan<M::Value>, AllocError>
        ensures { IfOk result (λ p. p ≡ strayed self.now.generation sender value.now ((M.rules self.now.content).stray value.now)) }
    {
        match M::stray(value) {
            None => Ok(nothing(alloc, Note::Ignored)),
            Some(reason) => self.returns(alloc, sender, value, reason),
        }
    }

    /// The value goes back, refused.
    fn returns(
        &self,
        alloc: Global,
        sender: u8,
        value: &M::Value,
        reason: Reason,
    ) -> Result<GroupPlan<M::Value>, AllocError>
        ensures { IfOk result (λ p. p ≡ returns self.now.generation sender value.now reason) }
    {
        let value = M::copy(alloc, value)?;
        sends_one(
            alloc,
            Note::Returned(reason),
            sender,
            CommitMsg::Refused {
                generation: self.generation,
                value,
                reason,
            },
        )
    }

    /// A value that the content takes.
    fn forwarded(
        &self,
        alloc: Global,
        sender: u8,
        value: &M::Value,
    ) -> Result<GroupPlan<M::Value>, AllocError>
        ensures { IfOk result (λ p. p ≡ forwarded (group_by (M.rules self.now.content) self.now) self.now.state sender value.now
            (found ((M.rules self.now.content).same_key value.now) (values self.now.state.history))) }
    {
        match self.in_history(value) {
            Some(there) => self.forwarded_held(alloc, sender, value, there),
            None => self.forwarded_pending(alloc, sender, value),
        }
    }

    /// A value whose key isn't in the history.
    fn forwarded_pending(
        &self,
        alloc: Global,
        sender: u8,
        value: &M::Value,
    ) -> Result<GroupPlan<M::Value>, AllocError>
        ensures { IfOk result (λ p. p ≡ forwarded_pending (group_by (M.rules self.now.content) self.now) self.now.state sender value.now
            (found ((M.rules self.now.content).same_key value.now) self.now.state.pending)) }
    {
        match self.in_queue(value) {
            Known::Pending(there) => self.forwarded_held(alloc, sender, value, there),
            Known::Refused(there, reason) => {
                self.forwarded_again(alloc, sender, value, there, reason)
            }
            Known::No => self.forwarded_new(alloc, value),
        }
    }

    /// A value whose key is committed or pending.
    fn forwarded_held(
        &self,
        alloc: Global,
        sender: u8,
        value: &M::Value,
        there: &M::Value,
    ) -> Result<GroupPlan<M::Value>, AllocError>
        ensures { IfOk result (λ p. p ≡ forwarded_held (group_by (M.rules self.now.content) self.now) sender value.now there.now) }
    {
        if self.is_same(there, value) {
            return Ok(nothing(alloc, Note::Ignored));
        }
        self.returns(alloc, sender, value, Reason::ID_TAKEN)
    }

    /// A value whose key was refused.
    fn forwarded_again(
        &self,
        alloc: Global,
        sender: u8,
        value: &M::Value,
        there: &M::Value,
        reason: Reason,
    ) -> Result<GroupPlan<M::Value>, AllocError>
        ensures { IfOk result (λ p. p ≡ forwarded_refused (group_by (M.rules self.now.content) self.now) self.now.state sender value.now
            (Some (there.now, reason))) }
    {
        if self.is_same(there, value) {
            self.returns(alloc, sender, value, reason)
        } else {
            self.returns(alloc, sender, value, Reason::ID_TAKEN)
        }
    }

    /// A value whose key isn't known.
    fn forwarded_new(
        &self,
        alloc: Global,
        value: &M::Value,
    ) -> Result<GroupPlan<M::Value>, AllocError>
        ensures { IfOk result (λ p. p ≡ forwarded_new self.now.state value.now) }
    {
        if self.pending_len() as usize == MOST_PENDING {
            return Ok(nothing(alloc, Note::Ignored));
        }
        let value = M::copy(alloc, value)?;
        changes_one(alloc, Note::Queued, GroupChange::Queue(value))
    }

    /// How many values are pending.
    #[tactic(auto, using(crate::proofs::Keyed::view_facts))]
    pub(crate) fn pending_len(&self) -> u32
        ensures { result ≡ length self.now.state.pending }
    {
        self.queue.len()
    }

    /// Whether two values are equal.
    pub(crate) fn is_same(&self, a: &M::Value, b: &M::Value) -> bool
        ensures { result ≡ (M.rules self.now.content).same a.now b.now }
    {
        let _ = &self.content;
        M::same(a, b)
    }

    /// A refused value.
    pub(crate) fn on_refused(
        &self,
        alloc: Global,
        sender: u8,
        value: &M::Value,
        reason: Reason,
    ) -> Result<GroupPlan<M::Value>, AllocError>
        ensures { IfOk result (λ p. p ≡ on_refused (group_by (M.rules self.now.content) self.now) self.now.state sender value.now reason) }
    {
        if sender == self.coordinator {
            self.taken_back(alloc, value, reason)
        } else {
            Ok(nothing(alloc, Note::Ignored))
        }
    }

    /// A value that the coordinator refused.
    fn taken_back(
        &self,
        alloc: Global,
        value: &M::Value,
        reason: Reason,
    ) -> Result<GroupPlan<M::Value>, AllocError>
        ensures { IfOk result (λ p. p ≡ taken_back (M.rules self.now.content)
            (found ((M.rules self.now.content).same_key value.now) self.now.state.pending) value.now reason) }
    {
        let Known::Pending(there) = self.in_queue(value) else {
            return Ok(nothing(alloc, Note::Ignored));
        };
        if !self.is_same(there, value) {
            return Ok(nothing(alloc, Note::Ignored));
        }
        let value = M::copy(alloc, value)?;
        changes_one(
            alloc,
            Note::Refused(reason),
            GroupChange::Refuse(value, reason),
        )
    }
}
