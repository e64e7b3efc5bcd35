//! The packed form of a member.
ghost use Rattle.std.specs.{Prelude.{◌≡◌, ◌++◌, IfOk, [], ◌∷◌, Some, None}, Option.option_map};
ghost use Rattle.spl_agree.specs.Pack.{kept_each, committed_each, queued_each, promised_one, seen_without, packed_member};

use crate::Member;
use spl_agree::{Agreed, GroupChange, GroupChanges, Round};
use std::alloc::{AllocError, Global};

impl<M: Agreed> Member<M> {
    /// The changes that make the member of a new one, in their order. An error comes for want of
    /// memory alone.
    pub fn pack(&self, alloc: Global) -> Result<GroupChanges<M::Value>, AllocError>
        ensures { IfOk result (λ cs. cs ≡ packed_member self.now.state) }
    {
        let restore = GroupChange::Restore {
            next: self.next,
            seen: self.seen_without(),
        };
        let all = GroupChanges::one(alloc, restore)?;
        let all = self.with_refused(alloc, all)?;
        let all = self.with_history(alloc, all)?;
        let all = self.with_pending(alloc, all)?;
        self.with_promise(alloc, all)
    }

    /// The round seen without the promise, which sets it.
    fn seen_without(&self) -> Round
        ensures { result ≡ seen_without self.now.state.promise self.now.state.seen }
    {
        match &self.promise {
            Some(_) => Round(0),
            None => self.seen,
        }
    }

    /// The changes, and after them one for each refused value.
    fn with_refused(
        &self,
        alloc: Global,
        first: GroupChanges<M::Value>,
    ) -> Result<GroupChanges<M::Value>, AllocError>
        ensures { IfOk result (λ cs. cs ≡ first ++ kept_each self.now.state.refused) }
    {
        let mut all = first;
        let queue = &self.queue;
        for i in 0..queue.refused_len() {
            let (value, reason) = queue.refused_at(i).unwrap();
            all.push(GroupChange::Kept(M::copy(alloc, value)?, reason))?;
        }
        Ok(all)
    }

    /// The changes, and after them one for each value of the history.
    fn with_history(
        &self,
        alloc: Global,
        first: GroupChanges<M::Value>,
    ) -> Result<GroupChanges<M::Value>, AllocError>
        ensures { IfOk result (λ cs. cs ≡ first ++ committed_each self.now.state.history) }
    {
        let mut all = first;
        let history = &self.history;
        for i in 0..history.len() {
            if let Some(entry) = history.get(i) {
                all.push(GroupChange::Commit(entry.0, M::copy(alloc, entry.1)?))?;
            }
        }
        Ok(all)
    }

    /// The changes, and after them one for each pending value.
    fn with_pending(
        &self,
        alloc: Global,
        first: GroupChanges<M::Value>,
    ) -> Result<GroupChanges<M::Value>, AllocError>
        ensures { IfOk result (λ cs. cs ≡ first ++ queued_each self.now.state.pending) }
    {
        let mut all = first;
        let queue = &self.queue;
        for i in 0..queue.len() {
            let value = queue.pending_at(i).unwrap();
            all.push(GroupChange::Queue(M::copy(alloc, value)?))?;
        }
        Ok(all)
    }

    /// The changes, and after them the promise, if there is one.
    fn with_promise(
        &self,
        alloc: Global,
        first: GroupChanges<M::Value>,
    ) -> Result<GroupChanges<M::Value>, AllocError>
        ensures { IfOk result (λ cs. cs ≡ first ++ promised_one self.now.state.promise) }
    {
        let mut all = first;
        if let Some((round, value)) = self.promise() {
            all.push(GroupChange::Promise(round, M::copy(alloc, value)?))?;
        }
        Ok(all)
    }
}
