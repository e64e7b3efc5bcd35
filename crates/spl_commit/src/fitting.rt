//! Whether a durable change fits a member.
ghost use Rattle.std.specs.Prelude.{◌≡◌, ◌-◌, ◌^◌, ◌&&◌, nat_lt, true, length, IfOk, is_none};
ghost use Rattle.spl_agree.specs.{Member.{known, values, found_refused}, Fits.{has_nothing, is_new, fits, any_value, is_pending}};

use crate::Member;
use spl_agree::{Agreed, GroupChange, MOST_PENDING, Round};
use spl_queue::Known;
use std::alloc::{AllocError, Global};

impl<M: Agreed> Member<M> {
    /// Whether a change fits, so that it can be made. The only error is that memory ran out.
    pub fn fits(&self, alloc: Global, change: &GroupChange<M::Value>) -> Result<bool, AllocError>
        ensures { IfOk result (λ b. b ≡ fits (M.rules self.now.content) any_value self.now.state change.now) }
    {
        match change {
            GroupChange::Queue(value) => Ok(self.may_queue(value)),
            GroupChange::Refuse(value, _) => Ok(self.is_pending(value)),
            GroupChange::Begin(round) => Ok(*round == self.next && round.0 < u64::MAX),
            GroupChange::Seen(round) => Ok(self.is_newer(*round)),
            GroupChange::Promise(round, value) => {
                if !self.is_newer(*round) {
                    return Ok(false);
                }
                self.may_follow(alloc, value)
            }
            GroupChange::Abort => Ok(self.promise.is_some()),
            GroupChange::Commit(_, value) => self.may_follow(alloc, value),
            GroupChange::Restore { next, seen: _ } => Ok(self.is_new() && 0 < next.0),
            GroupChange::Kept(value, _) => Ok(self.has_nothing() && self.is_unrefused(value)),
        }
    }

    /// Whether nothing is committed, pending or promised.
    #[tactic(auto, using(crate::proofs::Keyed::view_facts))]
    fn has_nothing(&self) -> bool
        ensures { result ≡ has_nothing self.now.state }
    {
        self.history.len() == 0 && self.queue.len() == 0 && self.promise.is_none()
    }

    /// Whether the member is as it was made.
    #[tactic(auto, using(crate::proofs::Keyed::view_facts))]
    pub fn is_new(&self) -> bool
        ensures { result ≡ is_new self.now.state }
    {
        self.has_nothing() && self.queue.refused_len() == 0 && self.seen.0 == 0 && self.next.0 == 1
    }

    /// Whether no refused value has the key of this one, where nothing is pending.
    #[tactic(auto, using(crate::proofs::ChangeSteps::none_found))]
    fn is_unrefused(&self, value: &M::Value) -> bool
        requires { has_nothing self.now.state ≡ true }
        ensures { result ≡ is_none (found_refused ((M.rules self.now.content).same_key value.now) self.now.state.refused) }
    {
        match self.in_queue(value) {
            Known::No => true,
            _ => false,
        }
    }

    /// Whether a value isn't known, and fewer than `MOST_PENDING` are pending.
    fn may_queue(&self, value: &M::Value) -> bool
        ensures { result ≡ fits (M.rules self.now.content) any_value self.now.state (GroupChange.Queue value.now) }
    {
        self.is_unknown(value) && (self.pending_len() as usize) < MOST_PENDING
    }

    /// Whether nothing is known of the key of a value.
    fn is_unknown(&self, value: &M::Value) -> bool
        ensures { result ≡ is_none (known (M.rules self.now.content) self.now.state value.now) }
    {
        match self.in_history(value) {
            Some(_) => false,
            None => match self.in_queue(value) {
                Known::No => true,
                _ => false,
            },
        }
    }

    /// Whether an equal value is pending.
    fn is_pending(&self, value: &M::Value) -> bool
        ensures { result ≡ is_pending (M.rules self.now.content) value.now self.now.state.pending }
    {
        self.queue.keys_differ();
        match self.in_queue(value) {
            Known::Pending(there) => self.is_same(there, value),
            Known::Refused(_, _) => false,
            Known::No => false,
        }
    }

    /// Whether a round is newer than the last one seen, and nothing is promised.
    fn is_newer(&self, round: Round) -> bool
        ensures { result ≡ (nat_lt self.now.state.seen round && is_none self.now.state.promise) }
    {
        self.seen.0 < round.0 && self.promise.is_none()
    }

    /// Whether a place is left, and the check of a value is good.
    fn may_follow(&self, alloc: Global, value: &M::Value) -> Result<bool, AllocError>
        ensures { IfOk result (λ b. b ≡ (nat_lt (length self.now.state.history) (2 ^ 32 - 1)
            && is_none ((M.rules self.now.content).check (values self.now.state.history) value.now))) }
    {
        if self.place() == u32::MAX {
            return Ok(false);
        }
        Ok(self.content.check(alloc, value)?.is_none())
    }
}
