//! What any event gives.
ghost use Rattle.std.specs.Prelude.{◌≡◌, IfOk};
ghost use Rattle.spl_agree.specs.{Rows.{row, on_message}, Fits.{IsSettled, IsDue}};
ghost use Rattle.spl_commit.specs.Views.{group_by};

use crate::Member;
use spl_agree::{Agreed, CommitMsg, GroupEvent, GroupPlan};
use std::alloc::{AllocError, Global};

impl<M: Agreed> Member<M> {
    /// What an event gives: a note, durable changes, a move of the open round and messages, by the
    /// rules of a group. Nothing is changed. The only error is that memory ran out.
    pub fn plan(
        &self,
        alloc: Global,
        event: &GroupEvent<M::Value>,
    ) -> Result<GroupPlan<M::Value>, AllocError>
        requires settled { IsSettled (group_by (M.rules self.now.content) self.now) self.now.here self.now.state }
        requires due { IsDue (group_by (M.rules self.now.content) self.now) self.now.here self.now.state event.now }
        ensures { IfOk result (λ p. p ≡ row (group_by (M.rules self.now.content) self.now) self.now.here self.now.state event.now) }
    {
        self.row(alloc, event)
    }

    /// What a message of the group's generation from another position gives, as `plan` of that event.
    pub fn hear(
        &self,
        alloc: Global,
        sender: u8,
        message: &CommitMsg<M::Value>,
    ) -> Result<GroupPlan<M::Value>, AllocError>
        requires settled { IsSettled (group_by (M.rules self.now.content) self.now) self.now.here self.now.state }
        requires due { IsDue (group_by (M.rules self.now.content) self.now) self.now.here self.now.state (GroupEvent.From sender message.now) }
        ensures { IfOk result (λ p. p ≡ row (group_by (M.rules self.now.content) self.now) self.now.here self.now.state (GroupEvent.From sender message.now)) }
    {
        self.on_message(alloc, sender, message)
    }

    /// What any event gives.
    pub(crate) fn row(
        &self,
        alloc: Global,
        event: &GroupEvent<M::Value>,
    ) -> Result<GroupPlan<M::Value>, AllocError>
        ensures { IfOk result (λ p. p ≡ row (group_by (M.rules self.now.content) self.now) self.now.here self.now.state event.now) }
    {
        match event {
            GroupEvent::Tick => self.on_tick(alloc),
            GroupEvent::Expire => self.on_expire(alloc),
            GroupEvent::Submit(value) => self.on_submit(alloc, value),
            GroupEvent::From { sender, message } => self.on_message(alloc, *sender, message),
        }
    }

    /// A message of the group's generation.
    #[inline(always)]
    fn on_message(
        &self,
        alloc: Global,
        sender: u8,
        message: &CommitMsg<M::Value>,
    ) -> Result<GroupPlan<M::Value>, AllocError>
        ensures { IfOk result (λ p. p ≡ on_message (group_by (M.rules self.now.content) self.now) self.now.here self.now.state sender message.now) }
    {
        match message {
            CommitMsg::VoteRequest {
                round,
                place,
                value,
                ..
            } => self.on_vote_request(alloc, sender, *round, *place, value),
            CommitMsg::Vote { round, yes, .. } => self.on_vote(alloc, sender, *round, *yes),
            CommitMsg::Decision { round, commit, .. } => {
                self.on_decision(alloc, sender, *round, *commit)
            }
            CommitMsg::DecisionRequest { round, .. } => {
                self.on_decision_request(alloc, sender, *round)
            }
            CommitMsg::Forward { value, .. } => self.on_forward(alloc, sender, value),
            CommitMsg::Refused { value, reason, .. } => {
                self.on_refused(alloc, sender, value, *reason)
            }
        }
    }
}
