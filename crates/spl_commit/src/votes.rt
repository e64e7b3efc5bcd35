//! What a vote gives.
ghost use Rattle.std.specs.Prelude.{◌≡◌, ◌∷◌, [], IfOk, false};
ghost use Rattle.spl_agree.specs.{Member.{below_but, none_left}, Rows.{on_vote, counted_vote, commit_open, abort_open}};
ghost use Rattle.spl_coord.specs.Positions.{positions};
ghost use Rattle.spl_commit.specs.Views.{group_by};

use crate::Member;
use crate::plans::nothing;
use crate::sends::{abort_each, decide_each};
use spl_agree::{
    Agreed, GroupChange, GroupChanges, GroupPlan, GroupSends, Note, OpenMove, Reason, Round,
};
use spl_coord::{Voted, Voting};
use std::alloc::{AllocError, Global};

impl<M: Agreed> Member<M> {
    /// A vote.
    pub(crate) fn on_vote(
        &self,
        alloc: Global,
        sender: u8,
        round: Round,
        yes: bool,
    ) -> Result<GroupPlan<M::Value>, AllocError>
        ensures { IfOk result (λ p. p ≡ on_vote (group_by (M.rules self.now.content) self.now) self.now.here self.now.state
            self.now.state.opened sender round yes) }
    {
        let Some((open, missing)) = self.opened else {
            return Ok(nothing(alloc, Note::Ignored));
        };
        if self.here != self.coordinator {
            return Ok(nothing(alloc, Note::Ignored));
        }
        if open != round {
            return Ok(nothing(alloc, Note::Ignored));
        }
        self.counted_vote(alloc, sender, round, missing, yes)
    }

    /// The open round without its value, made for one question: a plan asks what a vote does, and
    /// changes nothing.
    fn ballot(&self, round: Round, missing: u8) -> Voting<()>
        requires { none_left (positions missing) ≡ false }
        ensures { result ≡ record { round = round; value = tt; others = below_but self.now.members self.now.here; missing = positions missing } }
    {
        Voting::kept(round, (), self.others(), missing)
    }

    /// A vote on the open round.
    fn counted_vote(
        &self,
        alloc: Global,
        sender: u8,
        round: Round,
        missing: u8,
        yes: bool,
    ) -> Result<GroupPlan<M::Value>, AllocError>
        requires { none_left (positions missing) ≡ false }
        ensures { IfOk result (λ p. p ≡ counted_vote (group_by (M.rules self.now.content) self.now) self.now.here self.now.state
            sender round (positions missing) yes) }
    {
        if !self.is_other(sender) {
            return Ok(nothing(alloc, Note::Ignored));
        }
        match self.ballot(round, missing).on_vote(round, sender, yes) {
            Voted::Ignored(_) => Ok(nothing(alloc, Note::Ignored)),
            Voted::Counted(_) => Ok(GroupPlan {
                note: Note::Counted(round),
                changes: GroupChanges::new(alloc),
                opening: OpenMove::Yes(sender),
                sends: GroupSends::new(alloc),
            }),
            Voted::Committed(_, round, ()) => self.commit_open(alloc, round),
            Voted::Aborted(_, round, ()) => self.abort_open(alloc, round),
        }
    }

    /// The open round is committed with the first pending value.
    fn commit_open(&self, alloc: Global, round: Round) -> Result<GroupPlan<M::Value>, AllocError>
        ensures { IfOk result (λ p. p ≡ commit_open (group_by (M.rules self.now.content) self.now) self.now.here round self.now.state.pending) }
    {
        match self.first() {
            None => Ok(nothing(alloc, Note::Ignored)),
            Some(value) => self.commit_value(alloc, round, value),
        }
    }

    /// A round is committed with a value.
    fn commit_value(
        &self,
        alloc: Global,
        round: Round,
        value: &M::Value,
    ) -> Result<GroupPlan<M::Value>, AllocError>
        ensures { IfOk result (λ p. p ≡ commit_open (group_by (M.rules self.now.content) self.now) self.now.here round (value.now ∷ [])) }
    {
        let value = M::copy(alloc, value)?;
        Ok(GroupPlan {
            note: Note::Committed(round),
            changes: GroupChanges::one(alloc, GroupChange::Commit(round, value))?,
            opening: OpenMove::Close,
            sends: decide_each(alloc, self.generation, round, true, self.others())?,
        })
    }

    /// The open round is aborted, and the first pending value refused.
    fn abort_open(&self, alloc: Global, round: Round) -> Result<GroupPlan<M::Value>, AllocError>
        ensures { IfOk result (λ p. p ≡ abort_open (group_by (M.rules self.now.content) self.now) self.now.here round self.now.state.pending) }
    {
        match self.first() {
            None => Ok(nothing(alloc, Note::Ignored)),
            Some(value) => self.abort_value(alloc, round, value),
        }
    }

    /// A round is aborted, and its value refused.
    fn abort_value(
        &self,
        alloc: Global,
        round: Round,
        value: &M::Value,
    ) -> Result<GroupPlan<M::Value>, AllocError>
        ensures { IfOk result (λ p. p ≡ abort_open (group_by (M.rules self.now.content) self.now) self.now.here round (value.now ∷ [])) }
    {
        let refused = M::copy(alloc, value)?;
        Ok(GroupPlan {
            note: Note::Aborted(round),
            changes: GroupChanges::one(alloc, GroupChange::Refuse(refused, Reason::VOTED_NO))?,
            opening: OpenMove::Close,
            sends: abort_each::<M>(
                alloc,
                self.generation,
                round,
                value,
                Reason::VOTED_NO,
                self.others(),
            )?,
        })
    }
}
