//! What a request for a vote, a decision and a request for a decision give.
ghost use Rattle.std.specs.Prelude.{◌≡◌, ◌==◌, if◌then◌else◌, IfOk, false};
ghost use Rattle.spl_agree.specs.{Member.decision, Rows.{on_vote_request, requested, requested_free, fits_here, on_decision, decided, told}};
ghost use Rattle.spl_agree.specs.Rows.{on_decision_request, sends_one, both};
ghost use Rattle.spl_commit.specs.Views.{group_by};

use crate::Member;
use crate::plans::{both, changes_one, nothing, sends_one};
use spl_agree::{Agreed, CommitMsg, GroupChange, GroupPlan, Note, Place, Round};
use spl_coord::decision_of;
use spl_part::{Again, Decided, Free, Promised, Requested};
use std::alloc::{AllocError, Global};

impl<M: Agreed> Member<M> {
    /// A request for a vote.
    pub(crate) fn on_vote_request(
        &self,
        alloc: Global,
        sender: u8,
        round: Round,
        place: Place,
        value: &M::Value,
    ) -> Result<GroupPlan<M::Value>, AllocError>
        ensures { IfOk result (λ p. p ≡ on_vote_request (group_by (M.rules self.now.content) self.now) self.now.state sender round place value.now) }
    {
        if sender == self.coordinator {
            return self.requested(alloc, sender, round, place, value);
        }
        sends_one(
            alloc,
            Note::Declined(round),
            sender,
            self.vote(round, false),
        )
    }

    /// A request of the coordinator for a vote.
    fn requested(
        &self,
        alloc: Global,
        sender: u8,
        round: Round,
        place: Place,
        value: &M::Value,
    ) -> Result<GroupPlan<M::Value>, AllocError>
        ensures { IfOk result (λ p. p ≡ requested (group_by (M.rules self.now.content) self.now) self.now.state self.now.state.promise
            sender round place value.now) }
    {
        let Some(promise) = &self.promise else {
            let fits = self.fits_here(alloc, place, value)?;
            return self.requested_free(alloc, sender, round, value, fits);
        };
        match promise.on_request(round) {
            Again::Yes => sends_one(alloc, Note::Again(round), sender, self.vote(round, true)),
            Again::Ask(promised) => sends_one(
                alloc,
                Note::Asked(promised),
                sender,
                self.decision_request(promised),
            ),
        }
    }

    /// Whether the place is the next one, there is one, and the check is good.
    fn fits_here(&self, alloc: Global, place: Place, value: &M::Value) -> Result<bool, AllocError>
        ensures { IfOk result (λ b. b ≡ fits_here (M.rules self.now.content) self.now.state.history place value.now) }
    {
        if place.0 != self.place() || place.0 == u32::MAX {
            return Ok(false);
        }
        Ok(self.content.check(alloc, value)?.is_none())
    }

    /// A request of the coordinator for a vote, where nothing is promised.
    fn requested_free(
        &self,
        alloc: Global,
        sender: u8,
        round: Round,
        value: &M::Value,
        fits: bool,
    ) -> Result<GroupPlan<M::Value>, AllocError>
        ensures { IfOk result (λ p. p ≡ requested_free self.now.generation self.now.state.history self.now.state.seen sender round value.now fits) }
    {
        let committed = self.history.has_round(round);
        // The states answer what a request does; a plan changes nothing, so one is made for the question.
        match Free::new().on_request(self.seen, round, committed, fits, ()) {
            Requested::Ignored(_, ()) => Ok(nothing(alloc, Note::Ignored)),
            Requested::Promised(_) => both(
                alloc,
                Note::Promised(round),
                GroupChange::Promise(round, M::copy(alloc, value)?),
                sender,
                self.vote(round, true),
            ),
            Requested::Declined(_, ()) => self.declined(alloc, sender, round),
        }
    }
}

impl<M: Agreed> Member<M> {
    /// A round that is not promised, of at least the last one seen: where it is newer, it is seen now.
    fn declined(
        &self,
        alloc: Global,
        sender: u8,
        round: Round,
    ) -> Result<GroupPlan<M::Value>, AllocError>
        ensures { IfOk result (λ p. p ≡
            (if self.now.state.seen == round then sends_one (Note.Declined round) sender (CommitMsg.Vote self.now.generation round false)
            else both (Note.Declined round) (GroupChange.Seen round) sender (CommitMsg.Vote self.now.generation round false))) }
    {
        let no = self.vote(round, false);
        if round == self.seen {
            sends_one(alloc, Note::Declined(round), sender, no)
        } else {
            both(
                alloc,
                Note::Declined(round),
                GroupChange::Seen(round),
                sender,
                no,
            )
        }
    }

    /// A decision.
    pub(crate) fn on_decision(
        &self,
        alloc: Global,
        sender: u8,
        round: Round,
        commit: bool,
    ) -> Result<GroupPlan<M::Value>, AllocError>
        ensures { IfOk result (λ p. p ≡ on_decision (group_by (M.rules self.now.content) self.now) self.now.state sender round commit) }
    {
        if sender != self.coordinator {
            return Ok(nothing(alloc, Note::Ignored));
        }
        let Some(promise) = &self.promise else {
            return Ok(nothing(alloc, Note::Ignored));
        };
        // Made for the question too: the promise itself stays.
        match Promised::kept(promise.tick(), ()).on_decision(round, commit) {
            Decided::Ignored(_) => Ok(nothing(alloc, Note::Ignored)),
            Decided::Aborted(_, round, ()) => {
                changes_one(alloc, Note::Aborted(round), GroupChange::Abort)
            }
            Decided::Committed(_, round, ()) => {
                let value = M::copy(alloc, promise.value())?;
                changes_one(
                    alloc,
                    Note::Committed(round),
                    GroupChange::Commit(round, value),
                )
            }
        }
    }

    /// The decision of a round at the coordinator, where it is known.
    fn decision(&self, round: Round) -> Option<bool>
        ensures { result ≡ decision self.now.state round }
    {
        let opened = match self.opened {
            Some((open, _)) => Some(open),
            None => None,
        };
        // The rounds that the history has of this one: itself, or none.
        if self.history.has_round(round) {
            decision_of(&[round], self.next, opened, round)
        } else {
            decision_of(&[], self.next, opened, round)
        }
    }

    /// A request for a decision.
    pub(crate) fn on_decision_request(
        &self,
        alloc: Global,
        sender: u8,
        round: Round,
    ) -> Result<GroupPlan<M::Value>, AllocError>
        ensures { IfOk result (λ p. p ≡ on_decision_request (group_by (M.rules self.now.content) self.now) self.now.here self.now.state sender round) }
    {
        if self.here != self.coordinator || !self.is_other(sender) {
            return Ok(nothing(alloc, Note::Ignored));
        }
        let Some(commit) = self.decision(round) else {
            return Ok(nothing(alloc, Note::Ignored));
        };
        sends_one(
            alloc,
            Note::Told(round, commit),
            sender,
            CommitMsg::Decision {
                generation: self.generation,
                round,
                commit,
            },
        )
    }
}
