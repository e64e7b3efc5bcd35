//! The messages that a member makes in several places, in its own generation.
ghost use Rattle.std.specs.Prelude.{◌≡◌, IfOk};

use crate::Member;
use spl_agree::{Agreed, CommitMsg, Round};
use std::alloc::{AllocError, Global};

impl<M: Agreed> Member<M> {
    /// A vote on a round.
    pub(crate) fn vote(&self, round: Round, yes: bool) -> CommitMsg<M::Value>
        ensures { result ≡ CommitMsg.Vote self.now.generation round yes }
    {
        CommitMsg::Vote {
            generation: self.generation,
            round,
            yes,
        }
    }

    /// The question for the decision of a round.
    pub(crate) fn decision_request(&self, round: Round) -> CommitMsg<M::Value>
        ensures { result ≡ CommitMsg.DecisionRequest self.now.generation round }
    {
        CommitMsg::DecisionRequest {
            generation: self.generation,
            round,
        }
    }

    /// A value on its way to the coordinator.
    pub(crate) fn forward(
        &self,
        alloc: Global,
        value: &M::Value,
    ) -> Result<CommitMsg<M::Value>, AllocError>
        ensures { IfOk result (λ m. m ≡ CommitMsg.Forward self.now.generation value.now) }
    {
        Ok(CommitMsg::Forward {
            generation: self.generation,
            value: M::copy(alloc, value)?,
        })
    }
}
