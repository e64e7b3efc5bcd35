//! What the members of a group say to one another.
ghost use Rattle.std.specs.Prelude.{◌≡◌};
ghost use Rattle.spl_agree.specs.Fits.{generation_of};

use crate::{Generation, Place, Reason, Round};

/// A message between two members of a group, with the generation of the sender's definition.
#[derive(Drop)]
pub enum CommitMsg<V> {
    /// The coordinator asks for a vote on a value at a place.
    VoteRequest {
        generation: Generation,
        round: Round,
        place: Place,
        value: V,
    },
    /// A member votes on a round.
    Vote {
        generation: Generation,
        round: Round,
        yes: bool,
    },
    /// The coordinator announces the decision of a round.
    Decision {
        generation: Generation,
        round: Round,
        commit: bool,
    },
    /// A member asks for the decision of a round.
    DecisionRequest {
        generation: Generation,
        round: Round,
    },
    /// A member hands a value to the coordinator.
    Forward {
        generation: Generation,
        value: V,
    },
    /// A value was refused.
    Refused {
        generation: Generation,
        value: V,
        reason: Reason,
    },
}

impl<V> CommitMsg<V> {
    /// The generation that it comes with.
    pub fn generation(&self) -> Generation
        ensures { result ≡ generation_of self.now }
    {
        match self {
            CommitMsg::VoteRequest { generation, .. } => *generation,
            CommitMsg::Vote { generation, .. } => *generation,
            CommitMsg::Decision { generation, .. } => *generation,
            CommitMsg::DecisionRequest { generation, .. } => *generation,
            CommitMsg::Forward { generation, .. } => *generation,
            CommitMsg::Refused { generation, .. } => *generation,
        }
    }
}
