//! What a member keeps durably of a round.

use spl_acceptor::PaxosRecord;

/// What a member keeps durably of a round: its vote and its decision, where it has them.
#[derive(Clone, Copy)]
pub struct Kept {
    pub vote: Option<bool>,
    pub decision: Option<bool>,
}

impl Kept {
    /// Nothing.
    pub const NONE: Kept = Kept {
        vote: None,
        decision: None,
    };

    ghost use Rattle.std.specs.Prelude.{◌≡◌};
    ghost use Rattle.spl_acceptor.specs.Records.{member_with};
    ghost use Rattle.spl_paxos.specs.Members.{member_of_kept};

    /// With the change of a record; those of acceptors and leaders change nothing.
    pub(crate) fn with(self, change: &PaxosRecord) -> Kept
        ensures { member_of_kept result ≡ member_with (member_of_kept self) change.now }
    {
        match change {
            PaxosRecord::Voted { yes, .. } => Kept {
                vote: Some(*yes),
                decision: self.decision,
            },
            PaxosRecord::Decided { commit, .. } => Kept {
                vote: self.vote,
                decision: Some(*commit),
            },
            _ => self,
        }
    }
}
