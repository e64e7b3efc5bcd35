//! What a process keeps on its disk.
ghost use Rattle.std.specs.Prelude.{◌≡◌};
ghost use Rattle.spl_acceptor.specs.Records.{is_own};

use spl_agree::Round;

/// A change of what a process keeps of a round.
#[derive(Clone, Copy, PartialEq, Eq)]
pub enum PaxosRecord {
    /// An acceptor promised this ballot.
    Promised {
        round: Round,
        ballot: u64,
    },
    /// An acceptor accepted this of a member, and promised its ballot.
    Accepted {
        round: Round,
        member: u8,
        ballot: u64,
        prepared: bool,
    },
    /// A member voted.
    Voted {
        round: Round,
        yes: bool,
    },
    /// A leader used this ballot.
    Used {
        round: Round,
        ballot: u64,
    },
    /// A member decided.
    Decided {
        round: Round,
        commit: bool,
    },
}

/// Whether a record is of one of so many members. One that names no member is.
pub fn is_own(members: u8, change: &PaxosRecord) -> bool
    ensures { result ≡ is_own members change.now }
{
    match change {
        PaxosRecord::Accepted { member, .. } => 0 < *member && *member <= members,
        _ => true,
    }
}
