//! The lines of a schedule of Paxos Commit.

use spl_acceptor::Name;
use spl_agree::Round;

/// A line of a schedule.
#[derive(Clone, Copy)]
pub enum PaxosLine {
    /// A member votes in a round.
    Vote { member: u8, round: Round, yes: bool },
    /// A leader begins a ballot in a round.
    Lead { leader: u8, round: Round },
    /// The message of this number that was sent from the one to the other is delivered.
    Deliver { from: Name, to: Name, number: u32 },
    /// Asks for the decision of a member in a round.
    Show { member: u8, round: Round },
    Stop(Name),
    Start(Name),
}
