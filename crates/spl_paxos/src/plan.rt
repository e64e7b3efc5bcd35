//! What a step of a member or a leader gives.

use spl_acceptor::{Acceptance, PaxosNote, PaxosRecord, PaxosSends, PledgeList};

/// What a step of a member gives: a note, at most one record, what it counts, and messages.
#[derive(Drop)]
pub struct MemberPlan {
    pub note: PaxosNote,
    pub change: Option<PaxosRecord>,
    pub count: Option<Acceptance>,
    pub sends: PaxosSends,
}

/// What becomes of the open ballot of a leader.
#[derive(Drop)]
pub enum LeaderMove {
    /// It stays as it is.
    Keep,
    /// This ballot is open, with no promise counted.
    Begin { ballot: u64 },
    /// A promise of an acceptor is counted for the open ballot.
    Hear { acceptor: u8, pairs: PledgeList },
    /// No ballot is open.
    Close,
}

/// What a step of a leader gives: a note, at most one record, a move of the open ballot, and messages.
#[derive(Drop)]
pub struct LeaderPlan {
    pub note: PaxosNote,
    pub change: Option<PaxosRecord>,
    pub opening: LeaderMove,
    pub sends: PaxosSends,
}
