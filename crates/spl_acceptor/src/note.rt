//! What is reported of a step.

use crate::PaxosSends;

/// What is reported of a step.
#[derive(Clone, Copy, PartialEq, Eq)]
pub enum PaxosNote {
    /// The vote is kept.
    Voted,
    /// The leader has no ballot left.
    Spent,
    /// This ballot is begun.
    Ballot(u64),
    /// This ballot is promised.
    Promised(u64),
    /// A higher ballot, this one, was promised before.
    Higher(u64),
    /// What was to be accepted is.
    Accepted,
    /// What was heard is counted.
    Counted,
    /// The orders of this ballot are sent.
    Sent(u64),
    /// No ballot up to this one is used from now on.
    Noted(u64),
    /// The round is aborted here.
    Abort,
    /// The round is committed here.
    Commit,
    Ignored,
}

/// What a step gave: a note, and messages in the order in which they are sent.
#[derive(Drop)]
pub struct Stepped {
    pub note: PaxosNote,
    pub sends: PaxosSends,
}
