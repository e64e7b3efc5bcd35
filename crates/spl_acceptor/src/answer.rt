//! What the lines of a schedule are answered.

use crate::PaxosNote;

/// What a line is answered.
#[derive(Clone, Copy)]
pub enum PaxosAnswer {
    /// What the step of a process reported.
    Told(PaxosNote),
    /// The member has no decision in the round.
    Undecided,
    /// Whether the member has committed the round or aborted it.
    Decided(bool),
    IsDown,
    IsUp,
    Refused(PaxosRefusal),
}

/// Why a line is refused.
#[derive(Clone, Copy)]
pub enum PaxosRefusal {
    /// The line's own process is down.
    Down,
    /// The member has voted in the round.
    Voted,
    /// Fewer messages than its number were sent on the pair.
    NoMessage,
}
