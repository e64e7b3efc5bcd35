//! The kinds of processes.

/// A member, which votes and decides.
pub const MEMBER: u8 = 1;

/// An acceptor, which promises and accepts.
pub const ACCEPTOR: u8 = 2;

/// A leader, which begins ballots.
pub const LEADER: u8 = 3;
