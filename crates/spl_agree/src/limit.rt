//! Limits of a group.

/// How many values may be pending at a member.
pub const MOST_PENDING: usize = 64;
