//! Limits that several crates share.

/// How many bytes a record of a journal has at most.
pub const LONGEST_RECORD: usize = 65_536;

/// How many bytes a line of a schedule has at most, where none of its kind may have more.
pub const LONGEST_LINE: usize = 32_768;
