//! How a process that serves ends where nothing failed.

/// How a process ended.
#[derive(Clone, Copy, PartialEq, Eq)]
pub enum Finish {
    /// It served all its turns.
    Turns,
    /// Somebody had asked that it stop.
    Stopped,
}
