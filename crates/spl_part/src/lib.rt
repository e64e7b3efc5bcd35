//! The states of a member that isn't the coordinator: nothing is promised, or the value of a round
//! is. Each call that changes the state consumes it.
#![tactic(auto)]

mod promise;

pub use promise::{Again, Decided, Free, Promised, Requested};
