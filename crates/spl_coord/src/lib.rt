//! The states of a coordinator: no round is open, or one is and votes are counted. Each call that
//! changes the state consumes it.
#![tactic(auto)]

mod decision;
mod positions;
mod voting;

pub use decision::decision_of;
pub use positions::{first_positions, has_position, is_empty, without_position};
pub use voting::{Idle, Voted, Voting};
