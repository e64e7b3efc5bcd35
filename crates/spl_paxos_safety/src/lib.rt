//! The laws of Paxos Commit: what the members of a run agree on, and when they decide. Each law is a function without a body.
#![tactic(auto)]

mod decision_laws;
mod example_laws;
mod message_laws;
mod record_laws;
mod settling_laws;

pub use decision_laws::rounds_agree;
pub use example_laws::schedules_are_answered;
pub use message_laws::orders_are_own;
pub use record_laws::records_fold;
pub use settling_laws::{ballots_stay_low, leaders_settle};
