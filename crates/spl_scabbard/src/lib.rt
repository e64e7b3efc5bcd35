//! What the batches of a circuit have left: the state, and what each batch did.
#![tactic(auto)]

mod agreed;
mod laws;
mod service;

pub use laws::receipts_are_those_at_the_place;
pub use service::Service;
pub use spl_base::BatchIds;
