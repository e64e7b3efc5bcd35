//! The pending and the refused values of a member, by their keys.
#![tactic(auto)]

mod queue;

pub use queue::{Known, OfferFault, Offered, Queue};
