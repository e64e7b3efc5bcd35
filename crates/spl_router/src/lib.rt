//! Where a message between services may go.
#![tactic(auto)]

mod way;

pub use spl_circuit::RouteFault;
pub use way::route;
