//! Messages between nodes as bytes.
#![tactic(auto)]

mod carry;
mod exchange;
mod fault;
mod laws;
mod message;
mod pump;
mod straight;
mod transfer;

pub use carry::Carry;
pub use fault::PumpFault;
pub use laws::{honest_fabrics_never_lie, messages_go_on};
pub use pump::Pump;
pub use straight::Straight;
