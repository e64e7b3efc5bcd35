//! The handshake by which two nodes name themselves to each other.
#![tactic(auto)]

mod fault;
mod greeting;
mod laws;
mod opening;

pub use fault::LinkFault;
pub use laws::{a_greeting_is_read_back, a_greeting_is_read_one_way, a_peer_is_heard};
pub use opening::{Named, Opening};
