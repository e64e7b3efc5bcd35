//! The sockets of a node that serves: the endpoint where peers come, the socket where its operators ask, and the connections
//! of both. What they say of the outside is trusted.
#![tactic(auto)]

mod connection;
mod endpoint;
mod front;
mod line_buffer;
mod link;
mod metrics;
mod operators;
mod outbox;
mod peer;
mod peers;
mod rounds;
mod sockets;
mod strangers;
mod stream;

pub use sockets::{OpenFault, Sockets};
