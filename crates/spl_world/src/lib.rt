//! All nodes over their disks, and the messages between them.
#![tactic(auto)]

mod arriving;
mod beside;
mod calm;
mod carrying;
mod checking;
mod cut;
mod down;
mod events;
mod fault;
mod halt;
mod lines;
mod making;
mod opening;
mod outbox;
mod posts;
mod power;
mod slot;
mod step;
mod stops;
mod taken;
mod turn;
mod world;

pub use calm::{Calm, Turn};
pub use fault::WorldFault;
pub use lines::stops_node;
pub use making::sorted_ids;
pub use world::World;
