//! Messages in bodies of frames, a long one in parts.
#![tactic(auto)]

mod bodies;
mod fault;
mod frames;
mod joiner;
mod laws;

pub use bodies::{Bodies, split};
pub use fault::JoinFault;
pub use frames::{read_frames, write_frames};
pub use joiner::Joiner;
pub use laws::{a_message_is_joined, bodies_are_sized, no_bodies_are_of_two_messages};
