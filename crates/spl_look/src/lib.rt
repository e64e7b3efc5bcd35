//! Questions to the files of a node: what its cells are told, without a node that runs and without a change; and whether they are its own.
#![tactic(auto)]

mod laws;
mod owners;
mod peeking;
mod question;
mod telling;

pub use laws::own_files_bind_their_node;
pub use owners::first_without;
pub use question::{Question, Unasked, read_question};
pub use telling::tell;
