//! The command line: what its words ask for, the registry that a run is of, and how a run ended.
#![tactic(auto)]

mod command;
mod registered;
mod status;

pub use command::{Command, command_of};
pub use registered::{read_registry, registries_are_small};
pub use status::Status;
