//! The registry: which nodes there are, in which order, and where they are reached.
#![tactic(auto)]

mod entries;
mod fault;
mod node;
mod registry;
mod tree;

pub use fault::RegistryFault;
pub use node::Node;
pub use registry::Registry;
