//! A finite map from addresses to bytes, in address order, with the root of its 16-way tree, and
//! changes of it that can be given up.
#![tactic(auto)]

mod address;
mod beginnings;
mod digest;
mod draft;
mod known;
mod piece;
mod prefix;
mod run_cache;
mod state;
mod tree;

pub use address::Address;
pub use draft::Draft;
pub use prefix::Prefix;
pub use run_cache::RunCache;
pub use state::State;
