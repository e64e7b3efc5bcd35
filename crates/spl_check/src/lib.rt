//! Checking a proof by the words of a command line: no node, no registry and no schedule has a part in it.
#![tactic(auto)]

mod checking;

pub use checking::{CheckFault, check_words};
