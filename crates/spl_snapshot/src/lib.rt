//! Records on two disks, of which one counts; a checkpoint writes them again on the other.
#![tactic(auto)]

mod anew;
mod carrying;
mod choice;
mod keeping;
mod laws;
mod pairing;
mod walking;

pub use keeping::Packed;
pub use laws::{appends_to_pairs_are_kept_or_lost, groups_on_pairs_are_kept_or_lost};
pub use pairing::{Pairing, format_pair};
pub use walking::{PairWalk, walk_pair};
