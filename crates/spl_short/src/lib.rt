//! Short addresses: names that stand for their bytes, in lines that an operator writes, and in answers.
#![tactic(auto)]

mod places;
mod shortened;
mod written;

pub use shortened::put_shortened;
pub use written::write_out;
