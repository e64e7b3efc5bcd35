//! Answers for people and for other programs: each with its words behind it, or as a JSON object.
#![tactic(auto)]

mod explaining;
mod fields;
mod forms;
mod numbers;
mod object;
mod quoted;
mod rows;
mod values;

pub use explaining::explain;
pub use object::put_object;
pub use rows::{Row, all_rows};
pub use values::{Value, all_round_values, all_values};
