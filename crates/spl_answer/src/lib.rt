//! The texts of answers.
#![tactic(auto)]

mod answer;
mod batches;
mod detail;
mod json;
mod names;
mod nodes;
mod note;
mod part;
mod receipts;

pub use answer::{append_text, text};
