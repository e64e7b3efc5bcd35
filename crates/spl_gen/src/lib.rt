//! Schedules that are made from a number.
#![tactic(auto)]

mod batch;
mod circuit;
mod draws;
mod generate;
mod laws;
mod lines;

pub use generate::{MOST_BATCHES, schedule};
pub use laws::{
    generated_lines_are_counted, generated_lines_are_lines, generated_lines_are_spelled,
};
