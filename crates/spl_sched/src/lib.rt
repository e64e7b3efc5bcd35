//! The lines of a schedule.
#![tactic(auto)]

mod address;
mod check;
mod command;
mod fill;
mod known;
mod laws;
mod line;
mod read;
mod service;
mod step;
mod transaction;
mod write;

pub use laws::{
    lines_are_read_back, lines_have_one_spelling, silent_lines_are_no_lines,
    spellings_have_one_line,
};
pub use line::{Line, MOST_PASSES, ProofCheck, Step};
pub use read::read_line;
pub use spl_words::LineFault;
pub use write::write_line;
