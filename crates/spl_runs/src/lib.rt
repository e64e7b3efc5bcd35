//! A run: it takes a schedule line by line, runs the tasks that each line asks for, and writes the answers.
#![tactic(auto)]

mod begin;
mod calm;
mod fault;
mod halt;
mod law;
mod lines;
mod mode;
mod read;
mod run;
mod told;
mod watch;
mod whole;

pub use fault::{RunEnd, RunFault};
pub use halt::{Forgetting, Halt, Picking};
pub use law::calms_are_their_steps;
pub use mode::{Beginning, Mode, Setup, Writing};
pub use whole::run_lines;
