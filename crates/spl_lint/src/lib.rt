//! The first line of a schedule that isn't one, and why.
#![tactic(auto)]

mod cause;
mod form;
mod linting;
mod wanted;

pub use cause::{Cause, cause_of};
pub use linting::{LintFault, lint};
pub use wanted::Wanted;
