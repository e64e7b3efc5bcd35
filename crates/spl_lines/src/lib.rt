//! The lines of a source, and the answers that wait to be written.
#![tactic(auto)]

mod feed;
mod lines;
mod output;
mod reading;

pub use feed::{Feed, FeedFault};
pub use lines::{LONGEST_CHECK, is_silent, longest_line};
pub use output::Output;
pub use reading::{Said, Unread, read_admitted};
