//! Words of a line: reading them from the beginning of its bytes, and writing them.
#![tactic(auto)]

mod digits;
mod fault;
mod list;
mod number;
mod word;
mod words;

pub use digits::{Hex, put_bytes, put_hex, read_bytes, read_cells};
pub use fault::LineFault;
pub use list::ListOf;
pub use word::{Name, Word, put_next, take};
pub use words::{WordReader, after};
