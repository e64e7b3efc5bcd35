//! Records on a disk, each after a gate that is opened once the record is synced.
#![tactic(auto)]

mod bytes;
mod clearing;
mod filling;
mod form;
mod gate;
mod journal;
mod journal_form;
mod laws;
mod make;
mod read;
mod records;
mod walk;

pub use clearing::{Cleared, clear};
pub use filling::fill;
pub use form::{Form, JournalFault, fault_of};
pub use journal::{Journal, SLACK};
pub use journal_form::{JournalForm, OLD, WRITTEN};
pub use laws::{appends_are_kept_or_lost, groups_are_kept_or_lost, heads_are_opened_last};
pub use make::format;
pub use records::Records;
pub use walk::Walk;
