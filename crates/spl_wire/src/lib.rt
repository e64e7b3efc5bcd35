//! What happens at a cell, and what is answered; messages between nodes, and records of journals.
#![tactic(auto)]

mod answer;
mod body;
mod change;
mod event;
mod laws;
mod message;
mod packing;
mod plan;
mod record;

pub use answer::{Answer, BatchStatus, Bit, Entries, Entry, Refusal};
pub use change::Change;
pub use event::Event;
pub use laws::{groups_have_all_changes, no_message_begins_another, no_record_begins_another};
pub use message::{LONGEST_MESSAGE, Message};
pub use packing::{PackedRecords, packed_records};
pub use plan::{Outgoing, Plan, SendList};
pub use record::{ChangeList, Record};
