//! Batches of commands on a state: their byte form, their rules, and what executing them gives.
#![tactic(auto)]

mod address;
mod apply;
mod batch;
mod cause;
mod checked;
mod codec;
mod execution;
mod laws;
mod prefixes;
mod receipt;
mod rules;
mod size;
mod values;

pub use apply::apply_receipts;
pub use batch::{Batch, Command, Commands, MOST_ITEMS, Transaction, Transactions};
pub use cause::{ERROR_COMMAND, INVALID_COMMAND, READ_OUTSIDE_INPUTS, WRITE_OUTSIDE_OUTPUTS};
pub use checked::CheckedTransactions;
pub use codec::{batches_are_read_back, no_batch_begins_another};
pub use execution::execute;
pub use laws::{
    states_are_in_address_order, the_cause_hangs_on_the_batch, the_changes_make_the_state,
    valid_batches_have_a_form, values_of_states_are_short,
};
pub use prefixes::Prefixes;
pub use receipt::{Changes, Events, Pieces, Receipt, Receipts, StateChange, StateEvent, Verdict};
pub use rules::{LONGEST_BATCH, LONGEST_DATA, MOST_COMMANDS, MOST_PREFIXES, MOST_TRANSACTIONS};
