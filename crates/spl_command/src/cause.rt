//! Why a batch is invalid.
ghost use Rattle.std.specs.Prelude.{◌≡◌, ◌≤◌, List, length, None};
ghost use Rattle.spl_command.specs.{Rules.broken_batch, Execution.{cause_in, cause_among, cause_from, cause_of, told_cause, verdict_on}};
ghost use Rattle.spl_state.specs.Entries.{Entry};

use crate::batch::{Batch, Command, Transaction};
use crate::rules::MOST_TRANSACTIONS;

/// The cause of a command that writes outside the outputs.
pub const WRITE_OUTSIDE_OUTPUTS: u8 = 9;

/// The cause of a command that reads outside the inputs.
pub const READ_OUTSIDE_INPUTS: u8 = 10;

/// The cause of the command Invalid.
pub const INVALID_COMMAND: u8 = 11;

/// The cause of the command Error.
pub const ERROR_COMMAND: u8 = 12;

impl Transaction {
    /// Why this command would make the batch invalid, if it would.
    fn cause_in(&self, command: &Command) -> Option<u8>
        ensures { result ≡ cause_in self.now command.now }
    {
        match command {
            Command::Set(address, _) | Command::Delete(address) => {
                if self.outputs.cover(address) {
                    None
                } else {
                    Some(WRITE_OUTSIDE_OUTPUTS)
                }
            }
            Command::Get(address) => {
                if self.inputs.cover(address) {
                    None
                } else {
                    Some(READ_OUTSIDE_INPUTS)
                }
            }
            Command::Event(_, _) | Command::Data(_) => None,
            Command::Invalid(_) => Some(INVALID_COMMAND),
            Command::Error(_) => Some(ERROR_COMMAND),
        }
    }

    /// The first cause among its commands.
    fn cause(&self) -> Option<u8>
        ensures { result ≡ cause_among self.now self.now.commands }
    {
        for command in self.commands.as_slice() {
            let cause = self.cause_in(command);
            if cause.is_some() {
                return cause;
            }
        }
        None
    }
}

/// The first cause among transactions, with its number, from 1.
pub(crate) fn first_cause(transactions: &[Transaction]) -> Option<(u8, u8)>
    requires { length transactions.now ≤ MOST_TRANSACTIONS }
    ensures { result ≡ cause_from 1 transactions.now }
{
    let mut number = 1u8;
    for transaction in transactions {
        if let Some(cause) = transaction.cause() {
            return Some((number, cause));
        }
        number += 1;
    }
    None
}

impl Batch {
    /// The first cause of invalidity and the number of its transaction, from 1, as the number
    /// and then the cause; None where the batch is valid. It is the same on every state.
    pub fn cause(&self) -> Option<(u8, u8)>
        requires { broken_batch self.now ≡ None }
        ensures cause { result ≡ cause_of self.now }
        ensures everywhere { (m : List Entry) → told_cause (verdict_on m self.now) ≡ result }
    {
        self.transactions.cause()
    }
}
