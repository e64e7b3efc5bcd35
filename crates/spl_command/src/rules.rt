//! The rules of a batch.
ghost use Rattle.std.specs.{Prelude.◌≡◌, List.list_all};
ghost use Rattle.spl_command.specs.{TransactionRules.rules_but_length, Rules.{broken_batch, first_false, is_short, has_short_data, has_few_prefixes}};
ghost use Rattle.spl_command.specs.Rules.{has_few_commands, all_short};

use crate::batch::{Batch, Command, Transaction};
use spl_base::Piece;

/// How many transactions a batch has at most.
pub const MOST_TRANSACTIONS: usize = 16;

/// How many commands a transaction has at most.
pub const MOST_COMMANDS: usize = 16;

/// How many inputs a transaction has at most, and how many outputs.
pub const MOST_PREFIXES: usize = 8;

/// How many bytes a value, event data and receipt data have at most.
pub const LONGEST_DATA: usize = 4096;

/// How many bytes the byte form of a batch has at most.
pub const LONGEST_BATCH: usize = 32_768;

fn is_short(piece: &Piece) -> bool
    ensures { result ≡ is_short piece.now }
{
    piece.bytes().len() <= LONGEST_DATA
}

fn has_short_data(command: &Command) -> bool
    ensures { result ≡ has_short_data command.now }
{
    match command {
        Command::Set(_, value) => is_short(value),
        Command::Event(_, data) | Command::Data(data) => is_short(data),
        _ => true,
    }
}

fn has_few_prefixes(transaction: &Transaction) -> bool
    ensures { result ≡ has_few_prefixes transaction.now }
{
    transaction.inputs.len() <= MOST_PREFIXES && transaction.outputs.len() <= MOST_PREFIXES
}

fn has_few_commands(transaction: &Transaction) -> bool
    ensures { result ≡ has_few_commands transaction.now }
{
    let count = transaction.commands.len();
    1 <= count && count <= MOST_COMMANDS
}

fn all_short(transaction: &Transaction) -> bool
    ensures { result ≡ all_short transaction.now }
{
    transaction
        .commands
        .as_slice()
        .iter()
        .all(|c| has_short_data(c))
}

fn all_have_few_prefixes(transactions: &[Transaction]) -> bool
    ensures { result ≡ list_all has_few_prefixes transactions.now }
{
    transactions.iter().all(|t| has_few_prefixes(t))
}

fn all_have_few_commands(transactions: &[Transaction]) -> bool
    ensures { result ≡ list_all has_few_commands transactions.now }
{
    transactions.iter().all(|t| has_few_commands(t))
}

fn all_have_short_data(transactions: &[Transaction]) -> bool
    ensures { result ≡ list_all all_short transactions.now }
{
    transactions.iter().all(|t| all_short(t))
}

/// The number of the first of the rules 1 to 5 that a batch of these transactions breaks.
pub(crate) fn first_fault(transactions: &[Transaction]) -> Option<u8>
    ensures { result ≡ first_false 1 (rules_but_length transactions.now) }
{
    if transactions.is_empty() {
        Some(1)
    } else if MOST_TRANSACTIONS < transactions.len() {
        Some(2)
    } else if !all_have_few_prefixes(transactions) {
        Some(3)
    } else if !all_have_few_commands(transactions) {
        Some(4)
    } else if !all_have_short_data(transactions) {
        Some(5)
    } else {
        None
    }
}

impl Batch {
    /// The number of the first rule that the batch breaks, None where it keeps all six.
    pub fn fault(&self) -> Option<u8>
        ensures { result ≡ broken_batch self.now }
    {
        self.transactions.fault()
    }
}
