//! Batches, transactions and commands.
ghost use Rattle.std.specs.Prelude.{◌≡◌};

use crate::address::{put_address, take_address};
use crate::checked::CheckedTransactions;
use crate::prefixes::Prefixes;
use spl_base::{
    BatchId, Field, Label, Listing, Malformed, Piece, Reader, Writer, put_list, take_list,
};
use spl_state::Address;
use std::alloc::{AllocError, Global};

/// How many items a list in a batch has at most where it is read.
pub const MOST_ITEMS: u16 = 1024;

/// What a transaction does, one step of it (docs/RULES.md, Batches).
#[derive(Drop)]
pub enum Command {
    /// Writes a value at an address.
    Set(Address, Piece),
    /// Returns the value at an address, if there is one.
    Get(Address),
    /// Removes the value at an address, if there is one.
    Delete(Address),
    /// Reports an event of a type, with its data.
    Event(Label, Piece),
    /// Returns data.
    Data(Piece),
    /// Makes the batch invalid.
    Invalid(Label),
    /// Makes the batch invalid, for an error.
    Error(Label),
}

/// Commands, in the order in which they run.
pub type Commands = Listing<Command>;

/// Commands that run together, and the prefixes that they read and write under.
#[derive(Drop)]
pub struct Transaction {
    pub inputs: Prefixes,
    pub outputs: Prefixes,
    pub commands: Commands,
}

/// Transactions, in the order in which they run.
pub type Transactions = Listing<Transaction>;

/// Transactions that take effect together or not at all (docs/RULES.md, Batches). Its key is
/// its id. Copies share the transactions.
#[derive(Drop)]
pub struct Batch {
    pub id: BatchId,
    pub transactions: CheckedTransactions,
}

impl Field for Command {
    ghost use Rattle.spl_command.specs.Forms.{command, exact_command};

    ghost form = { command };

    fn put_parts(&self, w: &mut Writer) -> Result<(), AllocError> {
        match self {
            Command::Set(address, value) => {
                1u8.put_parts(w)?;
                put_address(address, w)?;
                value.put_parts(w)
            }
            Command::Get(address) => {
                2u8.put_parts(w)?;
                put_address(address, w)
            }
            Command::Delete(address) => {
                3u8.put_parts(w)?;
                put_address(address, w)
            }
            Command::Event(kind, data) => {
                4u8.put_parts(w)?;
                kind.put_parts(w)?;
                data.put_parts(w)
            }
            Command::Data(data) => {
                5u8.put_parts(w)?;
                data.put_parts(w)
            }
            Command::Invalid(text) => {
                6u8.put_parts(w)?;
                text.put_parts(w)
            }
            Command::Error(text) => {
                7u8.put_parts(w)?;
                text.put_parts(w)
            }
        }
    }

    fn take_parts(alloc: Global, r: &mut Reader) -> Result<Command, Malformed> {
        let at = r.place();
        match u8::take_parts(alloc, r)? {
            1 => {
                let address = take_address(r)?;
                Ok(Command::Set(address, Piece::take_parts(alloc, r)?))
            }
            2 => Ok(Command::Get(take_address(r)?)),
            3 => Ok(Command::Delete(take_address(r)?)),
            4 => {
                let kind = Label::take_parts(alloc, r)?;
                Ok(Command::Event(kind, Piece::take_parts(alloc, r)?))
            }
            5 => Ok(Command::Data(Piece::take_parts(alloc, r)?)),
            6 => Ok(Command::Invalid(Label::take_parts(alloc, r)?)),
            7 => Ok(Command::Error(Label::take_parts(alloc, r)?)),
            _ => Err(Malformed::At { at }),
        }
    }

    ghost exact = { exact_command };
}

impl Field for Transaction {
    ghost use Rattle.spl_command.specs.Forms.{transaction, exact_transaction};

    ghost form = { transaction };

    fn put_parts(&self, w: &mut Writer) -> Result<(), AllocError> {
        self.inputs.put_parts(w)?;
        self.outputs.put_parts(w)?;
        put_list(self.commands.as_slice(), w)
    }

    fn take_parts(alloc: Global, r: &mut Reader) -> Result<Transaction, Malformed> {
        let inputs = Prefixes::take_parts(alloc, r)?;
        let outputs = Prefixes::take_parts(alloc, r)?;
        let commands = take_list(alloc, r, MOST_ITEMS)?;
        Ok(Transaction {
            inputs,
            outputs,
            commands,
        })
    }

    ghost exact = { exact_transaction };
}

impl Field for Batch {
    ghost use Rattle.spl_command.specs.Forms.{batch, exact_batch};

    ghost form = { batch };

    fn put_parts(&self, w: &mut Writer) -> Result<(), AllocError> {
        self.id.0.put_parts(w)?;
        self.transactions.put_parts(w)
    }

    fn take_parts(alloc: Global, r: &mut Reader) -> Result<Batch, Malformed> {
        let id = BatchId(u64::take_parts(alloc, r)?);
        let transactions = CheckedTransactions::take_parts(alloc, r)?;
        Ok(Batch { id, transactions })
    }

    ghost exact = { exact_batch };
}
