//! The batches of a generated schedule.
ghost use Rattle.std.specs.Prelude.{◌≡◌, ◌∷◌, [], IfOk};
ghost use Rattle.spl_gen.specs.Batches.{generated_address, generated_batch};

use spl_base::{BatchId, Listing, Piece};
use spl_command::{Batch, CheckedTransactions, Command, Prefixes, Transaction};
use spl_state::{Address, Prefix};
use std::alloc::{AllocError, Global};

fn address(place: u32) -> Address
    ensures { result ≡ generated_address place }
{
    let mut bytes = [0; 35];
    bytes[34] = (place % 16) as u8;
    Address(bytes)
}

fn outputs(alloc: Global) -> Result<Prefixes, AllocError>
    ensures { IfOk result (λ ps. ps ≡ [] ∷ []) }
{
    let mut outputs = Prefixes::new(alloc);
    outputs.push(Prefix::read(b"").unwrap())?;
    Ok(outputs)
}

/// The batch of this number, which writes the value at the address of the place.
pub(crate) fn batch(alloc: Global, number: u64, place: u32, value: u32) -> Result<Batch, AllocError>
    ensures { IfOk result (λ b. b ≡ generated_batch number place value) }
{
    let value = Piece::from(alloc, &value.to_be_bytes())?;
    let mut commands = Listing::new(alloc);
    commands.push(Command::Set(address(place), value))?;
    let mut transactions = Listing::new(alloc);
    transactions.push(Transaction {
        inputs: Prefixes::new(alloc),
        outputs: outputs(alloc)?,
        commands,
    })?;
    Ok(Batch {
        id: BatchId(number),
        transactions: CheckedTransactions::new(alloc, transactions)?,
    })
}
