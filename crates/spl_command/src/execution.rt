//! Executing a batch on a state.
ghost use Rattle.std.specs.{Prelude.{◌≡◌, [], None, fold, IfOk, OnOk}, Option.option_copied};
ghost use Rattle.spl_command.specs.{Rules.broken_batch, Execution.{values_of, receipt_after, verdict_on}, Runs.{value_after, values_after_all}};
ghost use Rattle.spl_command.specs.Runs.{values_before, receipt_of, receipts_of};

use crate::batch::{Batch, Command, Transaction};
use crate::receipt::{Receipt, Receipts, StateChange, StateEvent, Verdict};
use spl_base::{Listing, Piece, Value};
use spl_state::{Address, State};
use std::alloc::{AllocError, Global};

/// The value at an address after a command, where `value` is the one before it.
fn value_after<'a>(
    value: Option<&'a [u8]>,
    command: &'a Command,
    address: &Address,
) -> Option<&'a [u8]>
    ensures { option_copied result ≡ value_after address.now (option_copied value.entry) command.now }
{
    match command {
        Command::Set(at, written) => {
            if address.cmp(at).is_eq() {
                Some(written.bytes())
            } else {
                value
            }
        }
        Command::Delete(at) => { if address.cmp(at).is_eq() { None } else { value } }
        Command::Get(_) => value,
        Command::Event(_, _) => value,
        Command::Data(_) => value,
        Command::Invalid(_) => value,
        Command::Error(_) => value,
    }
}

/// The value at an address after commands, where `value` is the one before them.
fn value_after_all<'a>(
    value: Option<&'a [u8]>,
    commands: &'a [Command],
    address: &Address,
) -> Option<&'a [u8]>
    ensures { option_copied result ≡ fold (value_after address.now) (option_copied value.entry) commands.now }
{
    let mut last = value;
    for command in commands {
        last = value_after(last, command, address);
    }
    last
}

/// What came before a command: a state, the transactions that ran on it, and the commands of the
/// next one.
#[derive(Clone, Copy)]
struct Past<'a> {
    state: &'a State,
    transactions: &'a [Transaction],
    commands: &'a [Command],
}

impl<'a> Past<'a> {
    /// The value at an address: the state's own, after what the batch did so far.
    fn value_at(&self, address: &Address) -> Option<&'a [u8]>
        ensures { option_copied result ≡ values_before self.now.state.now self.now.transactions.now self.now.commands.now address.now }
    {
        let mut value = self.state.get(address);
        for transaction in self.transactions {
            value = value_after_all(value, transaction.commands.as_slice(), address);
        }
        value_after_all(value, self.commands, address)
    }
}

/// The most changes that a receipt takes memory for before they come; most transactions have one.
const FEW: usize = 4;

impl Receipt {
    /// A receipt of nothing, with memory for so many changes.
    fn new(alloc: Global, room: usize) -> Result<Receipt, AllocError>
        ensures { IfOk result (λ r. r ≡ receipt_of (values_of []) []) }
    {
        Ok(Receipt {
            changes: Listing::with_room(alloc, room)?,
            events: Listing::new(alloc),
            returned: Listing::new(alloc),
        })
    }

    /// Adds what a command leaves.
    fn add(&mut self, alloc: Global, command: &Command, past: &Past) -> Result<(), AllocError>
        ensures { let values = values_before past.now.state.now past.now.transactions.now past.now.commands.now in
            OnOk result (self.new ≡ receipt_after values self.old command.now) }
    {
        match command {
            Command::Set(address, value) => {
                self.changes
                    .push(StateChange::Set(*address, value.copy(alloc)?))
            }
            Command::Get(address) => match past.value_at(address) {
                Some(value) => self.returned.push(Piece::from(alloc, value)?),
                None => Ok(()),
            },
            Command::Delete(address) => {
                if past.value_at(address).is_some() {
                    self.changes.push(StateChange::Delete(*address))
                } else {
                    Ok(())
                }
            }
            Command::Event(kind, data) => {
                let data = data.copy(alloc)?;
                self.events.push(StateEvent { kind: *kind, data })
            }
            Command::Data(data) => self.returned.push(data.copy(alloc)?),
            Command::Invalid(_) => Ok(()),
            Command::Error(_) => Ok(()),
        }
    }
}

/// The receipt of a transaction with these commands, after others.
fn receipt(
    alloc: Global,
    state: &State,
    transactions: &[Transaction],
    commands: &[Command],
) -> Result<Receipt, AllocError>
    ensures { IfOk result (λ r. r ≡ receipt_of (values_after_all (values_of state.now) transactions.now) commands.now) }
{
    let mut receipt = Receipt::new(alloc, commands.len().min(FEW))?;
    for (i, command) in commands.iter().enumerate() {
        let past = Past {
            state,
            transactions,
            commands: &commands[..i],
        };
        receipt.add(alloc, command, &past)?;
    }
    Ok(receipt)
}

fn receipts(
    alloc: Global,
    state: &State,
    transactions: &[Transaction],
) -> Result<Receipts, AllocError>
    ensures { IfOk result (λ rs. rs ≡ receipts_of (values_of state.now) transactions.now) }
{
    let mut receipts = Listing::with_room(alloc, transactions.len())?;
    for (i, transaction) in transactions.iter().enumerate() {
        let commands = transaction.commands.as_slice();
        let receipt = receipt(alloc, state, &transactions[..i], commands)?;
        receipts.push(receipt)?;
    }
    Ok(receipts)
}

/// What a batch that breaks no rule is on a state, which stays as it is. It takes look-ups in
/// the state, and passes over the commands of the batch itself. The only error is that memory ran out.
pub fn execute(alloc: Global, state: &State, batch: &Batch) -> Result<Verdict, AllocError>
    requires { broken_batch batch.now ≡ None }
    ensures { IfOk result (λ v. v ≡ verdict_on state.now batch.now) }
{
    match batch.cause() {
        Some((transaction, cause)) => Ok(Verdict::Invalid { transaction, cause }),
        None => {
            let receipts = receipts(alloc, state, batch.transactions.get().as_slice())?;
            Ok(Verdict::Valid(receipts))
        }
    }
}
