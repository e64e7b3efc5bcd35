//! The transactions of a batch, as words.
ghost use Rattle.std.specs.Prelude.{◌≡◌, ◌++◌, ◌∷◌, IfOk, OnOk, map};
ghost use Rattle.spl_words.specs.Words.{Reads, after_spaces};
ghost use Rattle.spl_sched.specs.Transactions.{Becomes, prefix_word, command_text, read_part, no_parts, with_part, with_word, read_open, read_transactions};
ghost use Rattle.spl_sched.specs.Transactions.{words_of_transaction, words_of_transactions};

use crate::address::read_prefix;
use crate::command::CommandText;
use spl_base::{Listing, Writer, is_text};
use spl_command::{Command, Prefixes, Transaction, Transactions};
use spl_state::Prefix;
use spl_words::{LineFault, Word, WordReader, after, put_bytes, put_next};
use std::alloc::{AllocError, Global};

/// What one word of a transaction says.
#[derive(Drop)]
pub(crate) enum Part {
    /// The transaction reads under the prefix.
    Input(Prefix),
    /// The transaction writes under the prefix.
    Output(Prefix),
    Command(Command),
}

fn read_part(alloc: Global, word: &[u8]) -> Result<Part, LineFault>
    ensures { Reads result (read_part word.now) }
{
    if let Some(digits) = after(b"in:", word) {
        Ok(Part::Input(read_prefix(alloc, digits)?))
    } else if let Some(digits) = after(b"out:", word) {
        Ok(Part::Output(read_prefix(alloc, digits)?))
    } else {
        Ok(Part::Command(CommandText::read(alloc, word)?))
    }
}

/// A transaction without parts. Its lists have memory for one item, which most have.
fn no_parts(alloc: Global) -> Result<Transaction, AllocError>
    ensures { IfOk result (λ t. t ≡ no_parts) }
{
    Ok(Transaction {
        inputs: Prefixes::new(alloc),
        outputs: Prefixes::with_room(alloc, 1)?,
        commands: Listing::with_room(alloc, 1)?,
    })
}

/// Adds a part to a transaction. An input comes before each output, and both before each command.
fn add_part(transaction: &mut Transaction, part: Part) -> Result<(), LineFault>
    ensures { Becomes result transaction.new (with_part transaction.old part) }
{
    let has_outputs = transaction.outputs.len() != 0;
    let has_commands = transaction.commands.len() != 0;
    match part {
        Part::Input(prefix) => {
            if has_outputs || has_commands {
                return Err(LineFault::BadLine);
            }
            transaction.inputs.push(prefix)?;
        }
        Part::Output(prefix) => {
            if has_commands {
                return Err(LineFault::BadLine);
            }
            transaction.outputs.push(prefix)?;
        }
        Part::Command(command) => transaction.commands.push(command)?,
    }
    Ok(())
}

/// Adds the part that the word says.
fn add_word(alloc: Global, transaction: &mut Transaction, word: &[u8]) -> Result<(), LineFault>
    ensures { Becomes result transaction.new (with_word transaction.old word.now) }
{
    let part = read_part(alloc, word)?;
    add_part(transaction, part)
}

/// The transactions whose words, after the first `tx`, these are.
fn read_after(alloc: Global, words: &mut WordReader) -> Result<Transactions, LineFault>
    ensures { Reads result (read_open no_parts words.old) }
{
    let mut done = Listing::with_room(alloc, 1)?;
    let mut open = no_parts(alloc)?;
    while let Some(word) = words.next() {
        if is_text(word, b"tx") {
            done.push(open)?;
            open = no_parts(alloc)?;
        } else {
            add_word(alloc, &mut open, word)?;
        }
    }
    done.push(open)?;
    Ok(done)
}

/// The transactions that all these words spell.
pub(crate) fn read_transactions(
    alloc: Global,
    words: &mut WordReader,
) -> Result<Transactions, LineFault>
    ensures { Reads result (read_transactions words.old) }
{
    match words.next() {
        Some(word) => {
            if is_text(word, b"tx") {
                read_after(alloc, words)
            } else {
                Err(LineFault::BadLine)
            }
        }
        None => Ok(Listing::new(alloc)),
    }
}

/// Appends a space, these bytes and the prefix.
fn put_prefix(keyword: &[u8], value: &Prefix, w: &mut Writer) -> Result<(), AllocError>
    ensures { OnOk result (w.new ≡ w.old ++ 32 ∷ (keyword.now ++ prefix_word.spell value.now)) }
{
    w.put_u8(b' ')?;
    w.put_raw(keyword)?;
    put_bytes(value.bytes(), w)
}

/// Appends each of the prefixes so.
fn put_prefixes(keyword: &[u8], prefixes: &Prefixes, w: &mut Writer) -> Result<(), AllocError>
    ensures { OnOk result (w.new ≡ w.old ++ after_spaces (map (λ p. keyword.now ++ prefix_word.spell p) prefixes.now)) }
{
    for i in 0..prefixes.len() {
        let Some(prefix) = prefixes.get(i) else {
            break;
        };
        put_prefix(keyword, prefix, w)?;
    }
    Ok(())
}

fn put_commands(commands: &[Command], w: &mut Writer) -> Result<(), AllocError>
    ensures { OnOk result (w.new ≡ w.old ++ after_spaces (map command_text commands.now)) }
{
    for command in commands {
        put_next::<CommandText>(command, w)?;
    }
    Ok(())
}

fn put_transaction(transaction: &Transaction, w: &mut Writer) -> Result<(), AllocError>
    ensures { OnOk result (w.new ≡ w.old ++ after_spaces (words_of_transaction transaction.now)) }
{
    w.put_raw(b" tx")?;
    put_prefixes(b"in:", &transaction.inputs, w)?;
    put_prefixes(b"out:", &transaction.outputs, w)?;
    put_commands(transaction.commands.as_slice(), w)
}

/// Appends the words of transactions, each after a space.
pub(crate) fn put_transactions(
    transactions: &[Transaction],
    w: &mut Writer,
) -> Result<(), AllocError>
    ensures { OnOk result (w.new ≡ w.old ++ after_spaces (words_of_transactions transactions.now)) }
{
    for transaction in transactions {
        put_transaction(transaction, w)?;
    }
    Ok(())
}
