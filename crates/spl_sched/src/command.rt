//! Commands, as words.
ghost use Rattle.std.specs.{Prelude.{◌≡◌, ◌++◌, OnOk}, List.list_all, Option.option_map};
ghost use Rattle.spl_command.specs.declared.batch.Command.TheVariants as command;
ghost use Rattle.spl_words.specs.Words.{Reads};
ghost use Rattle.spl_sched.specs.Transactions.{is_tag_byte, is_tag, entry, told_word};

use crate::address::AddressText;
use spl_base::{Label, Piece, Writer};
use spl_command::Command;
use spl_words::{LineFault, Word, WordReader, after, take};
use std::alloc::{AllocError, Global};

/// How many bytes the type of an event has at most, and a text.
pub const LONGEST_TAG: usize = 64;

/// A graphic byte other than `=`.
fn is_tag_byte(b: u8) -> bool
    ensures { result ≡ is_tag_byte b }
{
    b.is_ascii_graphic() && b != b'='
}

fn all_tag_bytes(bytes: &[u8]) -> bool
    ensures { result ≡ list_all is_tag_byte bytes.now }
{
    bytes.iter().all(|b| is_tag_byte(*b))
}

fn is_tag(bytes: &[u8]) -> bool
    ensures { result ≡ is_tag bytes.now }
{
    1 <= bytes.len() && bytes.len() <= LONGEST_TAG && all_tag_bytes(bytes)
}

/// The type of an event, or a text.
struct Tag;

impl Word for Tag {
    ghost use Rattle.spl_sched.specs.Transactions.{tag};

    type Value = Label;

    ghost word = { tag };

    #[tactic(auto, using(crate::proofs::CommandLaws::tag_is_label))]
    fn read(_alloc: Global, bytes: &[u8]) -> Result<Label, LineFault> {
        if !is_tag(bytes) {
            return Err(LineFault::BadLine);
        }
        Label::read(bytes).ok_or(LineFault::BadLine)
    }

    fn put(value: &Label, w: &mut Writer) -> Result<(), AllocError> {
        w.put_raw(value.bytes())
    }
}

fn read_set(alloc: Global, bytes: &[u8]) -> Result<Command, LineFault>
    ensures { Reads result (option_map (λ x. command.Set x.0 x.1.0) (entry.read bytes.now)) }
{
    let mut words = WordReader::new(bytes, b'=');
    let address = take::<AddressText>(alloc, &mut words)?;
    let value = take::<Piece>(alloc, &mut words)?;
    words.end()?;
    Ok(Command::Set(address, value))
}

fn read_event(alloc: Global, bytes: &[u8]) -> Result<Command, LineFault>
    ensures { Reads result (option_map (λ x. command.Event x.0 x.1.0) (told_word.read bytes.now)) }
{
    let mut words = WordReader::new(bytes, b'=');
    let kind = take::<Tag>(alloc, &mut words)?;
    let data = take::<Piece>(alloc, &mut words)?;
    words.end()?;
    Ok(Command::Event(kind, data))
}

/// Appends these bytes and a word.
fn put_after<W: Word>(keyword: &[u8], value: &W::Value, w: &mut Writer) -> Result<(), AllocError>
    ensures { OnOk result (w.new ≡ w.old ++ (keyword.now ++ W.word.spell value.now)) }
{
    w.put_raw(keyword)?;
    W::put(value, w)
}

/// A command of a transaction.
pub(crate) struct CommandText;

impl Word for CommandText {
    ghost use Rattle.spl_sched.specs.Transactions.{command_word};

    type Value = Command;

    ghost word = { command_word };

    fn read(alloc: Global, bytes: &[u8]) -> Result<Command, LineFault> {
        if let Some(word) = after(b"set:", bytes) {
            read_set(alloc, word)
        } else if let Some(word) = after(b"get:", bytes) {
            Ok(Command::Get(AddressText::read(alloc, word)?))
        } else if let Some(word) = after(b"del:", bytes) {
            Ok(Command::Delete(AddressText::read(alloc, word)?))
        } else if let Some(word) = after(b"event:", bytes) {
            read_event(alloc, word)
        } else if let Some(word) = after(b"data:", bytes) {
            Ok(Command::Data(Piece::read(alloc, word)?))
        } else if let Some(word) = after(b"invalid:", bytes) {
            Ok(Command::Invalid(Tag::read(alloc, word)?))
        } else if let Some(word) = after(b"error:", bytes) {
            Ok(Command::Error(Tag::read(alloc, word)?))
        } else {
            Err(LineFault::BadLine)
        }
    }

    fn put(value: &Command, w: &mut Writer) -> Result<(), AllocError> {
        match value {
            Command::Set(address, value) => {
                put_after::<AddressText>(b"set:", address, w)?;
                put_after::<Piece>(b"=", value, w)
            }
            Command::Get(address) => put_after::<AddressText>(b"get:", address, w),
            Command::Delete(address) => put_after::<AddressText>(b"del:", address, w),
            Command::Event(kind, data) => {
                put_after::<Tag>(b"event:", kind, w)?;
                put_after::<Piece>(b"=", data, w)
            }
            Command::Data(data) => put_after::<Piece>(b"data:", data, w),
            Command::Invalid(text) => put_after::<Tag>(b"invalid:", text, w),
            Command::Error(text) => put_after::<Tag>(b"error:", text, w),
        }
    }
}
