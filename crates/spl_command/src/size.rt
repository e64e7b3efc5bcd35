//! How long byte forms are.
ghost use Rattle.std.specs.{Prelude.{◌≡◌, ◌+◌, length}, List.flat_map};
ghost use Rattle.spl_command.specs.Sizes.{capped};

use crate::batch::{Command, Transaction};
use crate::prefixes::{PrefixItem, Prefixes};
use spl_base::Field;
use spl_state::Address;

/// A value that reports the length of its byte form without writing it.
pub(crate) trait Measured: Field {
    /// The length of the byte form, or the greatest number where that is more.
    fn size(&self) -> usize
        ensures { result ≡ capped (length (Self.form.spell self.now)) };
}

/// The length of the byte form of a list.
pub(crate) fn list_size<T: Measured>(items: &[T]) -> usize
    ensures { result ≡ capped (2 + length (flat_map T.form.spell items.now)) }
{
    let mut total = 2usize;
    for x in items {
        total = total.saturating_add(x.size());
    }
    total
}

impl Measured for PrefixItem {
    fn size(&self) -> usize {
        self.bytes().len().saturating_add(1)
    }
}

impl Measured for Prefixes {
    fn size(&self) -> usize {
        list_size(self.items())
    }
}

fn address_size(a: &Address) -> usize
    ensures { result ≡ length a.now.0 }
{
    a.0.as_slice().len()
}

impl Measured for Command {
    fn size(&self) -> usize {
        match self {
            Command::Set(address, value) => 3usize
                .saturating_add(address_size(address))
                .saturating_add(value.bytes().len()),
            Command::Get(address) => 1usize.saturating_add(address_size(address)),
            Command::Delete(address) => 1usize.saturating_add(address_size(address)),
            Command::Event(kind, data) => 5usize
                .saturating_add(kind.bytes().len())
                .saturating_add(data.bytes().len()),
            Command::Data(data) => 3usize.saturating_add(data.bytes().len()),
            Command::Invalid(text) => 3usize.saturating_add(text.bytes().len()),
            Command::Error(text) => 3usize.saturating_add(text.bytes().len()),
        }
    }
}

impl Measured for Transaction {
    fn size(&self) -> usize {
        self.inputs
            .size()
            .saturating_add(self.outputs.size())
            .saturating_add(list_size(self.commands.as_slice()))
    }
}
