//! Changes of a state that can still be given up.
ghost use Rattle.std.specs.{Prelude.{◌≡◌, not, filter, OnOk, OnErr}, Map.remove_entry, BTreeMap.{insert_entry, is_at}};
ghost use Rattle.spl_state.specs.Entries.{address_cmp};

use crate::address::Address;
use crate::state::{Replaced, State};
use std::alloc::{AllocError, Global};
use std::marker::Model;

/// Changes of a state, which the state takes whole or not at all. Contracts see its entries
/// before the changes and after them.
///
/// A write is made at once, and what it replaced is kept; a removal waits for the end, since the
/// memory that it would free is what undoing it would want.
#[derive(Drop)]
pub struct Draft {
    alloc: Global,
    state: State,
    replaced: Vec<Replaced>,
    removed: Vec<Address>,
}

impl Model for Draft {
    ghost use Rattle.spl_state.specs.Drafts.{Drafted, undone, without};

    ghost Value = { Drafted };

    ghost view = { λ d. record { before = undone d.state d.replaced.items; entries = without d.state d.removed.items } };
}

impl Draft {
    /// No changes of a state. It takes no memory.
    pub fn new(alloc: Global, state: State) -> Draft
        ensures before { result.before ≡ state }
        ensures entries { result.entries ≡ state }
    {
        Draft {
            alloc,
            state,
            replaced: Vec::new(alloc),
            removed: Vec::new(alloc),
        }
    }

    /// Takes the memory to keep what so many writes replace, so that they take none for it.
    pub fn reserve(&mut self, writes: usize) -> Result<(), AllocError>
        ensures { self.new ≡ self.old }
    {
        self.replaced.reserve(writes)
    }

    /// Writes a value at an address, over the one there. When memory runs out nothing is changed.
    pub fn set(&mut self, address: Address, value: &[u8]) -> Result<(), AllocError>
        ensures before { self.new.before ≡ self.old.before }
        ensures ok { OnOk result (self.new.entries ≡ insert_entry address_cmp self.old.entries address value.now) }
        ensures err { OnErr result (self.new.entries ≡ self.old.entries) }
    {
        self.replaced.reserve(1)?;
        let replaced = self.state.swap(self.alloc, address, value)?;
        self.replaced.push(replaced).unwrap();
        leave_out(&mut self.removed, &address);
        Ok(())
    }

    /// Removes the entry at an address, if there is one. When memory runs out nothing is changed.
    pub fn delete(&mut self, address: Address) -> Result<(), AllocError>
        ensures before { self.new.before ≡ self.old.before }
        ensures ok { OnOk result (self.new.entries ≡ remove_entry (is_at (address_cmp address)) self.old.entries) }
        ensures err { OnErr result (self.new.entries ≡ self.old.entries) }
    {
        self.removed.push(address)?;
        Ok(())
    }

    /// The state with the changes, which takes no memory.
    pub fn finish(self) -> State
        ensures { result ≡ self.entries }
    {
        let Draft {
            mut state,
            removed,
            ..
        } = self;
        for address in &removed {
            state.delete(address);
        }
        state
    }

    /// The state before the changes, which takes no memory.
    pub fn undo(self) -> State
        ensures { result ≡ self.before }
    {
        let Draft {
            alloc,
            mut state,
            mut replaced,
            ..
        } = self;
        while let Some(last) = replaced.pop() {
            state.put_back(alloc, last);
        }
        state
    }
}

/// Takes an address out of a list.
fn leave_out(addresses: &mut Vec<Address>, address: &Address)
    ensures { addresses.new.items ≡ filter (λ at. not (is_at (address_cmp address.now) at)) addresses.old.items }
{
    addresses.retain(
        |at: &Address| -> bool
            ensures { result ≡ not (is_at (address_cmp address.entry.now) at.now) }
        { !address.cmp(at).is_eq() },
    );
}
