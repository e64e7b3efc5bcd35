//! Lists of prefixes.
ghost use Rattle.std.specs.{Prelude.{◌≡◌, ◌++◌, ◌∷◌, [], length, nat_eq, IfOk, OnOk, OnErr, slice_get}, Option.option_copied};
ghost use Rattle.spl_command.specs.Execution.{covered};

use crate::batch::MOST_ITEMS;
use spl_base::{Field, Listing, Malformed, Reader, Value, Writer, put_list, take_list};
use spl_state::{Address, Prefix};
use std::alloc::{AllocError, Global};
use std::marker::Model;

/// A prefix as an item of a list: it has a form in bytes, it is compared and copied.
#[derive(Clone, Copy)]
pub(crate) struct PrefixItem(Prefix);

impl Model for PrefixItem {
    ghost use Rattle.std.specs.Prelude.{List, ℕ};

    ghost Value = { List ℕ };

    ghost view = { λ p. p.0 };

    ghost inverse = { λ xs. record { 0 = xs } };
}

impl PrefixItem {
    pub(crate) fn bytes(&self) -> &[u8]
        ensures { result.now ≡ self.now }
    {
        self.0.bytes()
    }
}

impl Field for PrefixItem {
    ghost use Rattle.spl_command.specs.Forms.{prefix, exact_prefix};

    ghost form = { prefix };

    #[tactic(auto, unfolding(spl_base::specs::Form::number_bytes))]
    fn put_parts(&self, w: &mut Writer) -> Result<(), AllocError> {
        let bytes = self.0.bytes();
        w.put_u8(bytes.len() as u8)?;
        w.put_raw(bytes)
    }

    fn take_parts(_alloc: Global, r: &mut Reader) -> Result<PrefixItem, Malformed> {
        let at = r.place();
        let len = r.take_u8()?;
        let Ok(bytes) = r.take_raw(len as usize) else {
            return Err(Malformed::At { at });
        };
        match Prefix::read(bytes) {
            Some(prefix) => Ok(PrefixItem(prefix)),
            None => Err(Malformed::At { at }),
        }
    }

    ghost exact = { exact_prefix };
}

impl Value for PrefixItem {
    fn same(&self, other: &PrefixItem) -> bool {
        self.0 == other.0
    }

    fn copy(&self, _alloc: Global) -> Result<PrefixItem, AllocError> {
        Ok(*self)
    }
}

/// The prefixes that a transaction reads or writes under. Contracts see a list of byte strings.
#[derive(Drop)]
pub struct Prefixes {
    items: Listing<PrefixItem>,
}

impl Model for Prefixes {
    ghost use Rattle.std.specs.Prelude.{List, ℕ};

    ghost Value = { List (List ℕ) };

    ghost view = { λ a. a.items };
}

impl Prefixes {
    /// No prefixes; nothing is allocated.
    pub fn new(alloc: Global) -> Self
        ensures { result ≡ [] }
    {
        Prefixes {
            items: Listing::new(alloc),
        }
    }

    /// No prefixes, with memory for so many of them.
    pub fn with_room(alloc: Global, room: usize) -> Result<Self, AllocError>
        ensures { IfOk result (λ l. l ≡ []) }
    {
        Ok(Prefixes {
            items: Listing::with_room(alloc, room)?,
        })
    }

    /// One prefix more, at the end. When memory runs out the list is as it was.
    pub fn push(&mut self, prefix: Prefix) -> Result<(), AllocError>
        ensures ok { OnOk result (self.new ≡ self.old ++ prefix ∷ []) }
        ensures err { OnErr result (self.new ≡ self.old) }
    {
        self.items.push(PrefixItem(prefix))
    }

    /// How many prefixes there are.
    pub fn len(&self) -> usize
        ensures { result ≡ length self.now }
    {
        self.items.len()
    }

    /// The prefix at a position from 0; None exactly after the end.
    pub fn get(&self, i: usize) -> Option<&Prefix>
        ensures { option_copied result ≡ slice_get self.now i }
    {
        match self.items.get(i) {
            Some(item) => Some(&item.0),
            None => None,
        }
    }

    pub(crate) fn items(&self) -> &[PrefixItem]
        ensures { result.now ≡ self.now }
    {
        self.items.as_slice()
    }

    /// Whether the address begins with one of them.
    pub(crate) fn cover(&self, address: &Address) -> bool
        ensures { result ≡ covered self.now address.now }
    {
        self.items.as_slice().iter().any(|p| p.0.covers(address))
    }
}

impl Field for Prefixes {
    ghost use Rattle.spl_command.specs.Forms.{prefixes, exact_prefixes};

    ghost form = { prefixes };

    fn put_parts(&self, w: &mut Writer) -> Result<(), AllocError> {
        put_list(self.items.as_slice(), w)
    }

    fn take_parts(alloc: Global, r: &mut Reader) -> Result<Prefixes, Malformed> {
        let items = take_list(alloc, r, MOST_ITEMS)?;
        Ok(Prefixes { items })
    }

    ghost exact = { exact_prefixes };
}

impl Value for Prefixes {
    fn same(&self, other: &Prefixes) -> bool {
        self.items.same(&other.items)
    }

    fn copy(&self, alloc: Global) -> Result<Prefixes, AllocError> {
        let items = self.items.copy(alloc)?;
        Ok(Prefixes { items })
    }
}
