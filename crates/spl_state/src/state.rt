//! States: finite maps from addresses to bytes, with their roots.
ghost use Rattle.std.specs.Prelude.{◌≡◌, ◌≤◌, ◌<◌, ◌-◌, ◌∷◌, [], ℕ, length, IfOk, OnOk, OnErr, MatchOption, IsTrue, option_copied, is_some};
ghost use Rattle.std.specs.{FinMap.Entries.is_sorted, Map.{lookup, remove_entry}, BTreeMap.{insert_entry, is_at}};
ghost use Rattle.spl_state.specs.{Drafts.{over, put_back}, Entries.{address_cmp, covered}, Root.{node_at, digits_of, under}};

use crate::address::Address;
use crate::piece::Piece;
use crate::prefix::Prefix;
use crate::run_cache::RunCache;
use crate::tree::Tree;
use std::alloc::{AllocError, Global};
use std::marker::Model;

/// What a write replaced: the value at an address, if there was one.
#[derive(Drop)]
pub(crate) struct Replaced {
    address: Address,
    value: Option<Piece>,
}

/// A finite map from addresses to bytes (docs/RULES.md, State). Contracts see its entries in
/// address order. It keeps the digests of its parts: a write makes those above it stale, and
/// `renew` makes them again.
#[derive(Drop)]
pub struct State {
    tree: Tree,
}

impl Model for State {
    ghost use Rattle.std.specs.Prelude.{List, ℕ};
    ghost use Rattle.spl_state.specs.{Kept.IsState, declared.address.Address.Address as AddressValue};

    ghost Value = { List (AddressValue × List ℕ) };

    ghost view = { λ s. s.tree.entries };

    ghost invariant = { λ s. IsState s.tree.depth s.tree.entries };
}

impl State {
    /// No entry. It takes no memory.
    pub fn new() -> State
        ensures { result ≡ [] }
    {
        State { tree: Tree::new(0) }
    }

    /// The value at an address; None exactly where there is none.
    #[tactic(auto, using(crate::proofs::Bytes::lookup_by_bytes))]
    pub fn get(&self, address: &Address) -> Option<&[u8]>
        ensures { option_copied result ≡ lookup (is_at (address_cmp address.now)) self.now }
    {
        self.tree.get(address)
    }

    /// Writes a value at an address, over the one there. When memory runs out nothing is changed.
    pub fn set(&mut self, alloc: Global, address: Address, value: &[u8]) -> Result<(), AllocError>
        ensures ok { OnOk result (self.new ≡ insert_entry address_cmp self.old address value.now) }
        ensures err { OnErr result (self.new ≡ self.old) }
    {
        self.swap(alloc, address, value)?;
        Ok(())
    }

    /// Writes a value at an address, and says what it replaced, by which `put_back` makes the
    /// state of before. When memory runs out nothing is changed.
    #[tactic(auto, using(crate::proofs::Bytes::insert_by_bytes, crate::proofs::Bytes::state_same, crate::proofs::Bytes::state_written))]
    pub(crate) fn swap(
        &mut self,
        alloc: Global,
        address: Address,
        value: &[u8],
    ) -> Result<Replaced, AllocError>
        ensures rising { OnOk result (IsTrue (is_sorted address_cmp self.old)) }
        ensures ok { OnOk result (self.new ≡ insert_entry address_cmp self.old address value.now) }
        ensures undone { IfOk result (λ r. put_back self.new r ≡ self.old) }
        ensures err { OnErr result (self.new ≡ self.old) }
    {
        let piece = Piece::from(alloc, value)?;
        let value = self.tree.swap(alloc, address, piece)?;
        Ok(Replaced { address, value })
    }

    /// Puts back what a write replaced; where it wrote over a value that is gone since, nothing is
    /// changed.
    pub(crate) fn put_back(&mut self, alloc: Global, replaced: Replaced)
        ensures { self.new ≡ put_back self.old replaced }
    {
        let Replaced { address, value } = replaced;
        match value {
            Some(former) => self.write_over(alloc, address, former),
            None => {
                self.delete(&address);
            }
        }
    }

    /// Writes a value over the one at an address, if there is one, which takes no memory.
    #[tactic(auto, using(crate::proofs::Bytes::insert_by_bytes, crate::proofs::Bytes::lookup_by_bytes, crate::proofs::Bytes::state_swapped))]
    fn write_over(&mut self, alloc: Global, address: Address, value: Piece)
        ensures { self.new ≡ over self.old address value }
    {
        if self.tree.get(&address).is_some() {
            let _ = self.tree.swap(alloc, address, value);
        }
    }

    /// Removes the entry at an address, if there is one, and says whether there was.
    #[tactic(auto, using(crate::proofs::Bytes::remove_by_bytes, crate::proofs::Bytes::lookup_by_bytes, crate::proofs::Bytes::state_removed, crate::proofs::Bytes::remove_none))]
    pub fn delete(&mut self, address: &Address) -> bool
        ensures deleted { self.new ≡ remove_entry (is_at (address_cmp address.now)) self.old }
        ensures found { result ≡ is_some (lookup (is_at (address_cmp address.now)) self.old) }
    {
        if self.tree.get(address).is_none() {
            return false;
        }
        let found = self.tree.delete(address);
        self.tree.shrink();
        found
    }

    /// The addresses that begin with a prefix, in order.
    pub fn under(&self, alloc: Global, prefix: &Prefix) -> Result<Vec<Address>, AllocError>
        ensures { IfOk result (λ v. v.items ≡ covered prefix.now self.now) }
    {
        let mut out = Vec::new(alloc);
        self.tree.collect(prefix, &mut out)?;
        Ok(out)
    }

    /// The root, without memory. What is stale is computed and not kept.
    #[tactic(auto, using(crate::proofs::PlainRoot::root_at_is))]
    pub fn root(&self) -> [u8; 32]
        ensures { result ≡ node_at 70 [] self.now }
    {
        self.tree.digest()
    }

    /// The node of the first `digits` digits of an address, without memory.
    #[tactic(auto, using(crate::proofs::Prefixes::node_under))]
    pub fn digest_at(&self, address: &Address, digits: u8) -> [u8; 32]
        requires { digits ≤ 70 }
        ensures { result ≡ node_at (70 - digits) (digits_of digits 0 address.now.0) self.now }
    {
        self.tree.digest_at(address, digits as usize)
    }

    /// The least number of digits of an address under which at most one entry lies, and that entry;
    /// without memory.
    pub fn foot(&self, address: &Address) -> (u8, Option<(Address, &[u8])>)
        ensures high { result.0 ≤ 70 }
        ensures lone { let left = under (digits_of result.0 0 address.now.0) self.now in MatchOption result.1 (left ≡ []) (λ e. left ≡ (e.0, e.1.now) ∷ []) }
        ensures many { (i : ℕ) → i < result.0 → 2 ≤ length (under (digits_of i 0 address.now.0) self.now) }
    {
        let (digits, entry) = self.tree.foot(address);
        (digits as u8, entry)
    }

    /// Makes each stale digest again, so that the next root costs nothing. The entries stay. Most of
    /// the work is shared by states that are equal and are renewed with one cache in turn.
    pub fn renew(&mut self, cache: &mut RunCache)
        ensures { self.new ≡ self.old }
    {
        self.tree.renew_all(cache);
    }

    /// A state with the same entries and digests.
    pub fn copy(&self, alloc: Global) -> Result<State, AllocError>
        ensures { IfOk result (λ s. s ≡ self.now) }
    {
        let tree = self.tree.copy(alloc)?;
        Ok(State { tree })
    }
}
