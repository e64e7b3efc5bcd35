//! Entries written and removed: the digests on the path to them become stale.
ghost use Rattle.std.specs.Prelude.{◌≡◌, ◌≤◌, ◌<◌, ◌+◌, length, min, replicate, true, false, Some, None, IfOk, IfSome, IfNone, OnOk, OnErr, is_some, [], ◌∷◌};
ghost use Rattle.std.specs.{Prelude.if◌then◌else◌, Map.{lookup, remove_entry}, BTreeMap.{insert_entry, is_at}};
ghost use Rattle.spl_state.specs.{Digits.tail_cmp, Runs.AllAlong, Kept.{all_entries, AllDigit, IsRoom, IsParting, CanStand, empty_part}};

use super::{Body, Tree};
use crate::address::Address;
use crate::piece::Piece;
use std::alloc::{AllocError, Global};
use std::mem;

impl Tree {
    /// Writes a value at an address, and gives back the one that it replaced. Where one stands
    /// there it takes no memory; when memory runs out the entries are unchanged.
    pub(crate) fn swap(
        &mut self,
        alloc: Global,
        address: Address,
        value: Piece,
    ) -> Result<Option<Piece>, AllocError>
        requires { self.old.depth ≤ 70 }
        ensures depth { self.new.depth ≡ self.old.depth }
        ensures ok { OnOk result (self.new.entries ≡ insert_entry (tail_cmp self.old.depth) self.old.entries address value) }
        ensures replaced { IfOk result (λ old. old ≡ lookup (is_at (tail_cmp self.old.depth address)) self.old.entries) }
        ensures err { OnErr result (self.new.entries ≡ self.old.entries) }
        ensures missing { OnErr result (lookup (is_at (tail_cmp self.old.depth address)) self.old.entries ≡ None) }
    {
        let mut value = value;
        if self.exchange(alloc, &address, &mut value)? {
            Ok(Some(value))
        } else {
            Ok(None)
        }
    }

    /// Writes a value at an address, and leaves the one that it replaced in its place; says
    /// whether there was one. It is called once for each level, so that it moves nothing large.
    #[tactic(auto, using(crate::proofs::Steps::depth_of, crate::proofs::Steps::kept_stale, crate::proofs::Steps::entries_inserted, crate::proofs::Steps::entries_kept, crate::proofs::Steps::former_below, crate::proofs::Steps::missing_below, crate::proofs::Thin::thin_inserted, crate::proofs::Thin::entries_in, crate::proofs::Thin::former_in, crate::proofs::Thin::missing_in, crate::proofs::Thin::room_path))]
    fn exchange(
        &mut self,
        alloc: Global,
        address: &Address,
        value: &mut Piece,
    ) -> Result<bool, AllocError>
        requires { self.old.depth ≤ 70 }
        ensures depth { self.new.depth ≡ self.old.depth }
        ensures ok { OnOk result (self.new.entries ≡ insert_entry (tail_cmp self.old.depth) self.old.entries address.now value.old) }
        ensures replaced { IfOk result (λ found. (if found then Some value.new else None)
            ≡ lookup (is_at (tail_cmp self.old.depth address.now)) self.old.entries) }
        ensures err { OnErr result (self.new.entries ≡ self.old.entries) }
        ensures missing { OnErr result (lookup (is_at (tail_cmp self.old.depth address.now)) self.old.entries ≡ None) }
    {
        self.make_room(alloc, address)?;
        match &mut self.body {
            Body::Empty => {
                self.fill(alloc, address, value);
                Ok(false)
            }
            Body::Leaf(_, old) => {
                self.fresh = false;
                mem::swap(old, value);
                Ok(true)
            }
            Body::Inner(parts) => {
                let at = address.digit(self.depth) as usize;
                let part = &mut parts[at];
                let done = part.exchange(alloc, address, value);
                self.size = size_of_more(self.size, parts.as_slice());
                self.fresh = false;
                done
            }
            Body::Thin(_, part) => {
                let done = part.exchange(alloc, address, value);
                self.size = part.size();
                self.fresh = false;
                done
            }
        }
    }

    /// Makes an entry the only one, whose value it takes.
    #[inline(never)]
    fn fill(&mut self, alloc: Global, address: &Address, value: &mut Piece)
        ensures depth { self.new.depth ≡ self.old.depth }
        ensures entries { self.new.entries ≡ (address.now, value.old) ∷ [] }
    {
        self.size = 1;
        self.fresh = false;
        self.body = Body::Leaf(*address, mem::replace(value, Piece::none(alloc)));
    }

    /// Removes the entry at an address, if there is one, and says whether there was.
    #[tactic(auto, using(crate::proofs::Steps::depth_of, crate::proofs::Steps::entries_removed, crate::proofs::Steps::found_below, crate::proofs::Thin::found_in))]
    pub(crate) fn delete(&mut self, address: &Address) -> bool
        requires { self.old.depth ≤ 70 }
        ensures depth { self.new.depth ≡ self.old.depth }
        ensures entries { self.new.entries ≡ remove_entry (is_at (tail_cmp self.old.depth address.now)) self.old.entries }
        ensures found { result ≡ is_some (lookup (is_at (tail_cmp self.old.depth address.now)) self.old.entries) }
    {
        match &mut self.body {
            Body::Empty => false,
            Body::Leaf(at, _) => {
                let found = address.same_tail(at, self.depth);
                if found {
                    self.clear();
                }
                found
            }
            Body::Inner(parts) => {
                let at = address.digit(self.depth) as usize;
                let part = &mut parts[at];
                let found = part.delete(address);
                part.shrink();
                self.size = size_of_all(parts.as_slice());
                self.fresh = false;
                found
            }
            Body::Thin(path, part) => {
                if !address.same_between(path, self.depth, part.depth) {
                    return false;
                }
                let found = part.delete(address);
                part.shrink();
                self.size = part.size();
                self.fresh = false;
                found
            }
        }
    }

    /// Leaves no entry.
    #[inline(never)]
    fn clear(&mut self)
        ensures depth { self.new.depth ≡ self.old.depth }
        ensures entries { self.new.entries ≡ [] }
    {
        self.size = 0;
        self.fresh = false;
        self.body = Body::Empty;
    }

    /// Gives up levels that report no entries apart: all where no entry is left, and the next where
    /// one is left in a leaf of it.
    #[inline]
    pub(crate) fn shrink(&mut self)
        ensures depth { self.new.depth ≡ self.old.depth }
        ensures entries { self.new.entries ≡ self.old.entries }
    {
        match self.size {
            0 => self.clear(),
            1 => self.lift(),
            _ => {}
        }
    }

    /// Takes the lone entry up, where the next level has it in a leaf.
    #[inline(never)]
    #[tactic(auto, using(crate::proofs::Parts::few_in))]
    fn lift(&mut self)
        requires lone { length self.old.entries ≡ 1 }
        ensures depth { self.new.depth ≡ self.old.depth }
        ensures entries { self.new.entries ≡ self.old.entries }
    {
        match &mut self.body {
            Body::Inner(parts) => {
                let Some(i) = filled(parts.as_slice()) else {
                    return;
                };
                let part = &mut parts[i];
                if let Some((at, value)) = part.take_leaf() {
                    self.body = Body::Leaf(at, value);
                }
            }
            Body::Thin(_, part) => {
                if let Some((at, value)) = part.take_leaf() {
                    self.body = Body::Leaf(at, value);
                }
            }
            _ => {}
        }
    }

    /// Takes the entry out of a leaf; None where this is none, and nothing is changed then.
    fn take_leaf(&mut self) -> Option<(Address, Piece)>
        ensures depth { self.new.depth ≡ self.old.depth }
        ensures taken { IfSome result (λ e. self.old.entries ≡ e ∷ []) }
        ensures kept { IfNone result (self.new ≡ self.old) }
    {
        match mem::replace(&mut self.body, Body::Empty) {
            Body::Leaf(at, value) => {
                self.size = 0;
                self.fresh = false;
                Some((at, value))
            }
            body => {
                self.body = body;
                None
            }
        }
    }

    /// Sees to it that an entry that stands here alone is the address's, and that a lone part stands
    /// below its digits. Where the address has an entry that takes no memory.
    #[inline]
    fn make_room(&mut self, alloc: Global, address: &Address) -> Result<(), AllocError>
        requires { self.old.depth ≤ 70 }
        ensures depth { self.new.depth ≡ self.old.depth }
        ensures entries { self.new.entries ≡ self.old.entries }
        ensures room { OnOk result (IsRoom address.now self.new) }
        ensures missing { OnErr result (lookup (is_at (tail_cmp self.old.depth address.now)) self.old.entries ≡ None) }
    {
        if self.leads(address) {
            return Ok(());
        }
        self.part_ways(alloc, address)
    }

    /// Whether there is a lone part, and it stands below the address's digits.
    #[inline]
    fn leads(&self, address: &Address) -> bool
        requires { self.now.depth ≤ 70 }
        ensures { result ≡ true → IsRoom address.now self.now }
    {
        match &self.body {
            Body::Thin(path, part) => address.same_between(path, self.depth, part.depth),
            _ => false,
        }
    }

    /// Makes the room that `make_room` sees to.
    #[inline(never)]
    #[tactic(auto, using(crate::proofs::Thin::missing_apart, crate::proofs::Thin::parting_above, crate::proofs::Thin::parting_digit, crate::proofs::Thin::parting_stands))]
    fn part_ways(&mut self, alloc: Global, address: &Address) -> Result<(), AllocError>
        requires { self.old.depth ≤ 70 }
        ensures depth { self.new.depth ≡ self.old.depth }
        ensures entries { self.new.entries ≡ self.old.entries }
        ensures room { OnOk result (IsRoom address.now self.new) }
        ensures missing { OnErr result (lookup (is_at (tail_cmp self.old.depth address.now)) self.old.entries ≡ None) }
    {
        let Some((path, k)) = self.parting(address) else {
            return Ok(());
        };
        if k == self.depth {
            let parts = empty_parts(alloc, k + 1)?;
            self.split(parts, path.digit(k));
        } else {
            let room = Box::new(alloc, Tree::new(k))?;
            self.lengthen(room, &path, k);
        }
        Ok(())
    }

    /// Where the address leaves all entries that stand here: an address with their digits down to
    /// there, and the digit; None where there is room for it.
    #[tactic(auto, using(crate::proofs::Digits::tail_whole))]
    fn parting(&self, address: &Address) -> Option<(Address, usize)>
        requires { self.now.depth ≤ 70 }
        ensures room { IfNone result (IsRoom address.now self.now) }
        ensures apart { IfSome result (λ r. IsParting address.now r.0 r.1 self.now) }
    {
        match &self.body {
            Body::Leaf(at, _) => {
                let k = address.first_apart(at, self.depth, 70)?;
                Some((*at, k))
            }
            Body::Thin(path, part) => {
                let k = address.first_apart(path, self.depth, part.depth)?;
                Some((*path, k))
            }
            _ => None,
        }
    }

    /// Moves what stands here into one of the empty parts.
    fn split(&mut self, parts: Vec<Tree>, digit: u8)
        requires depth { self.old.depth < 70 }
        requires stands { CanStand (self.old.depth + 1) self.old }
        requires digit { AllDigit self.old.depth digit self.old.entries }
        requires small { digit < 16 }
        requires parts { parts.items ≡ replicate 16 (empty_part (self.old.depth + 1)) }
        ensures depth { self.new.depth ≡ self.old.depth }
        ensures entries { self.new.entries ≡ self.old.entries }
        ensures inner { self.new.inner ≡ true }
        ensures thin { self.new.thin ≡ None }
    {
        let mut parts = parts;
        let depth = self.depth;
        let lower = mem::replace(self, Tree::new(depth)).lowered(depth + 1);
        self.size = lower.size();
        self.fresh = false;
        parts[digit as usize] = lower;
        self.body = Body::Inner(parts);
    }

    /// Moves what stands here down to the digit `to`, into a lone part.
    fn lengthen(&mut self, room: Box<Tree>, path: &Address, to: usize)
        requires low { self.old.depth < to }
        requires high { to ≤ 70 }
        requires stands { CanStand to self.old }
        requires along { AllAlong to self.old.depth path.now self.old.entries }
        ensures depth { self.new.depth ≡ self.old.depth }
        ensures entries { self.new.entries ≡ self.old.entries }
        ensures inner { self.new.inner ≡ true }
        ensures thin { self.new.thin ≡ Some (record { path = path.now; end = to }) }
    {
        let mut room = room;
        let depth = self.depth;
        *room = mem::replace(self, Tree::new(depth)).lowered(to);
        self.size = room.size();
        self.fresh = false;
        self.body = Body::Thin(*path, room);
    }

    /// A part with the same entries that stands at the digit `to`.
    fn lowered(self, to: usize) -> Tree
        requires low { self.depth < to }
        requires high { to ≤ 70 }
        requires stands { CanStand to self }
        ensures depth { result.depth ≡ to }
        ensures entries { result.entries ≡ self.entries }
    {
        let Tree {
            size,
            fresh,
            digest,
            body,
            ..
        } = self;
        let body = match body {
            Body::Thin(path, part) => {
                if part.depth == to {
                    return Box::into_inner(part);
                }
                Body::Thin(path, part)
            }
            body => body,
        };
        Tree {
            depth: to,
            size,
            fresh: fresh && size < 2,
            digest,
            body,
        }
    }
}

/// The place of a part that has an entry.
fn filled(parts: &[Tree]) -> Option<usize>
    ensures { IfSome result (λ i. i < length parts.now) }
{
    parts.iter().position(|part| part.size() > 0)
}

/// Sixteen parts with no entry.
#[tactic(auto, using(crate::proofs::Steps::replicate_more))]
fn empty_parts(alloc: Global, depth: usize) -> Result<Vec<Tree>, AllocError>
    requires { depth ≤ 70 }
    ensures { IfOk result (λ v. v.items ≡ replicate 16 (empty_part depth)) }
{
    let mut parts = Vec::with_capacity(alloc, 16)?;
    for i in 0..16usize {
        parts.push(Tree::new(depth))?;
    }
    Ok(parts)
}

/// How many entries some parts have, up to two, where they have no fewer than `least`.
#[inline]
fn size_of_more(least: u8, parts: &[Tree]) -> u8
    requires { least ≤ length (all_entries parts.now) }
    ensures { result ≡ min (length (all_entries parts.now)) 2 }
{
    if least < 2 { size_of_all(parts) } else { 2 }
}

/// How many entries some parts have, up to two.
#[inline(never)]
#[tactic(auto, using(crate::proofs::Parts::all_entries_more, crate::proofs::Parts::min_more))]
fn size_of_all(parts: &[Tree]) -> u8
    ensures { result ≡ min (length (all_entries parts.now)) 2 }
{
    let mut size = 0u8;
    for part in parts {
        size = (size + part.size()).min(2);
    }
    size
}
