//! A short list of bytes that lies in the value itself.
ghost use Rattle.std.specs.{Prelude.{◌≡◌, ℕ, ◌-◌, ◌<◌, ◌≤◌, List, length, Some, nat_eq, refl}, Ordering.nat_cmp, Cmp.partial_equiv_from_equiv};
ghost use Rattle.std.specs.Cmp.{Lexicographic.{pointwise, slice_cmp, nat_list_eq_equiv, nat_list_cmp_total, texts_po, texts_ties}, Rules.hashing};
ghost use Rattle.std.proofs.Common.{rules};
ghost use Rattle.std.specs.Hash as fed;
ghost use Rattle.spl_base.specs.Cells.{spelled_from};

use std::cmp::Ordering;
use std::hash::{Hash, Hasher};
use std::marker::Model;

/// At most `CAP` bytes. The cells after them are 0. Contracts see the bytes.
#[derive(Clone, Copy, Debug)]
pub struct Short<const CAP: usize> {
    cells: [u8; CAP],
    len: u8,
}

impl<const CAP: usize> Model for Short<CAP> {
    ghost use Rattle.std.{specs.Prelude.{◌≡◌, ◌≤◌, List, ℕ, length, take}, proofs.Common.sym};
    ghost use Rattle.spl_base.specs.Cells.{padded};

    ghost Value = { List ℕ };

    ghost view = { λ s. take s.len s.cells };

    ghost invariant = { λ s. (s.cells ≡ padded CAP (take s.len s.cells)) × (length (take s.len s.cells) ≡ s.len) × (s.len ≤ CAP) };

    ghost inverse = { λ xs. record { cells = padded CAP xs; len = length xs } };

    ghost inverse_ok = { λ s h i. record { cells = sym h.0 i; len = h.1 i } };
}

impl<const CAP: usize> Short<CAP> {
    /// These bytes.
    pub fn new(bytes: &[u8]) -> Self
        requires fits { length bytes.now ≤ CAP }
        requires small { length bytes.now < 256 }
        ensures { result ≡ bytes.now }
    {
        let mut cells = [0; CAP];
        cells[..bytes.len()].copy_from_slice(bytes);
        Short {
            cells,
            len: bytes.len() as u8,
        }
    }

    /// The bytes.
    pub fn bytes(&self) -> &[u8]
        ensures value { result.now ≡ self.now }
        ensures len { length self.now ≤ CAP }
        ensures small { length self.now < 256 }
    {
        &self.cells[..self.len as usize]
    }

    /// The first eight cells as one number, the highest byte first.
    fn head(&self) -> u64
        requires { 8 ≤ CAP }
        ensures { result ≡ spelled_from self.now 0 8 0 }
    {
        let c = &self.cells;
        u64::from_be_bytes([c[0], c[1], c[2], c[3], c[4], c[5], c[6], c[7]])
    }

    /// The last eight cells as one number, the highest byte first.
    fn last(&self) -> u64
        requires { 8 ≤ CAP }
        ensures { result ≡ spelled_from self.now (CAP - 8) 8 0 }
    {
        let c = &self.cells;
        let at = CAP - 8;
        u64::from_be_bytes([
            c[at],
            c[at + 1],
            c[at + 2],
            c[at + 3],
            c[at + 4],
            c[at + 5],
            c[at + 6],
            c[at + 7],
        ])
    }

    // Most texts differ in their heads, so that one compare of numbers settles them. The first
    // and the last eight of up to sixteen cells are all of them.
    fn order(&self, other: &Self) -> Ordering
        requires { 8 ≤ CAP }
        ensures { result ≡ slice_cmp nat_cmp self.now other.now }
    {
        let these = self.bytes();
        let those = other.bytes();
        let first = self.head();
        let second = other.head();
        if first != second {
            first.cmp(&second)
        } else if CAP > 16 {
            tail_order(these, those)
        } else {
            let third = self.last();
            let fourth = other.last();
            if third == fourth {
                self.len.cmp(&other.len)
            } else {
                third.cmp(&fourth)
            }
        }
    }
}

impl<const CAP: usize> PartialEq for Short<CAP> {
    ghost eq = { pointwise nat_eq };

    ghost laws = { partial_equiv_from_equiv nat_list_eq_equiv };

    fn eq(&self, other: &Self) -> bool {
        let these = self.bytes();
        let those = other.bytes();
        if CAP < 8 {
            these == those
        } else if CAP <= 16 {
            self.len == other.len && self.head() == other.head() && self.last() == other.last()
        } else {
            self.len == other.len && self.head() == other.head() && same_tail(these, those)
        }
    }
}

// Whether texts of one length with the same head are the same.
fn same_tail(these: &[u8], those: &[u8]) -> bool
    requires lengths { length these.now ≡ length those.now }
    requires heads { spelled_from these.now 0 8 0 ≡ spelled_from those.now 0 8 0 }
    ensures { result ≡ pointwise nat_eq these.now those.now }
{
    these.len() <= 8 || these[8..] == those[8..]
}

impl<const CAP: usize> Eq for Short<CAP> {
    ghost laws = { nat_list_eq_equiv };
}

impl<const CAP: usize> PartialOrd for Short<CAP> {
    ghost partial_cmp = { λ s t. Some (slice_cmp nat_cmp s t) };

    ghost laws = { texts_po };

    fn partial_cmp(&self, other: &Self) -> Option<Ordering> {
        Some(self.cmp(other))
    }
}

impl<const CAP: usize> Ord for Short<CAP> {
    ghost cmp = { slice_cmp nat_cmp };

    ghost total = { nat_list_cmp_total };

    ghost matches_partial_cmp = { λ s t. refl };

    ghost matches_eq = { texts_ties };

    fn cmp(&self, other: &Self) -> Ordering {
        if CAP >= 8 {
            self.order(other)
        } else {
            self.bytes().cmp(other.bytes())
        }
    }
}

// The order of texts with the same head.
fn tail_order(these: &[u8], those: &[u8]) -> Ordering
    requires heads { spelled_from these.now 0 8 0 ≡ spelled_from those.now 0 8 0 }
    ensures { result ≡ slice_cmp nat_cmp these.now those.now }
{
    if these.len() <= 8 || those.len() <= 8 {
        these.len().cmp(&those.len())
    } else {
        these[8..].cmp(&those[8..])
    }
}

impl<const CAP: usize> Hash for Short<CAP> {
    ghost hash_input = { λ s. fed.slice fed.u8 s };

    ghost respects_eq = { Prim.search (hashing, rules) };

    fn hash<H: Hasher>(&self, state: &mut H) {
        self.bytes().hash(state);
    }
}
