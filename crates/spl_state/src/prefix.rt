//! Prefixes: the bytes that some addresses begin with.
ghost use Rattle.std.specs.{Prelude.{◌≡◌, ◌≤◌, ◌<◌, ◌/◌, ℕ, IfSome, length, nat_eq, nat_le, Some, None, if◌then◌else◌}, List.starts_with};
ghost use Rattle.std.specs.Cmp.{partial_equiv_from_equiv, Lexicographic.{pointwise, nat_list_eq_equiv}};
ghost use Rattle.spl_state.specs.{Root.digit_of, Runs.IsOtherDigit};

use crate::address::{Address, half};
use std::marker::Model;

/// At most 35 bytes (docs/RULES.md, State). Contracts see them as a list.
#[derive(Clone, Copy)]
pub struct Prefix {
    cells: [u8; 35],
    len: u8,
}

impl Model for Prefix {
    ghost use Rattle.std.{specs.Prelude.{◌≡◌, ◌≤◌, List, ℕ, length, take}, proofs.Common.sym};
    ghost use Rattle.spl_state.specs.Cells.{padded};

    ghost Value = { List ℕ };

    ghost view = { λ p. take p.len p.cells };

    ghost invariant = { λ p. (p.cells ≡ padded 35 (take p.len p.cells)) × (length (take p.len p.cells) ≡ p.len) × (p.len ≤ 35) };

    ghost inverse = { λ xs. record { cells = padded 35 xs; len = length xs } };

    ghost inverse_ok = { λ p h i. record { cells = sym h.0 i; len = h.1 i } };
}

impl Prefix {
    /// These bytes; None exactly where they are more than an address has.
    pub fn read(bytes: &[u8]) -> Option<Prefix>
        ensures { result ≡ (if nat_le (length bytes.now) 35 then Some bytes.now else None) }
    {
        if bytes.len() > 35 {
            return None;
        }
        Some(Prefix::new(bytes))
    }

    /// These bytes.
    fn new(bytes: &[u8]) -> Prefix
        requires { length bytes.now ≤ 35 }
        ensures { result ≡ bytes.now }
    {
        let mut cells = [0; 35];
        cells[..bytes.len()].copy_from_slice(bytes);
        Prefix {
            cells,
            len: bytes.len() as u8,
        }
    }

    /// The bytes.
    pub fn bytes(&self) -> &[u8]
        ensures value { result.now ≡ self.now }
        ensures len { length self.now ≤ 35 }
    {
        &self.cells[..self.len as usize]
    }

    /// Whether the address begins with the bytes.
    pub fn covers(&self, address: &Address) -> bool
        ensures { result ≡ starts_with nat_eq address.now.0 self.now }
    {
        address.0.starts_with(self.bytes())
    }

    /// The hexadecimal digit `k`, if the bytes have one.
    pub(crate) fn digit(&self, k: usize) -> Option<u8>
        requires { k < 70 }
        ensures value { IfSome result (λ d. (d ≡ digit_of self.now k) × (k / 2 < length self.now)) }
        ensures small { IfSome result (λ d. d < 16) }
    {
        let bytes = self.bytes();
        if k / 2 < bytes.len() {
            Some(half(bytes[k / 2], k % 2 == 0))
        } else {
            None
        }
    }

    /// A digit of the bytes, from `from` to `to`, that the address doesn't have: the first one, if
    /// there is one.
    pub(crate) fn first_apart(&self, address: &Address, from: usize, to: usize) -> Option<usize>
        requires { to ≤ 70 }
        ensures { IfSome result (λ k. IsOtherDigit from to self.now address.now k) }
    {
        for k in from..to {
            let digit = self.digit(k)?;
            if digit != address.digit(k) {
                return Some(k);
            }
        }
        None
    }
}

impl PartialEq for Prefix {
    ghost eq = { pointwise nat_eq };

    ghost laws = { partial_equiv_from_equiv nat_list_eq_equiv };

    fn eq(&self, other: &Self) -> bool {
        self.bytes() == other.bytes()
    }
}

impl Eq for Prefix {
    ghost laws = { nat_list_eq_equiv };
}
