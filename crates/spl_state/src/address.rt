//! Addresses: where a value lies in a state.
ghost use Rattle.std.specs.{Prelude.{◌≡◌, ◌≤◌, ◌<◌, ◌+◌, ◌-◌, ◌*◌, ◌/◌, ◌%◌, ◌++◌, ◌∷◌, [], true, IfSome, IfNone, if◌then◌else◌}, Ordering.is_eq};
ghost use Rattle.spl_state.specs.{Digits.{tail_cmp, same_digits}, Runs.IsFirstApart, Root.{digit_of, digits_of}};

/// 35 bytes, ordered by these; as 70 hexadecimal digits it is a path down the tree
/// (docs/RULES.md, State).
#[derive(Clone, Copy, PartialEq, Eq, PartialOrd, Ord, Hash)]
pub struct Address(pub [u8; 35]);

impl Address {
    /// The hexadecimal digit `k`.
    pub fn digit(&self, k: usize) -> u8
        requires { k < 70 }
        ensures value { result ≡ digit_of self.now.0 k }
        ensures small { result < 16 }
    {
        half(self.0[k / 2], k % 2 == 0)
    }

    /// The address with another digit `k`.
    #[tactic(auto, using(crate::proofs::Turned::digits_turned))]
    pub fn with_digit(&self, k: usize, digit: u8) -> Address
        requires place { k < 70 }
        requires small { digit < 16 }
        ensures { digits_of (k + 1) 0 result.0 ≡ digits_of k 0 self.now.0 ++ digit ∷ [] }
    {
        let mut bytes = self.0;
        bytes[k / 2] = with_half(bytes[k / 2], k % 2 == 0, digit);
        Address(bytes)
    }

    /// Whether both have the same digits from `from` on.
    #[tactic(auto, using(crate::proofs::Digits::tail_is))]
    pub(crate) fn same_tail(&self, other: &Address, from: usize) -> bool
        requires { from ≤ 70 }
        ensures { result ≡ is_eq (tail_cmp from self.now other.now) }
    {
        self.same_between(other, from, 70)
    }

    /// Whether both have the same digits from `from` to `to`. Whole bytes are compared as such.
    pub(crate) fn same_between(&self, other: &Address, from: usize, to: usize) -> bool
        requires low { from ≤ to }
        requires high { to ≤ 70 }
        ensures { result ≡ same_digits (to - from) from self.now other.now }
    {
        let first = from.div_ceil(2);
        let last = to / 2;
        if last <= first {
            return self.same_digits(other, from, to);
        }
        self.same_digits(other, from, first * 2)
            && self.same_bytes(other, first, last)
            && self.same_digits(other, last * 2, to)
    }

    /// Whether both have the same digits from `from` to `to`, one by one.
    #[tactic(auto, using(crate::proofs::Digits::same_none, crate::proofs::Digits::same_next, crate::proofs::Digits::same_differ))]
    fn same_digits(&self, other: &Address, from: usize, to: usize) -> bool
        requires low { from ≤ to }
        requires high { to ≤ 70 }
        ensures { result ≡ same_digits (to - from) from self.now other.now }
    {
        for k in from..to {
            if other.digit(k) != self.digit(k) {
                return false;
            }
        }
        true
    }

    /// Whether both have the same bytes from `first` to `last`.
    #[tactic(auto, using(crate::proofs::Bytes::same_bytes))]
    fn same_bytes(&self, other: &Address, first: usize, last: usize) -> bool
        requires low { first ≤ last }
        requires high { last ≤ 35 }
        ensures { result ≡ same_digits (last * 2 - first * 2) (first * 2) self.now other.now }
    {
        self.0[first..last] == other.0[first..last]
    }

    /// The first digit from `from` to `to` where both differ; None where they are the same.
    #[tactic(auto, using(crate::proofs::Digits::same_none, crate::proofs::Digits::same_after))]
    pub(crate) fn first_apart(&self, other: &Address, from: usize, to: usize) -> Option<usize>
        requires low { from ≤ to }
        requires high { to ≤ 70 }
        ensures none { IfNone result (same_digits (to - from) from self.now other.now ≡ true) }
        ensures some { IfSome result (λ k. IsFirstApart from to self.now other.now k) }
    {
        if self.0 == other.0 {
            return None;
        }
        for k in from..to {
            if self.digit(k) != other.digit(k) {
                return Some(k);
            }
        }
        None
    }
}

/// One of the two digits of a byte, the high one first.
pub(crate) fn half(byte: u8, first: bool) -> u8
    ensures value { result ≡ (if first then byte / 16 else byte % 16) }
    ensures small { result < 16 }
{
    if first { byte / 16 } else { byte % 16 }
}

/// The byte with another of its two digits, the high one first.
fn with_half(byte: u8, first: bool, digit: u8) -> u8
    requires { digit < 16 }
    ensures { result ≡ (if first then digit * 16 + byte % 16 else byte / 16 * 16 + digit) }
{
    if first {
        digit * 16 + byte % 16
    } else {
        byte / 16 * 16 + digit
    }
}
