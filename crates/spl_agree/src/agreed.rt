//! The content of a group.
ghost use Rattle.std.specs.Prelude.{◌≡◌, ◌↔◌, ℕ, ◌-◌, ◌^◌, ◌<◌, List, [], ◌∷◌, ◌++◌, length, Bool, true, IfOk, OnOk, OnErr, Option, Some, None};
ghost use Rattle.spl_agree.specs.{Member.Rules, declared.reason.Reason.Reason};

use crate::{Admit, Reason};
use std::alloc::{AllocError, Global};
use std::hash::Hash;

/// A content that a group agrees on: a list of values, and what is folded from it.
pub trait Agreed {
    /// What names a value.
    type Key: Copy + Eq + Hash;

    type Value: Drop;

    /// The list applied so far.
    ghost items: { Self → List Self.Value };

    /// What the content says of values, each answer by the list and by what the content was made with. No call changes it.
    ghost rules: { Self → Rules Self.Value };

    /// The key of a value.
    ghost key_of: { Self.Value → Self.Key };

    /// Whether two values are equal.
    ghost same_of: { Self.Value → Self.Value → Bool };

    /// What answers a forwarded value at a member that is not the coordinator.
    ghost stray_of: { Self.Value → Option Reason };

    /// The key of a value.
    fn key(value: &Self::Value) -> Self::Key
        ensures { result ≡ key_of value.now };

    /// Whether the two values are equal.
    fn same(a: &Self::Value, b: &Self::Value) -> bool
        ensures { result ≡ same_of a.now b.now };

    /// The reason with which a forwarded value goes back at a member that is not the coordinator, if it does.
    fn stray(value: &Self::Value) -> Option<Reason>
        ensures { result ≡ stray_of value.now };

    /// What becomes of a value that the member at a position forwards to the coordinator.
    fn admits(&self, sender: u8, value: &Self::Value) -> Admit
        ensures { result ≡ (rules self.now).admits sender value.now };

    /// An equal value. The only error is that memory ran out.
    fn copy(alloc: Global, value: &Self::Value) -> Result<Self::Value, AllocError>
        ensures { IfOk result (λ v. v ≡ value.now) };

    /// Why the value can't be the next one of the list, if it can't. The only error is that memory ran out.
    fn check(&self, alloc: Global, value: &Self::Value) -> Result<Option<Reason>, AllocError>
        ensures { IfOk result (λ r. r ≡ (rules self.now).check (items self.now) value.now) };

    /// Extends the list by a value whose check is good. When memory runs out the list is as it was.
    fn apply(&mut self, alloc: Global, value: Self::Value) -> Result<(), AllocError>
        requires good { (rules self.old).check (items self.old) value ≡ None }
        requires room { length (items self.old) < 2 ^ 32 - 1 }
        ensures ruled { rules self.new ≡ rules self.old }
        ensures ok { OnOk result (items self.new ≡ items self.old ++ value ∷ []) }
        ensures err { OnErr result (items self.new ≡ items self.old) };

    /// Two values have one key where their keys are equal.
    ghost keyed: { (s : Self) (u v : Self.Value) → (rules s).same_key u v ≡ Self.Key.eq (key_of u) (key_of v) };

    /// Equality is the same for every content.
    ghost samed: { (s : Self) (u v : Self.Value) → (rules s).same u v ≡ same_of u v };

    /// Equal is identical.
    ghost same_is: { (u v : Self.Value) → (same_of u v ≡ true) ↔ (u ≡ v) };

    /// What answers a forwarded value elsewhere is the same for every content.
    ghost strayed: { (s : Self) (v : Self.Value) → (rules s).stray v ≡ stray_of v };
}
