//! Values that can be compared and copied exactly.
ghost use Rattle.std.specs.Prelude.{◌≡◌, ◌↔◌, IsTrue, IfOk};

use crate::batch_id::BatchId;
use crate::ids::{CircuitId, Label, NodeId, ServiceId};
use crate::listing::Listing;
use crate::piece::Piece;
use std::alloc::{AllocError, Global};

/// A value of which there may be equal copies.
pub trait Value: Drop {
    /// Whether the two are equal.
    fn same(&self, other: &Self) -> bool
        ensures { IsTrue result ↔ (self.now ≡ other.now) };

    /// An equal value.
    fn copy(&self, alloc: Global) -> Result<Self, AllocError>
        ensures { IfOk result (λ x. x ≡ self.now) };
}

impl Value for u8 {
    fn same(&self, other: &u8) -> bool {
        *self == *other
    }

    fn copy(&self, _alloc: Global) -> Result<u8, AllocError> {
        Ok(*self)
    }
}

impl Value for u32 {
    fn same(&self, other: &u32) -> bool {
        *self == *other
    }

    fn copy(&self, _alloc: Global) -> Result<u32, AllocError> {
        Ok(*self)
    }
}

fn same_bytes(a: &[u8], b: &[u8]) -> bool
    ensures { IsTrue result ↔ (a.now ≡ b.now) }
{
    a == b
}

impl Value for NodeId {
    fn same(&self, other: &NodeId) -> bool {
        self == other
    }

    fn copy(&self, _alloc: Global) -> Result<NodeId, AllocError> {
        Ok(*self)
    }
}

impl Value for Label {
    fn same(&self, other: &Label) -> bool {
        self == other
    }

    fn copy(&self, _alloc: Global) -> Result<Label, AllocError> {
        Ok(*self)
    }
}

impl Value for ServiceId {
    fn same(&self, other: &ServiceId) -> bool {
        self == other
    }

    fn copy(&self, _alloc: Global) -> Result<ServiceId, AllocError> {
        Ok(*self)
    }
}

impl Value for CircuitId {
    fn same(&self, other: &CircuitId) -> bool {
        self == other
    }

    fn copy(&self, _alloc: Global) -> Result<CircuitId, AllocError> {
        Ok(*self)
    }
}

impl Value for BatchId {
    fn same(&self, other: &BatchId) -> bool {
        self.0 == other.0
    }

    fn copy(&self, _alloc: Global) -> Result<BatchId, AllocError> {
        Ok(*self)
    }
}

impl Value for Piece {
    fn same(&self, other: &Piece) -> bool {
        same_bytes(self.bytes(), other.bytes())
    }

    fn copy(&self, alloc: Global) -> Result<Piece, AllocError> {
        Piece::from(alloc, self.bytes())
    }
}

fn same_items<T: Value>(a: &[T], b: &[T]) -> bool
    ensures { IsTrue result ↔ (a.now ≡ b.now) }
{
    if a.len() != b.len() {
        return false;
    }
    for i in 0..a.len() {
        if !a[i].same(&b[i]) {
            return false;
        }
    }
    true
}

impl<T: Value> Value for Listing<T> {
    fn same(&self, other: &Listing<T>) -> bool {
        same_items(self.as_slice(), other.as_slice())
    }

    fn copy(&self, alloc: Global) -> Result<Listing<T>, AllocError> {
        let mut items = Listing::new(alloc);
        for x in self.as_slice() {
            items.push(x.copy(alloc)?)?;
        }
        Ok(items)
    }
}
