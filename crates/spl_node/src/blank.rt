//! Whether the disks of nodes hold no bytes yet.
ghost use Rattle.std.specs.Prelude.{◌≡◌, ◌<◌, ◌≤◌, ℕ, length, slice_get, true, false, IfOk, OnOk, IsErrOf};
ghost use Rattle.spl_edge.specs.Devices.{pair_view, bench};
ghost use Rattle.spl_snapshot.specs.Counting.{PairOnward, HasRisen};
ghost use Rattle.spl_node.specs.{Benches.{AllGoOn, RoseAt, images_at, images, images_of}, Blank.{AllEmpty, AreEmpty, HaveBytes, IsFirstWithBytes}};

use spl_edge::{DeviceError, Disk, Pair};

/// Why it isn't known that disks hold no bytes.
#[derive(Clone, Copy, PartialEq, Eq)]
pub enum BlankFault {
    /// A disk of the node at this position holds bytes.
    NotBlank(u8),
    /// A disk of the node at this position failed.
    Disk(u8),
    /// Memory ran out.
    NoMemory,
}

// Whether neither of two disks holds bytes. The second is asked where the first holds none.
fn are_empty<E: Disk>(pair: &mut Pair<E>) -> Result<bool, DeviceError>
    ensures empty { IfOk result (λ empty. empty ≡ true → AreEmpty (images_of E.view pair.old)) }
    ensures bytes { IfOk result (λ empty. empty ≡ false → HaveBytes (images_of E.view pair.old)) }
    ensures same { images_of E.view pair.new ≡ images_of E.view pair.old }
    ensures onward { PairOnward (pair_view E.view pair.old) (pair_view E.view pair.new) }
    ensures failed { IsErrOf result DeviceError.Failed → HasRisen (pair_view E.view pair.old) (pair_view E.view pair.new) }
{
    match pair.first.len() {
        Ok(0) => {}
        Ok(_) => return Ok(false),
        Err(fault) => return Err(fault),
    }
    match pair.second.len() {
        Ok(count) => Ok(count == 0),
        Err(fault) => Err(fault),
    }
}

// Those of the node at a position.
fn are_empty_at<E: Disk>(pairs: &mut Vec<Pair<E>>, slot: u8) -> Result<bool, DeviceError>
    requires room { slot < length pairs.old.items }
    ensures empty { IfOk result (λ empty. empty ≡ true → AreEmpty (images_at (images E.view pairs.old.items) slot)) }
    ensures bytes { IfOk result (λ empty. empty ≡ false → HaveBytes (images_at (images E.view pairs.old.items) slot)) }
    ensures same { images E.view pairs.new.items ≡ images E.view pairs.old.items }
    ensures onward { AllGoOn (bench E.view pairs.old.items) (bench E.view pairs.new.items) }
    ensures failed { IsErrOf result DeviceError.Failed → RoseAt slot (bench E.view pairs.old.items) (bench E.view pairs.new.items) }
    ensures others { (k : ℕ) → (k ≡ slot → ⊥) → slice_get (bench E.view pairs.new.items) k ≡ slice_get (bench E.view pairs.old.items) k }
{
    are_empty(&mut pairs[usize::from(slot)])
}

/// Asks the disks of the first `count` nodes, by their positions, whether they hold bytes. `NotBlank` comes at the first node
/// of which a disk does, and `Disk` only where a disk of that node failed. The disks hold what they held, and no others are asked.
pub fn check_blank<E: Disk>(pairs: &mut Vec<Pair<E>>, count: u8) -> Result<(), BlankFault>
    requires room { count ≤ length pairs.old.items }
    ensures empty { OnOk result (AllEmpty count (images E.view pairs.old.items)) }
    ensures bytes { (slot : ℕ) → IsErrOf result (BlankFault.NotBlank slot) → (slot < count) × IsFirstWithBytes slot (images E.view pairs.old.items) }
    ensures failed { (slot : ℕ) → IsErrOf result (BlankFault.Disk slot)
        → (slot < count) × RoseAt slot (bench E.view pairs.old.items) (bench E.view pairs.new.items) }
    ensures same { images E.view pairs.new.items ≡ images E.view pairs.old.items }
    ensures onward { AllGoOn (bench E.view pairs.old.items) (bench E.view pairs.new.items) }
    ensures spared { (k : ℕ) → count ≤ k → slice_get (bench E.view pairs.new.items) k ≡ slice_get (bench E.view pairs.old.items) k }
{
    'slots: for slot in 0..count {
        match are_empty_at(pairs, slot) {
            Ok(true) => {}
            Ok(false) => return Err(BlankFault::NotBlank(slot)),
            Err(DeviceError::Failed) => return Err(BlankFault::Disk(slot)),
            Err(DeviceError::NoMemory) => return Err(BlankFault::NoMemory),
        }
    }
    Ok(())
}
