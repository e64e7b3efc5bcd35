//! A disk made ready for another journal.
ghost use Rattle.std.specs.{Prelude.{◌≡◌, ◌≤◌, ◌+◌, ℕ, Some, min, length, OnOk, IfOk, IfSome, IsOk, IsErrOf}, Option.option_map};
ghost use Rattle.spl_edge.specs.Devices.{Rose, settled_at, image_now, Onward};
ghost use Rattle.spl_journal.specs.{Gate.{LeavesSince, ByCalls}, Clear.{IsAtRest, IsShortOrSame, cleared}, Journals.epoch_cleared, Records.closed_prefix};

use crate::bytes::closed_prefix;
use crate::{JournalFault, fault_of};
use spl_edge::{DeviceError, Disk};

/// A disk that holds a head with a closed gate, and nothing else.
#[derive(Drop)]
pub struct Cleared {
    pub(crate) epoch: u64,
}

/// Cuts a disk to 17 bytes or fewer and writes a head of 17 bytes over them, by four calls.
fn clear_to<D: Disk>(disk: &mut D, len: u64, head: &[u8]) -> Result<(), DeviceError>
    requires rest { IfSome (image_now (D.view disk.old)) (IsAtRest len) }
    requires head { length head.now ≡ 17 }
    ensures cleared { OnOk result (image_now (D.view disk.new)
        ≡ option_map (cleared (min len 17) head.now 4) (image_now (D.view disk.old))) }
    ensures four { OnOk result ((D.view disk.new).moment ≡ (D.view disk.old).moment + 4) }
    ensures any_moment { IfSome (image_now (D.view disk.old)) (λ i.
        LeavesSince (D.view disk.old) (D.view disk.new) (IsShortOrSame i.bytes)) }
    ensures by_calls { ByCalls 4 (D.view disk.old) (D.view disk.new) (cleared (min len 17) head.now) (IsOk result) (IsErrOf result DeviceError.Failed) }
    ensures onward { Onward (D.view disk.old) (D.view disk.new) }
    ensures failed { IsErrOf result DeviceError.Failed → Rose (D.view disk.old).faults (D.view disk.new).faults }
{
    if let Err(fault) = disk.cut(len.min(17)) {
        return Err(fault);
    }
    if let Err(fault) = disk.sync() {
        return Err(fault);
    }
    if let Err(fault) = disk.write_at(0, head) {
        return Err(fault);
    }
    if let Err(fault) = disk.sync() {
        return Err(fault);
    }
    Ok(())
}

/// Makes a disk ready for a journal of this epoch, by four calls. Its length has to be reported, and nothing pending on it.
pub fn clear<D: Disk>(disk: &mut D, len: u64, epoch: u64) -> Result<Cleared, JournalFault>
    requires rest { IfSome (image_now (D.view disk.old)) (IsAtRest len) }
    ensures cleared { OnOk result (image_now (D.view disk.new)
        ≡ option_map (λ i. settled_at (closed_prefix epoch)) (image_now (D.view disk.old))) }
    ensures epoch { IfOk result (λ c. epoch_cleared c ≡ epoch) }
    ensures four { OnOk result ((D.view disk.new).moment ≡ (D.view disk.old).moment + 4) }

    // Until the end a stop leaves fewer than 18 bytes, or the first 17 that it had and no more bytes.
    ensures any_moment { IfSome (image_now (D.view disk.old)) (λ i.
        LeavesSince (D.view disk.old) (D.view disk.new) (IsShortOrSame i.bytes)) }
    ensures by_calls { ByCalls 4 (D.view disk.old) (D.view disk.new) (cleared (min len 17) (closed_prefix epoch)) (IsOk result)
        (IsErrOf result JournalFault.Disk) }
    ensures onward { Onward (D.view disk.old) (D.view disk.new) }
    ensures failed { IsErrOf result JournalFault.Disk → Rose (D.view disk.old).faults (D.view disk.new).faults }
    ensures not { (at : ℕ) → IsErrOf result (JournalFault.NotAJournal at) → ⊥ }
{
    let head = closed_prefix(epoch);
    match clear_to(disk, len, &head) {
        Ok(()) => Ok(Cleared { epoch }),
        Err(fault) => Err(fault_of(fault)),
    }
}
