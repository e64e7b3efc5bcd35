//! A journal that is read from a disk, in pieces.
ghost use Rattle.std.specs.Prelude.{◌≡◌, ◌≤◌, ◌<◌, ◌+◌, ◌^◌, ℕ, None, Some, Err, length, drop, get_or, false, OnOk, IfOk, IfSome, IsErrOf};
ghost use Rattle.spl_edge.specs.Devices.{Rose, image_now, Onward};
ghost use Rattle.spl_journal.specs.{Records.{epoch_in, form_in, head_fault, is_block, IsRecord}, Reads.{Stays, IsNext, EndsAt}};

use crate::bytes::{epoch_from, head_form, size_from};
use crate::journal_form::JournalForm;
use crate::{Form, JournalFault, fault_of};
use spl_edge::Disk;
use std::alloc::{AllocError, Global};

fn zeros(alloc: Global, len: usize) -> Result<Vec<u8>, AllocError>
    ensures { IfOk result (λ zeros. length zeros.items ≡ len) }
{
    vec![in alloc; 0; len]
}

/// The epoch and the form of the journal whose head stands on a disk.
pub(crate) fn read_head<D: Disk>(disk: &mut D) -> Result<(u64, JournalForm), JournalFault>
    ensures epoch { IfOk result (λ head. IfSome (image_now (D.view disk.old)) (λ i. head.0 ≡ epoch_in i.bytes)) }
    ensures form { IfOk result (λ head. IfSome (image_now (D.view disk.old)) (λ i. form_in i.bytes ≡ Some head.1)) }
    ensures ok { OnOk result (IfSome (image_now (D.view disk.old)) (λ i. head_fault i.bytes ≡ None)) }
    ensures not { (at : ℕ) → IsErrOf result (JournalFault.NotAJournal at)
        → IfSome (image_now (D.view disk.old)) (λ i. head_fault i.bytes ≡ Some at) }
    ensures stays { Stays (D.view disk.old) (D.view disk.new) }
    ensures failed { IsErrOf result JournalFault.Disk → Rose (D.view disk.old).faults (D.view disk.new).faults }
    ensures onward { Onward (D.view disk.old) (D.view disk.new) }
{
    let mut head = [0; 18];
    let got = match disk.read(0, &mut head) {
        Ok(got) => got,
        Err(fault) => return Err(fault_of(fault)),
    };
    let form = match head_form(&head[..got]) {
        Ok(form) => form,
        Err(at) => return Err(JournalFault::NotAJournal { at }),
    };
    let mut epoch = [0; 8];
    epoch.copy_from_slice(&head[8..16]);
    Ok((epoch_from(epoch), form))
}

/// The record after the gate at this place and how many bytes it has, at most so many, or None where the gate is
/// closed.
pub(crate) fn read_next<R: Form, D: Disk>(
    alloc: Global,
    disk: &mut D,
    at: u64,
    longest: usize,
) -> Result<Option<(R::Read, u64)>, JournalFault>
    requires small { at + 5 < 2 ^ 64 }
    ensures next { IfOk result (λ found. IfSome found (λ r. IsRecord longest R.is_record (R.bytes_of r.0)
        × IfSome (image_now (D.view disk.old)) (λ i. at < length i.bytes → IsNext longest R.is_record at (R.bytes_of r.0) i.bytes))) }
    ensures size { IfOk result (λ found. IfSome found (λ r. r.1 ≡ length (R.bytes_of r.0))) }
    ensures counted { IfOk result (λ found. IfSome found (λ r. r.1 < 2 ^ 32)) }
    ensures end { IfOk result (λ found. found ≡ None → IfSome (image_now (D.view disk.old)) (EndsAt at)) }
    ensures not { (k : ℕ) → IsErrOf result (JournalFault.NotAJournal k) → (k ≡ at)
        × IfSome (image_now (D.view disk.old)) (λ i. at < length i.bytes → (get_or i.bytes at 0 ≡ 1)
        × (is_block longest R.is_record (drop at i.bytes) ≡ false)) }
    ensures stays { Stays (D.view disk.old) (D.view disk.new) }
    ensures failed { IsErrOf result JournalFault.Disk → Rose (D.view disk.old).faults (D.view disk.new).faults }
    ensures onward { Onward (D.view disk.old) (D.view disk.new) }
{
    let mut start = [0; 5];
    let got = match disk.read(at, &mut start) {
        Ok(got) => got,
        Err(fault) => return Err(fault_of(fault)),
    };
    if got < 1 || start[0] != 1 {
        return Ok(None);
    }
    if got < 5 {
        return Err(JournalFault::NotAJournal { at });
    }
    let mut size = [0; 4];
    size.copy_from_slice(&start[1..]);
    let size = size_from(size) as usize;
    if size < 1 || size > longest {
        return Err(JournalFault::NotAJournal { at });
    }
    let mut record = match zeros(alloc, size + 1) {
        Ok(record) => record,
        Err(_) => return Err(JournalFault::NoMemory),
    };
    let got = match disk.read(at + 5, &mut record) {
        Ok(got) => got,
        Err(fault) => return Err(fault_of(fault)),
    };
    if got < size + 1 {
        return Err(JournalFault::NotAJournal { at });
    }
    record.truncate(size);
    match R::read(alloc, record) {
        Ok(Some(found)) => Ok(Some((found, size as u64))),
        Ok(None) => Err(JournalFault::NotAJournal { at }),
        Err(_) => Err(JournalFault::NoMemory),
    }
}
