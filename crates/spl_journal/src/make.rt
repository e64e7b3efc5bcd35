//! A journal made on a blank disk.
ghost use Rattle.std.specs.{Prelude.{◌≡◌, ◌≤◌, ◌+◌, ◌++◌, ◌∷◌, [], ℕ, Ok, false, length, OnOk, IfOk, IfSome, IsErrOf}, Option.option_map};
ghost use Rattle.spl_edge.specs.Devices.{Rose, image_now, Onward};
ghost use Rattle.spl_journal.specs.{Journals.{Stands, len_of, base_of, epoch_of, is_halted}, Records.{IsBlank, made, closed_head, records}};

use crate::bytes::closed_head;
use crate::{Form, Journal, JournalFault, fault_of};
use spl_edge::{DeviceError, Disk};
use std::alloc::Global;
use std::marker::PhantomData;

/// Writes a head and opens its gate, by four calls.
fn write_head<D: Disk>(disk: &mut D, head: &[u8]) -> Result<(), DeviceError>
    requires long { length head.now ≡ 18 }
    requires blank { IfSome (image_now (D.view disk.old)) IsBlank }
    ensures made { OnOk result (image_now (D.view disk.new) ≡ option_map (made head.now) (image_now (D.view disk.old))) }
    ensures four { OnOk result ((D.view disk.new).moment ≡ (D.view disk.old).moment + 4) }
    ensures onward { Onward (D.view disk.old) (D.view disk.new) }
    ensures failed { IsErrOf result DeviceError.Failed → Rose (D.view disk.old).faults (D.view disk.new).faults }
{
    if let Err(fault) = disk.write_at(0, head) {
        return Err(fault);
    }
    if let Err(fault) = disk.sync() {
        return Err(fault);
    }
    if let Err(fault) = disk.write_at(16, &[1]) {
        return Err(fault);
    }
    if let Err(fault) = disk.sync() {
        return Err(fault);
    }
    Ok(())
}

/// Makes a journal without records on a blank disk, by four calls.
pub fn format<R: Form, D: Disk>(
    alloc: Global,
    disk: &mut D,
    epoch: u64,
) -> Result<Journal<R>, JournalFault>
    requires blank { IfSome (image_now (D.view disk.old)) IsBlank }
    ensures made { OnOk result (image_now (D.view disk.new) ≡ option_map (made (closed_head epoch)) (image_now (D.view disk.old))) }
    ensures stands { IfOk result (λ j. IfSome (image_now (D.view disk.new)) (Stands R.is_record j)) }
    ensures empty { OnOk result (IfSome (image_now (D.view disk.new)) (λ i. records R.is_record i.bytes ≡ Ok [])) }
    ensures fresh { IfOk result (λ j. (len_of j ≡ 18) × (base_of j ≡ 18) × (epoch_of j ≡ epoch) × (is_halted j ≡ false)) }
    ensures four { OnOk result ((D.view disk.new).moment ≡ (D.view disk.old).moment + 4) }
    ensures onward { Onward (D.view disk.old) (D.view disk.new) }
    ensures not { (at : ℕ) → IsErrOf result (JournalFault.NotAJournal at) → ⊥ }
    ensures failed { IsErrOf result JournalFault.Disk → Rose (D.view disk.old).faults (D.view disk.new).faults }
{
    let Ok(head) = closed_head(alloc, epoch) else {
        return Err(JournalFault::NoMemory);
    };
    if let Err(fault) = write_head(disk, &head) {
        return Err(fault_of(fault));
    }
    Ok(Journal {
        end: 17,
        base: 18,
        epoch,
        extent: 18,
        halted: false,
        piece: None,
        of: PhantomData,
    })
}
