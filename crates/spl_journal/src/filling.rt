//! A journal written whole on a cleared disk.
ghost use Rattle.std.specs.Prelude.{◌≡◌, ◌≤◌, ◌<◌, ◌+◌, ◌^◌, ◌++◌, ◌∷◌, [], ℕ, Ok, false, length, OnOk, IfOk, IfSome, IsOk, IsErrOf};
ghost use Rattle.spl_base.specs.declared.limit.TheConstants.{LONGEST_RECORD};
ghost use Rattle.spl_edge.specs.Devices.{Rose, image_now, Onward};
ghost use Rattle.spl_journal.specs.{Clear.IsCleared, Gate.{LeavesSince, ByCalls, opened}, Journals.{Stands, len_of, base_of, epoch_of, extent_of, is_halted}};
ghost use Rattle.spl_journal.specs.{Journals.epoch_cleared, Records.{block, blocks, filling, records, AreGood, IsClosedOrFilled}};

use crate::bytes::size_bytes;
use crate::gate::open_gate;
use crate::{Cleared, Form, Journal, JournalFault, Records, fault_of};
use spl_base::Piece;
use spl_edge::Disk;
use std::alloc::{AllocError, Global};
use std::marker::PhantomData;

/// An open gate, the length and the record, at the end.
fn put_block(piece: &mut Vec<u8>, bytes: &[u8]) -> Result<(), AllocError>
    requires most { length bytes.now ≤ LONGEST_RECORD }
    ensures { OnOk result (piece.new.items ≡ piece.old.items ++ block bytes.now) }
{
    piece.push(1)?;
    piece.extend_from_slice(&size_bytes(bytes.len() as u32))?;
    piece.extend_from_slice(bytes)?;
    Ok(())
}

/// How many bytes records have after their gates, with a closed gate.
fn room_for(items: &[Piece]) -> usize {
    let mut room = 1usize;
    for item in items {
        room = room.saturating_add(5).saturating_add(item.bytes().len());
    }
    room
}

/// The records after their open gates, and a closed gate.
pub(crate) fn filling<R: Form>(alloc: Global, items: &[Piece]) -> Result<Vec<u8>, AllocError>
    requires good { AreGood R.is_record items.now }
    ensures { IfOk result (λ piece. piece.items ≡ filling items.now) }
{
    let mut piece = Vec::with_capacity(alloc, room_for(items))?;
    for item in items {
        put_block(&mut piece, item.bytes())?;
    }
    piece.push(0)?;
    Ok(piece)
}

/// Writes a journal of these records on a disk that `clear` made ready, by four calls, once all memory is taken.
pub fn fill<R: Form, D: Disk>(
    alloc: Global,
    cleared: Cleared,
    disk: &mut D,
    contents: &Records,
) -> Result<Journal<R>, JournalFault>
    requires cleared { IfSome (image_now (D.view disk.old)) (IsCleared (epoch_cleared cleared)) }
    requires good { AreGood R.is_record contents.now }
    ensures stands { IfOk result (λ j. IfSome (image_now (D.view disk.new)) (Stands R.is_record j)) }
    ensures records { OnOk result (IfSome (image_now (D.view disk.new)) (λ i. records R.is_record i.bytes ≡ Ok contents.now)) }
    ensures len { IfOk result (λ j. (len_of j ≡ 18 + length (blocks contents.now)) × (base_of j ≡ len_of j) × (extent_of j ≡ len_of j)) }
    ensures fresh { IfOk result (λ j. (epoch_of j ≡ epoch_cleared cleared) × (is_halted j ≡ false)) }
    ensures four { OnOk result ((D.view disk.new).moment ≡ (D.view disk.old).moment + 4) }

    // Until the end a stop leaves a closed head, or these records.
    ensures any_moment { IfSome (image_now (D.view disk.old)) (λ i.
        LeavesSince (D.view disk.old) (D.view disk.new) (IsClosedOrFilled R.is_record (epoch_cleared cleared) contents.now)) }
    ensures by_calls { ByCalls 4 (D.view disk.old) (D.view disk.new) (opened 16 (filling contents.now)) (IsOk result) (IsErrOf result JournalFault.Disk) }
    ensures onward { Onward (D.view disk.old) (D.view disk.new) }
    ensures failed { IsErrOf result JournalFault.Disk → Rose (D.view disk.old).faults (D.view disk.new).faults }
    ensures not { (at : ℕ) → IsErrOf result (JournalFault.NotAJournal at) → ⊥ }
{
    let Ok(piece) = filling::<R>(alloc, contents.as_slice()) else {
        return Err(JournalFault::NoMemory);
    };
    if let Err(fault) = open_gate(disk, 16, &piece) {
        return Err(fault_of(fault));
    }
    let len = 17 + piece.len() as u64;
    Ok(Journal {
        end: len - 1,
        base: len,
        epoch: cleared.epoch,
        extent: len,
        halted: false,
        piece: None,
        of: PhantomData,
    })
}
