//! Which of two disks counts.
ghost use Rattle.std.specs.Prelude.{◌≡◌, ◌≤◌, ℕ, Err, [], IfOk, IfSome, IsErrOf, Option};
ghost use Rattle.spl_edge.specs.Devices.{Rose, Image, IsSettled, image_now, Onward};
ghost use Rattle.spl_journal.specs.Reads.{Stays};
ghost use Rattle.spl_snapshot.specs.{Choices.IsFound, Counting.pair_records, Pairs.{PairWalks, pair_given}};

use crate::PairWalk;
use spl_edge::Disk;
use spl_journal::{Form, Journal, JournalFault, Walk, fault_of};

/// What was found on a disk: a journal whose reading has begun, or a head that is wrong at a place, on so many bytes.
#[derive(Drop)]
pub enum Found<R> {
    Open(Walk<R>),
    Closed(u64, u64),
}

/// Looks at the head of a disk.
pub(crate) fn look<R: Form, D: Disk>(disk: &mut D) -> Result<Found<R>, JournalFault>
    requires settled { IfSome (image_now (D.view disk.old)) IsSettled }
    ensures found { IfOk result (λ f. IfSome (image_now (D.view disk.old)) (IsFound R.is_record f)) }
    ensures not { (at : ℕ) → IsErrOf result (JournalFault.NotAJournal at) → ⊥ }
    ensures stays { Stays (D.view disk.old) (D.view disk.new) }
    ensures failed { IsErrOf result JournalFault.Disk → Rose (D.view disk.old).faults (D.view disk.new).faults }
    ensures onward { Onward (D.view disk.old) (D.view disk.new) }
{
    let at = match Journal::<R>::walk(disk) {
        Ok(walk) => return Ok(Found::Open(walk)),
        Err(JournalFault::NotAJournal { at }) => at,
        Err(JournalFault::Disk) => return Err(JournalFault::Disk),
        Err(JournalFault::NoMemory) => return Err(JournalFault::NoMemory),
    };
    match disk.len() {
        Ok(len) => Ok(Found::Closed(at, len)),
        Err(fault) => Err(fault_of(fault)),
    }
}

/// The walk over the disk that counts: the open one of the greater epoch, and the first of two with equal epochs.
pub(crate) fn choose<R: Form>(
    first: Found<R>,
    second: Found<R>,
) -> Result<PairWalk<R>, JournalFault>
    ensures walks { IfOk result (λ w. (i j : Option Image) → IfSome i (IsFound R.is_record first) → IfSome j (IsFound R.is_record second)
        → PairWalks R.is_record w i j) }
    ensures start { IfOk result (λ w. (i j : Image) → IsFound R.is_record first i → IsFound R.is_record second j
        → pair_given R.is_record w i.bytes j.bytes ≡ []) }
    ensures not { (at : ℕ) → IsErrOf result (JournalFault.NotAJournal at) → (i j : Image) → IsFound R.is_record first i → IsFound R.is_record second j
        → pair_records R.is_record i.bytes j.bytes ≡ Err at }
    ensures disk { IsErrOf result JournalFault.Disk → ⊥ }
{
    match (first, second) {
        (Found::Closed(at, _), Found::Closed(_, _)) => Err(JournalFault::NotAJournal { at }),
        (Found::Open(walk), Found::Closed(_, other)) => Ok(PairWalk {
            walk,
            second: false,
            other,
        }),
        (Found::Closed(_, other), Found::Open(walk)) => Ok(PairWalk {
            walk,
            second: true,
            other,
        }),
        (Found::Open(walk), Found::Open(above)) => {
            if walk.epoch() < above.epoch() {
                let other = walk.extent();
                return Ok(PairWalk {
                    walk: above,
                    second: true,
                    other,
                });
            }
            let other = above.extent();
            Ok(PairWalk {
                walk,
                second: false,
                other,
            })
        }
    }
}
