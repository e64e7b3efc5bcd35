//! What a node keeps, read from its disks alone.
ghost use Rattle.std.specs.{Prelude.{◌≡◌, ◌≢◌, ◌⊎◌, [], ℕ, true, false, Err, IfOk, IfSome, IsErrOf}, List.{list_any, Sorted.IsStrictlySortedBy}};
ghost use Rattle.std.specs.{Option.option_map, Ordering.nat_cmp, Cmp.Lexicographic.slice_cmp, Str.bytes_eq};
ghost use Rattle.spl_circuit.specs.Nodes.{CircuitId as Circuit};
ghost use Rattle.spl_edge.specs.Devices.{IsSettled, image_now, pair_view};
ghost use Rattle.spl_snapshot.specs.Counting.{IfBoth, pair_records, PairOnward, PairStays, HasRisen, IfPairTells};
ghost use Rattle.spl_cell_rules.specs.{Cells.{is_bound, site_at}, Valid.IsKept};
ghost use Rattle.spl_cell.specs.Views.{bound_in};
ghost use Rattle.spl_node.specs.{Kept.{bound_ids, cell_at}, Stands.{AreBlank, HasBytes, IsPeeked, IsRead, disk_records}, Records.is_record};

use crate::CellForm;
use crate::cells::Cells;
use crate::opening::read_records;
use spl_base::{CircuitId, Listing, NodeId};
use spl_cell::Held;
use spl_edge::{DeviceError, Disk, Pair};
use spl_journal::JournalFault;
use spl_snapshot::walk_pair;
use std::alloc::{AllocError, Global};
use std::marker::Model;

/// What a node keeps, as its disks have it. It is read alone: no event is handled by it. Contracts
/// see the node, and its cells in the order of the ids.
#[derive(Drop)]
pub struct Keeper {
    cells: Cells,
}

impl Model for Keeper {
    ghost use Rattle.spl_node.specs.Kept.{CellsView};

    ghost Value = { CellsView };

    ghost view = { λ s. s.cells };
}

/// Whether neither of two disks holds bytes. The second is asked where the first holds none. It
/// fails only where a disk failed; the disks hold what they held.
pub fn are_blank<D: Disk>(disks: &mut Pair<D>) -> Result<bool, DeviceError>
    ensures blank { IfOk result (λ blank. blank ≡ true →
        IfPairTells (pair_view D.view disks.old) (λ i j. AreBlank i.bytes j.bytes)) }
    ensures bytes { IfOk result (λ blank. blank ≡ false →
        IfPairTells (pair_view D.view disks.old) (λ i j. HasBytes i.bytes j.bytes)) }
    ensures stays { PairStays (pair_view D.view disks.old) (pair_view D.view disks.new) }
    ensures onward { PairOnward (pair_view D.view disks.old) (pair_view D.view disks.new) }
    ensures failed { IsErrOf result DeviceError.Failed → HasRisen (pair_view D.view disks.old) (pair_view D.view disks.new) }
    ensures first { IfOk result (λ blank. blank ≡ true → IfSome (image_now (D.view disks.old.first)) (λ i. i.bytes ≡ [])) }
    ensures second { IfOk result (λ blank. blank ≡ true → IfSome (image_now (D.view disks.old.second)) (λ j. j.bytes ≡ [])) }
{
    match disks.first.len() {
        Ok(0) => {}
        Ok(_) => return Ok(false),
        Err(fault) => return Err(fault),
    }
    match disks.second.len() {
        Ok(count) => Ok(count == 0),
        Err(fault) => Err(fault),
    }
}

/// The cells for which two disks stand that are a journal.
fn peek_journal<D: Disk>(
    alloc: Global,
    here: NodeId,
    disks: &mut Pair<D>,
) -> Result<Keeper, JournalFault>
    requires first { IfSome (image_now (D.view disks.old.first)) IsSettled }
    requires second { IfSome (image_now (D.view disks.old.second)) IsSettled }
    ensures here { IfOk result (λ k. k.here ≡ here) }
    ensures cells { IfOk result (λ k. IfPairTells (pair_view D.view disks.old)
        (λ i j. IsRead k i.bytes j.bytes)) }
    ensures not { (at : ℕ) → IsErrOf result (JournalFault.NotAJournal at)
        → IfPairTells (pair_view D.view disks.old)
        (λ i j. pair_records is_record i.bytes j.bytes ≡ Err at) }
    ensures failed { IsErrOf result JournalFault.Disk → HasRisen (pair_view D.view disks.old) (pair_view D.view disks.new) }
    ensures stays { PairStays (pair_view D.view disks.old) (pair_view D.view disks.new) }
    ensures onward { PairOnward (pair_view D.view disks.old) (pair_view D.view disks.new) }
{
    let mut walk = walk_pair::<CellForm, D>(disks)?;
    let mut cells = Cells::new(alloc, here);
    read_records(alloc, &mut walk, &mut cells, disks)?;
    Ok(Keeper { cells })
}

impl Keeper {
    /// Reads the cells for which the disks of a node stand, on which nothing is pending. Two blank
    /// disks stand for no cells. `NotAJournal` comes exactly where the disks hold bytes and are no
    /// journal, and `Disk` only where one of them failed. The disks hold what they held.
    pub fn peek<D: Disk>(
        alloc: Global,
        here: NodeId,
        disks: &mut Pair<D>,
    ) -> Result<Keeper, JournalFault>
        requires first { IfSome (image_now (D.view disks.old.first)) IsSettled }
        requires second { IfSome (image_now (D.view disks.old.second)) IsSettled }
        ensures here { IfOk result (λ k. k.here ≡ here) }
        ensures cells { IfOk result (λ k. IfPairTells (pair_view D.view disks.old)
            (λ i j. IsPeeked k i.bytes j.bytes)) }
        ensures not { (at : ℕ) → IsErrOf result (JournalFault.NotAJournal at)
            → IfPairTells (pair_view D.view disks.old)
            (λ i j. disk_records i.bytes j.bytes ≡ Err at) }
        ensures failed { IsErrOf result JournalFault.Disk → HasRisen (pair_view D.view disks.old) (pair_view D.view disks.new) }
        ensures stays { PairStays (pair_view D.view disks.old) (pair_view D.view disks.new) }
        ensures onward { PairOnward (pair_view D.view disks.old) (pair_view D.view disks.new) }
    {
        if are_blank(disks)? {
            return Ok(Keeper {
                cells: Cells::new(alloc, here),
            });
        }
        peek_journal(alloc, here, disks)
    }

    /// The node.
    pub fn here(&self) -> NodeId
        ensures { result ≡ self.now.here }
    {
        self.cells.here()
    }

    /// The cell of each circuit keeps what a cell keeps.
    pub fn is_kept(&self)
        ensures { (c : Circuit) → IsKept (site_at self.now.here c) (cell_at self.now.entries c) }
    {
        self.cells.is_kept();
    }

    /// The ids of the circuits that are bound here, in order. The only error is that memory ran out.
    pub fn roll(&self, alloc: Global) -> Result<Listing<CircuitId>, AllocError>
        ensures ids { IfOk result (λ ids. ids ≡ bound_ids self.now.entries) }
        ensures bound { IfOk result (λ ids. (c : Circuit) → list_any (bytes_eq c) ids ≡ is_bound (cell_at self.now.entries c)) }
        ensures sorted { IfOk result (λ ids. IsStrictlySortedBy (slice_cmp nat_cmp) ids) }
    {
        self.cells.is_ordered();
        self.cells.bound(alloc)
    }

    /// What is kept of a circuit; None exactly where its cell isn't bound.
    pub fn held(&self, circuit: &CircuitId) -> Option<&Held>
        ensures { option_map (λ h. h.now.bound) result ≡ bound_in (cell_at self.now.entries circuit.now) }
    {
        self.cells.held(circuit)
    }
}
