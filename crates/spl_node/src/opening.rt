//! The cells that a journal makes, read record by record.
ghost use Rattle.std.specs.Prelude.{◌≡◌, ◌⊎◌, ◌+◌, ℕ, true, false, length, Err, IfOk, OnOk, IfSome, IsErrOf};
ghost use Rattle.spl_circuit.specs.Nodes.{NodeId, CircuitId};
ghost use Rattle.spl_edge.specs.Devices.{IsSettled, image_now, pair_view};
ghost use Rattle.spl_journal.specs.{Journals.{has_ended, base_of}, Reads.Stays, Records.blocks};
ghost use Rattle.spl_cell_rules.specs.{Valid.IsKept, Cells.site_at};
ghost use Rattle.spl_cell.specs.States.{IsStill};
ghost use Rattle.spl_snapshot.specs.Counting.{chosen, second_counts, IfBoth, pair_records, PairOnward, PairStays, PairTellsAs, HasRisen, IfPairTells};
ghost use Rattle.spl_snapshot.specs.{Counting.counting_disk, Pairs.{PairWalks, pair_given, walk_in, journal_in, PairWalksOn}};
ghost use Rattle.spl_node.specs.{Kept.{cell_at, packed_node}, Records.is_record, Stands.{NodeStandsOn, circuit_cell, here_of, is_node_halted, IsMade}};
ghost use Rattle.spl_node.specs.Stands.{IsRead, IsWritten, StandOn, StandOnIfRead};

use crate::cells::Cells;
use crate::form::Found;
use crate::{CellForm, Node};
use spl_base::NodeId;
use spl_edge::{Disk, Pair};
use spl_journal::JournalFault;
use spl_snapshot::{PairWalk, walk_pair};
use std::alloc::Global;

/// Reads the rest of the journal that counts, and makes its changes at the cells, each as it comes.
pub(crate) fn read_records<D: Disk>(
    alloc: Global,
    walk: &mut PairWalk<CellForm>,
    cells: &mut Cells,
    disks: &mut Pair<D>,
) -> Result<(), JournalFault>
    requires walks { PairWalksOn is_record walk.old (pair_view D.view disks.old) }
    requires still { (c : CircuitId) → IsStill (cell_at cells.old.entries c) }
    requires made { IfPairTells (pair_view D.view disks.old)
        (λ i j. IsMade cells.old (pair_given is_record walk.old i.bytes j.bytes)) }
    ensures here { cells.new.here ≡ cells.old.here }
    ensures walks { OnOk result (PairWalksOn is_record walk.new (pair_view D.view disks.old)) }
    ensures ended { OnOk result (has_ended (walk_in walk.new) ≡ true) }
    ensures read { OnOk result (IfPairTells (pair_view D.view disks.old) (λ i j. IsRead cells.new i.bytes j.bytes)) }
    ensures not { (at : ℕ) → IsErrOf result (JournalFault.NotAJournal at)
        → IfPairTells (pair_view D.view disks.old) (λ i j. pair_records is_record i.bytes j.bytes ≡ Err at) }
    ensures failed { IsErrOf result JournalFault.Disk → HasRisen (pair_view D.view disks.old) (pair_view D.view disks.new) }
    ensures stays { PairStays (pair_view D.view disks.old) (pair_view D.view disks.new) }
    ensures onward { PairOnward (pair_view D.view disks.old) (pair_view D.view disks.new) }
{
    'records: while let Some(found) = walk.next(alloc, disks)? {
        let Found { item: record } = found;
        cells.replay(alloc, record)?;
    }
    Ok(())
}

impl Node {
    /// The node for whose cells the disks stand, on which nothing is pending. Each record is
    /// applied as it is read, and no record is kept. A journal of an older form is written again on
    /// the other disk, by eight calls, before the node is answered. Each cell keeps what a cell
    /// keeps. `NotAJournal` comes exactly where the disks are no journal, and `Disk` only where one
    /// of them failed.
    pub fn open<D: Disk>(
        alloc: Global,
        here: NodeId,
        disks: &mut Pair<D>,
    ) -> Result<Node, JournalFault>
        requires first { IfSome (image_now (D.view disks.old.first)) IsSettled }
        requires second { IfSome (image_now (D.view disks.old.second)) IsSettled }
        ensures here { IfOk result (λ n. here_of n ≡ here) }
        ensures stands { IfOk result (λ n. NodeStandsOn n (pair_view D.view disks.new)) }
        ensures cells { IfOk result (λ n. IfPairTells (pair_view D.view disks.old)
            (λ i j. IsRead n.cells i.bytes j.bytes)) }
        ensures kept { IfOk result (λ n. (c : CircuitId) → IsKept (site_at (here_of n) c) (circuit_cell n c)) }
        ensures running { IfOk result (λ n. is_node_halted n ≡ false) }
        ensures form { OnOk result (IfPairTells (pair_view D.view disks.new)
            (λ i j. IsWritten i.bytes j.bytes)) }
        ensures base { IfOk result (λ n. (base_of (journal_in n.pairing) ≡ 18)
            ⊎ (base_of (journal_in n.pairing) ≡ 18 + length (blocks (packed_node n.cells.entries)))) }
        ensures told { OnOk result (PairTellsAs (pair_view D.view disks.old) (pair_view D.view disks.new)) }

        // Each image of any moment of the call stands for the same cells. The disk that counts is only read, and so is the
        // other where the journal is of the form in which journals are made.
        ensures any_moment { StandOnIfRead here (pair_view D.view disks.old) (pair_view D.view disks.new) }
        ensures still { PairStays (pair_view D.view disks.old) (pair_view D.view disks.new)
            ⊎ StandOn here (pair_view D.view disks.old) (pair_view D.view disks.new) }
        ensures counting { IfPairTells (pair_view D.view disks.old)
            (λ i j. Stays (D.view (counting_disk (second_counts i.bytes j.bytes) disks.old))
            (D.view (counting_disk (second_counts i.bytes j.bytes) disks.new))) }
        ensures written { IfPairTells (pair_view D.view disks.old)
            (λ i j. IsWritten i.bytes j.bytes → PairStays (pair_view D.view disks.old) (pair_view D.view disks.new)) }
        ensures not { (at : ℕ) → IsErrOf result (JournalFault.NotAJournal at)
            → IfPairTells (pair_view D.view disks.old)
            (λ i j. pair_records is_record i.bytes j.bytes ≡ Err at) }
        ensures unread { (at : ℕ) → IsErrOf result (JournalFault.NotAJournal at)
            → PairStays (pair_view D.view disks.old) (pair_view D.view disks.new) }
        ensures failed { IsErrOf result JournalFault.Disk → HasRisen (pair_view D.view disks.old) (pair_view D.view disks.new) }
        ensures onward { PairOnward (pair_view D.view disks.old) (pair_view D.view disks.new) }
    {
        let mut walk = walk_pair::<CellForm, D>(disks)?;
        let mut cells = Cells::new(alloc, here);
        read_records(alloc, &mut walk, &mut cells, disks)?;
        cells.is_kept();
        cells.is_ordered();
        let pairing = walk.finish(alloc, disks, &cells)?;
        Ok(Node {
            cells,
            pairing,
            halted: false,
        })
    }
}
