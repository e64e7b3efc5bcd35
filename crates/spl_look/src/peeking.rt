//! One cell of a node, read from the node's disks.
ghost use Rattle.std.specs.{Prelude.{◌≡◌, true, false, IfOk, OnOk, IfSome, IsTrue, if◌then◌else◌}, Str.bytes_eq};
ghost use Rattle.spl_edge.specs.Devices.{IsSettled, image_now, pair_view};
ghost use Rattle.spl_snapshot.specs.{Counting.{IfBoth, pair_records}, Pairs.{PairWalks, pair_given}};
ghost use Rattle.spl_wire.specs.Forms.{record_form};
ghost use Rattle.spl_cell_rules.specs.{Changes.applied, Cells.site_at};
ghost use Rattle.spl_cell.specs.States.{IsStill};
ghost use Rattle.spl_node.specs.{Stands.disk_records, Records.is_record};
ghost use Rattle.spl_look.specs.{Reading.OnlyReads, Telling.{IsMadeAt, IsPeekedAt, IsReadAt}};

use spl_base::{CircuitId, NodeId};
use spl_cell::Cell;
use spl_cell_rules::records_are_formed;
use spl_edge::{Disk, Pair};
use spl_journal::JournalFault;
use spl_node::{CellForm, are_blank};
use spl_snapshot::{PairWalk, walk_pair};
use spl_wire::Record;
use std::alloc::{AllocError, Global};

// Makes the changes of a record at a cell, where it is about the cell's circuit.
fn follow(alloc: Global, cell: &mut Cell, found: &Record) -> Result<(), AllocError>
    requires running { cell.old.halted ≡ false }
    requires still { IsStill cell.old.state }
    requires written { IsTrue (record_form.fits found.now) }
    ensures fixed { cell.new.site ≡ cell.old.site }
    ensures state { OnOk result (cell.new.state ≡ (if bytes_eq found.now.circuit cell.old.site.circuit
        then applied cell.old.site cell.old.state found.now.changes else cell.old.state)) }
    ensures still { OnOk result (IsStill cell.new.state) }
    ensures running { OnOk result (cell.new.halted ≡ false) }
{
    records_are_formed();
    if found.circuit != cell.circuit() {
        return Ok(());
    }
    cell.replay(alloc, &found.changes)
}

// Reads the rest of the journal that counts, and makes its changes at the cell, each as it comes.
fn read_cell<D: Disk>(
    alloc: Global,
    walk: &mut PairWalk<CellForm>,
    cell: &mut Cell,
    disks: &mut Pair<D>,
) -> Result<(), JournalFault>
    requires walks { PairWalks is_record walk.old (image_now (D.view disks.old.first)) (image_now (D.view disks.old.second)) }
    requires running { cell.old.halted ≡ false }
    requires still { IsStill cell.old.state }
    requires made { IfBoth (image_now (D.view disks.old.first)) (image_now (D.view disks.old.second))
        (λ i j. IsMadeAt cell.old.site cell.old.state (pair_given is_record walk.old i.bytes j.bytes)) }
    ensures fixed { cell.new.site ≡ cell.old.site }
    ensures running { OnOk result (cell.new.halted ≡ false) }
    ensures read { OnOk result (IfBoth (image_now (D.view disks.old.first)) (image_now (D.view disks.old.second))
        (λ i j. IsReadAt cell.new.site cell.new.state i.bytes j.bytes)) }
    ensures reads { OnlyReads (pair_records is_record) (pair_view D.view disks.old) (pair_view D.view disks.new) result }
{
    'records: while let Some(found) = walk.next(alloc, disks)? {
        follow(alloc, cell, &found.item)?;
    }
    Ok(())
}

// The cell of a circuit for which two disks stand that are a journal.
fn peek_journal<D: Disk>(
    alloc: Global,
    here: NodeId,
    circuit: CircuitId,
    disks: &mut Pair<D>,
) -> Result<Cell, JournalFault>
    requires first { IfSome (image_now (D.view disks.old.first)) IsSettled }
    requires second { IfSome (image_now (D.view disks.old.second)) IsSettled }
    ensures site { IfOk result (λ k. k.site ≡ site_at here circuit) }
    ensures running { IfOk result (λ k. k.halted ≡ false) }
    ensures read { IfOk result (λ k. IfBoth (image_now (D.view disks.old.first)) (image_now (D.view disks.old.second))
        (λ i j. IsReadAt k.site k.state i.bytes j.bytes)) }
    ensures reads { OnlyReads (pair_records is_record) (pair_view D.view disks.old) (pair_view D.view disks.new) result }
{
    let mut walk = walk_pair::<CellForm, D>(disks)?;
    let mut cell = Cell::empty(here, circuit);
    read_cell(alloc, &mut walk, &mut cell, disks)?;
    Ok(cell)
}

/// The cell of a circuit for which the disks of a node stand, on which nothing is pending. Two blank disks stand for an empty
/// cell. `NotAJournal` comes exactly where the disks hold bytes and are no journal, and `Disk` only where one of them failed.
/// The disks hold what they held.
pub(crate) fn peek_cell<D: Disk>(
    alloc: Global,
    here: NodeId,
    circuit: CircuitId,
    disks: &mut Pair<D>,
) -> Result<Cell, JournalFault>
    requires first { IfSome (image_now (D.view disks.old.first)) IsSettled }
    requires second { IfSome (image_now (D.view disks.old.second)) IsSettled }
    ensures site { IfOk result (λ k. k.site ≡ site_at here circuit) }
    ensures running { IfOk result (λ k. k.halted ≡ false) }
    ensures peeked { IfOk result (λ k. IfBoth (image_now (D.view disks.old.first)) (image_now (D.view disks.old.second))
        (λ i j. IsPeekedAt k.site k.state i.bytes j.bytes)) }
    ensures reads { OnlyReads disk_records (pair_view D.view disks.old) (pair_view D.view disks.new) result }
{
    if are_blank(disks)? {
        return Ok(Cell::empty(here, circuit));
    }
    peek_journal(alloc, here, circuit, disks)
}
