//! Whether files are a node's, by what their journal binds.
ghost use Rattle.std.specs.{Prelude.{◌≡◌, [], IfOk, IfSome}, List.list_any, Result.IsOkAnd};
ghost use Rattle.spl_edge.specs.Devices.{IsSettled, image_now, pair_view};
ghost use Rattle.spl_snapshot.specs.{Counting.{IfBoth, pair_records}, Pairs.{PairWalks, pair_given}};
ghost use Rattle.spl_node.specs.{Stands.disk_records, Records.is_record};
ghost use Rattle.spl_look.specs.{Owners.{IsFirstWithout, binds_without, first_without, without_in}, Reading.OnlyReads};

use spl_base::{CircuitId, NodeId};
use spl_edge::{Disk, Pair};
use spl_journal::JournalFault;
use spl_node::{CellForm, are_blank};
use spl_snapshot::{PairWalk, walk_pair};
use spl_wire::{Change, Record};
use std::alloc::Global;

// Whether a change binds a definition of which the node is no member.
fn binds_without(here: &NodeId, change: &Change) -> bool
    ensures { result ≡ binds_without here.now change.now }
{
    match change {
        Change::Bind(definition) => !definition.get().is_member(here),
        _ => false,
    }
}

fn bind_without(here: &NodeId, changes: &[Change]) -> bool
    ensures { result ≡ list_any (binds_without here.now) changes.now }
{
    'changes: for change in changes {
        if binds_without(here, change) {
            return true;
        }
    }
    false
}

// The circuit of a record that has such a change.
fn without_in(here: &NodeId, found: &Record) -> Option<CircuitId>
    ensures { result ≡ without_in here.now found.now }
{
    if bind_without(here, found.changes.as_slice()) {
        return Some(found.circuit);
    }
    None
}

// Reads the rest of the journal that counts, to its end: what is damaged isn't taken for another node's.
fn read_circuits<D: Disk>(
    alloc: Global,
    here: &NodeId,
    walk: &mut PairWalk<CellForm>,
    disks: &mut Pair<D>,
) -> Result<Option<CircuitId>, JournalFault>
    requires walks { PairWalks is_record walk.old (image_now (D.view disks.old.first)) (image_now (D.view disks.old.second)) }
    requires start { IfBoth (image_now (D.view disks.old.first)) (image_now (D.view disks.old.second))
        (λ i j. pair_given is_record walk.old i.bytes j.bytes ≡ []) }
    ensures first { IfOk result (λ found. IfBoth (image_now (D.view disks.old.first)) (image_now (D.view disks.old.second))
        (λ i j. IsOkAnd (pair_records is_record i.bytes j.bytes) (λ rs. found ≡ first_without here.now rs))) }
    ensures reads { OnlyReads (pair_records is_record) (pair_view D.view disks.old) (pair_view D.view disks.new) result }
{
    let mut first = None;
    'records: while let Some(found) = walk.next(alloc, disks)? {
        first = first.or(without_in(here, &found.item));
    }
    Ok(first)
}

// The same of two disks that are a journal.
fn first_in_journal<D: Disk>(
    alloc: Global,
    here: &NodeId,
    disks: &mut Pair<D>,
) -> Result<Option<CircuitId>, JournalFault>
    requires first { IfSome (image_now (D.view disks.old.first)) IsSettled }
    requires second { IfSome (image_now (D.view disks.old.second)) IsSettled }
    ensures first { IfOk result (λ found. IfBoth (image_now (D.view disks.old.first)) (image_now (D.view disks.old.second))
        (λ i j. IsOkAnd (pair_records is_record i.bytes j.bytes) (λ rs. found ≡ first_without here.now rs))) }
    ensures reads { OnlyReads (pair_records is_record) (pair_view D.view disks.old) (pair_view D.view disks.new) result }
{
    let mut walk = walk_pair::<CellForm, D>(disks)?;
    read_circuits(alloc, here, &mut walk, disks)
}

/// The circuit of the first record of a node's disks that binds a definition of which the node is no member, where one does: the
/// files are another node's then, since a node is bound to definitions alone of which it is a member. Two blank disks have none.
/// `NotAJournal` comes exactly where the disks hold bytes and are no journal, and `Disk` only where one of them failed. The disks,
/// on which nothing is pending, hold what they held.
pub fn first_without<D: Disk>(
    alloc: Global,
    here: &NodeId,
    disks: &mut Pair<D>,
) -> Result<Option<CircuitId>, JournalFault>
    requires first { IfSome (image_now (D.view disks.old.first)) IsSettled }
    requires second { IfSome (image_now (D.view disks.old.second)) IsSettled }
    ensures first { IfOk result (λ found. IfBoth (image_now (D.view disks.old.first)) (image_now (D.view disks.old.second))
        (λ i j. IsFirstWithout here.now i.bytes j.bytes found)) }
    ensures reads { OnlyReads disk_records (pair_view D.view disks.old) (pair_view D.view disks.new) result }
{
    if are_blank(disks)? {
        return Ok(None);
    }
    first_in_journal(alloc, here, disks)
}
