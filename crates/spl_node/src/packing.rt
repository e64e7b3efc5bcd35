//! The records into which the cells of a node pack, and the ids of the bound ones.
ghost use Rattle.std.specs.{Prelude.{◌≡◌, ◌++◌, IfOk, OnOk}, Map.values_of};
ghost use Rattle.spl_node.specs.Kept.{IsCellSound, AreSound, bound_ids, packed_cell, packed_cells};

use crate::cells::Cells;
use spl_base::{CircuitId, Listing, Piece};
use spl_cell::Cell;
use spl_journal::Records;
use spl_snapshot::Packed;
use std::alloc::{AllocError, Global};
use std::collections::BTreeMap;

/// The byte forms of records join a list, without a copy.
fn put_pieces(records: &mut Records, pieces: Vec<Piece>) -> Result<(), AllocError>
    ensures { OnOk result (records.new ≡ records.old ++ pieces.items) }
{
    for piece in pieces {
        records.take(piece)?;
    }
    Ok(())
}

/// The records of a packed cell join a list.
fn put_cell(records: &mut Records, alloc: Global, cell: &Cell) -> Result<(), AllocError>
    requires { IsCellSound cell.now }
    ensures { OnOk result (records.new ≡ records.old ++ packed_cell cell.now) }
{
    let pieces = cell.pack(alloc)?;
    put_pieces(records, pieces)
}

/// The records of all cells of a map, in the order of the ids.
fn pack_all(alloc: Global, map: &BTreeMap<CircuitId, Cell>) -> Result<Records, AllocError>
    requires { AreSound (values_of map.now.entries) }
    ensures { IfOk result (λ rs. rs ≡ packed_cells (values_of map.now.entries)) }
{
    let mut records = Records::new(alloc);
    for cell in map.values() {
        put_cell(&mut records, alloc, cell)?;
    }
    Ok(records)
}

/// The ids of the bound cells of a map, in order.
fn all_bound(
    alloc: Global,
    map: &BTreeMap<CircuitId, Cell>,
) -> Result<Listing<CircuitId>, AllocError>
    requires { AreSound (values_of map.now.entries) }
    ensures { IfOk result (λ ids. ids ≡ bound_ids map.now.entries) }
{
    let mut ids = Listing::new(alloc);
    for (id, cell) in map {
        if cell.bound() {
            ids.push(*id)?;
        }
    }
    Ok(ids)
}

impl Packed for Cells {
    ghost use Rattle.spl_node.specs.Kept.{packed_node};

    ghost packed = { λ s. packed_node s.entries };

    fn pack(&self, alloc: Global) -> Result<Records, AllocError> {
        pack_all(alloc, &self.map)
    }
}

impl Cells {
    /// The ids of the bound cells, in order. The only error is that memory ran out.
    pub fn bound(&self, alloc: Global) -> Result<Listing<CircuitId>, AllocError>
        ensures { IfOk result (λ ids. ids ≡ bound_ids self.now.entries) }
    {
        all_bound(alloc, &self.map)
    }
}
