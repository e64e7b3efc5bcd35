//! Records of changes that build a cell.
ghost use Rattle.std.specs.{Prelude.{◌≡◌, ◌+◌, ◌≤◌, ◌<◌, IsTrue, IfOk, OnOk, length, [], false}, List.list_all};
ghost use Rattle.spl_wire.specs.{Changes.change_form, Grouping.{grouped, grouped_records, spelled}, Packing.{sealed, sealed_size, is_full, closed, placed}};
ghost use Rattle.spl_wire.specs.Packing.{packing_counted, taken, finished};

use crate::change::Change;
use crate::record::MOST_CHANGES;
use spl_base::{CircuitId, Field, LONGEST_RECORD, Piece, Writer};
use std::alloc::{AllocError, Global};
use std::marker::Model;

/// The bytes that memory is taken for before a cell is packed: most cells have fewer.
const ROOM: usize = 512;

/// The byte forms of the records of a packed cell, in order.
pub type PackedRecords = Vec<Piece>;

/// How many bytes the record has whose changes have these.
#[tactic(auto, using(crate::proofs::Sizes::id_length))]
fn sealed_size(circuit: CircuitId, changes: &[u8]) -> usize
    ensures { result ≡ sealed_size circuit changes.now }
{
    circuit.bytes().len() + 2 + changes.len()
}

/// The byte form of the record of so many changes, which have these bytes. The only error is that memory ran out.
fn sealed(
    alloc: Global,
    circuit: CircuitId,
    count: u16,
    changes: &[u8],
) -> Result<Piece, AllocError>
    ensures { IfOk result (λ p. p ≡ sealed circuit count changes.now) }
{
    let mut w = Writer::with_room(alloc, sealed_size(circuit, changes))?;
    circuit.put_parts(&mut w)?;
    count.put_parts(&mut w)?;
    w.put_raw(changes)?;
    Ok(w.into_piece())
}

/// Whether a record of so many changes has no place for one more, whose bytes stand after theirs already.
fn is_full(circuit: CircuitId, count: u16, changes: &[u8]) -> bool
    ensures { result ≡ is_full circuit count changes.now }
{
    count > 0 && !(count < MOST_CHANGES && sealed_size(circuit, changes) <= LONGEST_RECORD)
}

/// Byte forms of records so far, and of the record that is begun how many changes it has, and their bytes. Each change
/// is spelled once, right after those before it.
#[derive(Drop)]
struct Packing {
    circuit: CircuitId,
    records: PackedRecords,
    count: u16,
    written: Writer,
}

impl Model for Packing {
    ghost use Rattle.spl_wire.specs.Packing.{PackingView};

    ghost Value = { PackingView };

    ghost view = { λ p. record { circuit = p.circuit; records = p.records.items; count = p.count; written = p.written } };
}

impl Packing {
    /// No record, and none begun.
    fn new(alloc: Global, circuit: CircuitId) -> Result<Packing, AllocError>
        ensures { IfOk result (λ p. p ≡ record { circuit = circuit; records = []; count = 0; written = [] }) }
    {
        Ok(Packing {
            circuit,
            records: Vec::new(alloc),
            count: 0,
            written: Writer::with_room(alloc, ROOM)?,
        })
    }

    /// The record of the first bytes is the last one, and those after them begin one.
    fn close(&mut self, alloc: Global, start: usize) -> Result<(), AllocError>
        requires { start ≤ length self.old.written }
        ensures { OnOk result (self.new ≡ closed start self.old) }
    {
        let bytes = self.written.bytes();
        let rest = Piece::from(alloc, &bytes[start..])?;
        let record = sealed(alloc, self.circuit, self.count, &bytes[..start])?;
        self.records.push(record)?;
        self.count = 0;
        self.written.clear();
        self.written.put_raw(rest.bytes())
    }

    /// The bytes of a change that stand in the record that is begun, from `start` on, begin a record where they have
    /// no place in that one.
    fn place(&mut self, alloc: Global, start: usize) -> Result<(), AllocError>
        requires { start ≤ length self.old.written }
        ensures placed { OnOk result (self.new ≡ placed start self.old) }
        ensures few { OnOk result (self.new.count < MOST_CHANGES) }
    {
        if is_full(self.circuit, self.count, self.written.bytes()) {
            self.close(alloc, start)?;
        }
        Ok(())
    }

    /// One change more.
    fn take(&mut self, alloc: Global, change: &Change) -> Result<(), AllocError>
        requires { IsTrue (change_form.bounded change.now) }
        ensures ok { OnOk result (self.new ≡ taken self.old (change_form.spell change.now)) }
        ensures fits { OnOk result (IsTrue (change_form.fits change.now)) }
    {
        let start = self.written.bytes().len();
        change.put_parts(&mut self.written)?;
        self.place(alloc, start)?;
        self.count += 1;
        Ok(())
    }

    /// The record that is begun, if there is one, is the last one.
    fn end(&mut self, alloc: Global) -> Result<(), AllocError>
        ensures { OnOk result (self.new.records ≡ finished self.old) }
    {
        if self.count > 0 {
            let last = sealed(alloc, self.circuit, self.count, self.written.bytes())?;
            self.records.push(last)?;
        }
        Ok(())
    }

    /// The records, with the one that is begun.
    fn finish(self, alloc: Global) -> Result<PackedRecords, AllocError>
        ensures { IfOk result (λ rs. rs.items ≡ finished self) }
    {
        let mut packing = self;
        packing.end(alloc)?;
        Ok(packing.records)
    }
}

/// The byte forms of the records of changes of a circuit, in order. A new record begins where the next change would
/// make it too long. The only error is that memory ran out.
#[tactic(auto, using(crate::proofs::Packs::packed_none))]
pub fn packed_records(
    alloc: Global,
    circuit: CircuitId,
    changes: Vec<Change>,
) -> Result<PackedRecords, AllocError>
    requires { IsTrue (list_all change_form.bounded changes.items) }
    ensures ok { IfOk result (λ rs. rs.items ≡ spelled (grouped_records circuit (grouped circuit changes.items))) }
    ensures fits { OnOk result (IsTrue (list_all change_form.fits changes.items)) }
{
    let mut packing = Packing::new(alloc, circuit)?;
    for change in &changes {
        packing.take(alloc, change)?;
    }
    packing.finish(alloc)
}
