//! Records of a journal.
ghost use Rattle.std.specs.Prelude.{◌≡◌};

use crate::change::Change;
use spl_base::{
    CircuitId, Field, Listing, Malformed, Piece, Reader, Writer, put_list, read_prefix, spelled,
    take_list,
};
use std::alloc::{AllocError, Global};

/// How many changes a record has at most.
pub const MOST_CHANGES: u16 = 64;

/// Changes in their order.
pub type ChangeList = Listing<Change>;

/// The changes of one event at the cell of a circuit.
#[derive(Drop)]
pub struct Record {
    pub circuit: CircuitId,
    pub changes: ChangeList,
}

impl Field for Record {
    ghost use Rattle.spl_wire.specs.Forms.{record_form, exact_record};

    ghost form = { record_form };

    fn put_parts(&self, w: &mut Writer) -> Result<(), AllocError> {
        self.circuit.put_parts(w)?;
        put_list(self.changes.as_slice(), w)
    }

    fn take_parts(alloc: Global, r: &mut Reader) -> Result<Record, Malformed> {
        let circuit = CircuitId::take_parts(alloc, r)?;
        let changes = take_list(alloc, r, MOST_CHANGES)?;
        Ok(Record { circuit, changes })
    }

    ghost exact = { exact_record };
}

impl Record {
    ghost use Rattle.std.specs.Prelude.{◌≡◌, ◌++◌, IsTrue, IfOk, OnOk, drop};
    ghost use Rattle.spl_base.specs.Prefix.{prefix_of, Answers, ReadsBack};
    ghost use Rattle.spl_wire.specs.Forms.{record_form};

    /// The byte form, which a record of at most `MOST_CHANGES` changes has where each definition in it has at
    /// most 16 members and at most 16 services, and each batch in it has lists of at most 1,024
    /// items and byte strings of at most 8,192 bytes. Fails only where memory runs out.
    pub fn write(&self, alloc: Global) -> Result<Piece, AllocError>
        requires few { IsTrue (record_form.bounded self.now) }
        ensures spelled { IfOk result (λ p. p ≡ record_form.spell self.now) }
        ensures fits { OnOk result (IsTrue (record_form.fits self.now)) }
    {
        spelled(alloc, self)
    }

    /// The record at the beginning, and how many bytes it takes. The fault is the place of the first
    /// field that cannot be read, or that memory ran out.
    pub fn read(alloc: Global, bytes: &[u8]) -> Result<(Record, usize), Malformed>
        ensures exact { Answers result (prefix_of record_form bytes.now) }
        ensures found { IfOk result (λ x. (bytes.now ≡ record_form.spell x.0 ++ drop x.1 bytes.now) × IsTrue (record_form.fits x.0)) }
        ensures bounded { IfOk result (λ x. IsTrue (record_form.bounded x.0)) }
        ensures only { ReadsBack record_form bytes.now result }
    {
        read_prefix(alloc, bytes)
    }
}
