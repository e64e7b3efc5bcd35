//! The records of a node's journal.
ghost use Rattle.std.specs.Prelude.{IsTrue};
ghost use Rattle.spl_wire.specs.Forms.{record_form};

use spl_base::Malformed;
use spl_journal::Form;
use spl_wire::Record;
use std::alloc::{AllocError, Global};

/// The form of the records of a node: bytes are exactly one record, with nothing after it.
pub struct CellForm;

/// A record that was read. It has a byte form.
#[derive(Drop)]
pub struct Found {
    pub item: Record,
    ghost written: { IsTrue (record_form.fits item) },
}

impl Form for CellForm {
    ghost use Rattle.spl_node.specs.Records.{is_record, record_bytes};

    ghost is_record = { is_record };

    type Read = Found;

    ghost bytes_of = { λ f. record_bytes f.item };

    fn read(alloc: Global, bytes: Vec<u8>) -> Result<Option<Found>, AllocError> {
        match Record::read(alloc, &bytes) {
            Ok((item, size)) => {
                if size == bytes.len() {
                    Ok(Some(Found { item }))
                } else {
                    Ok(None)
                }
            }
            Err(Malformed::At { .. }) => Ok(None),
            Err(Malformed::NoMemory) => Err(AllocError),
        }
    }
}
