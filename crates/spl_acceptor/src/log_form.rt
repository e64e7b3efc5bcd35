//! The records of a process's journal.
ghost use Rattle.std.specs.Prelude.{IsTrue};
ghost use Rattle.spl_acceptor.specs.Forms.{paxos_record_form};

use crate::PaxosRecord;
use spl_base::Malformed;
use spl_journal::Form;
use std::alloc::{AllocError, Global};

/// The form of the records of a process: bytes are exactly one record, with nothing after it.
pub struct PaxosForm;

/// A record that was read. It has a byte form.
#[derive(Drop)]
pub struct FoundRecord {
    pub item: PaxosRecord,
    ghost written: { IsTrue (paxos_record_form.fits item) },
}

impl Form for PaxosForm {
    ghost use Rattle.spl_acceptor.specs.Logs.{is_paxos_record, paxos_record_bytes};

    ghost is_record = { is_paxos_record };

    type Read = FoundRecord;

    ghost bytes_of = { λ f. paxos_record_bytes f.item };

    fn read(alloc: Global, bytes: Vec<u8>) -> Result<Option<FoundRecord>, AllocError> {
        match PaxosRecord::read(alloc, &bytes) {
            Ok((item, size)) => {
                if size == bytes.len() {
                    Ok(Some(FoundRecord { item }))
                } else {
                    Ok(None)
                }
            }
            Err(Malformed::At { .. }) => Ok(None),
            Err(Malformed::NoMemory) => Err(AllocError),
        }
    }
}
