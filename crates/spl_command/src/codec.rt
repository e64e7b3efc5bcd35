//! The byte form of batches.
ghost use Rattle.std.specs.Prelude.{◌≡◌, ◌++◌, ◌+◌, List, ℕ, length, Ok, IsTrue, OnOk, OnErr};
ghost use Rattle.spl_base.specs.{Input.Input, Form.{Reads, IsReadBack}, Prefix.NoneBeginsAnother};
ghost use Rattle.spl_command.specs.{Forms.batch, declared.batch.Batch.Batch as Group};

use crate::batch::Batch;
use spl_base::{Field, Malformed, Reader, Writer};
use std::alloc::{AllocError, Global};

impl Batch {
    /// Appends the byte form, which a batch has where its lists have at most 1,024 items and its
    /// byte strings at most 8,192 bytes. When memory runs out the writer is as it was.
    pub fn write(&self, alloc: Global, w: &mut Writer) -> Result<(), AllocError>
        requires few { IsTrue (batch.bounded self.now) }
        ensures ok { OnOk result (w.new ≡ w.old ++ batch.spell self.now) }
        ensures fits { OnOk result (IsTrue (batch.fits self.now)) }
        ensures unchanged { OnErr result (w.new ≡ w.old) }
    {
        self.put(alloc, w)
    }

    /// Reads a batch from the beginning, whether or not it keeps the rules. The fault is the place
    /// of the first field that cannot be read, or that memory ran out; the reader then stands where it
    /// stood.
    pub fn read(alloc: Global, r: &mut Reader) -> Result<Batch, Malformed>
        ensures read { Reads (λ x. x) result r.new (batch.parse r.old) }
        ensures unmoved { OnErr result (r.new ≡ r.old) }
    {
        Batch::take(alloc, r)
    }
}

/// What is spelled is read back, whatever follows it.
pub fn batches_are_read_back()
    ensures { (b : Group) (rest : List ℕ) (place : ℕ) → IsReadBack batch b rest place }
{}

/// No spelling of a batch begins another.
pub fn no_batch_begins_another()
    ensures { NoneBeginsAnother batch }
{}
