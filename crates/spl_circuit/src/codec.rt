//! The byte forms of definitions and acts.
ghost use Rattle.std.specs.Prelude.{◌≡◌, ◌++◌, ◌+◌, List, ℕ, length, Ok, None, IsTrue, OnOk, OnErr, IfOk};
ghost use Rattle.spl_base.specs.{Input.Input, Form.{Reads, IsReadBack}, Prefix.NoneBeginsAnother};
ghost use Rattle.spl_circuit.specs.{Forms.{definition, act}, Rules.broken, declared.{act.Act.Act as Deed, definition.Definition.Definition as Circuit}};
ghost use Rattle.sha2.specs.Sha256.{sha256};

use crate::act::Act;
use crate::definition::Definition;
use sha2::{Digest, Sha256};
use spl_base::{Field, Malformed, Reader, Writer, spelled};
use std::alloc::{AllocError, Global};

impl Definition {
    /// Appends the byte form, which a definition of at most 16 members and at most 16 services
    /// has. When memory runs out the writer is as it was.
    pub fn write(&self, alloc: Global, w: &mut Writer) -> Result<(), AllocError>
        requires few { IsTrue (definition.bounded self.now) }
        ensures ok { OnOk result (w.new ≡ w.old ++ definition.spell self.now) }
        ensures fits { OnOk result (IsTrue (definition.fits self.now)) }
        ensures unchanged { OnErr result (w.new ≡ w.old) }
    {
        self.put(alloc, w)
    }

    /// Reads a definition from the beginning, whether or not it keeps the rules. The fault is the
    /// place of the first field that cannot be read, or that memory ran out; the reader then stands
    /// where it stood.
    pub fn read(alloc: Global, r: &mut Reader) -> Result<Definition, Malformed>
        ensures read { Reads (λ x. x) result r.new (definition.parse r.old) }
        ensures unmoved { OnErr result (r.new ≡ r.old) }
    {
        Definition::take(alloc, r)
    }

    /// SHA-256 of the byte form.
    pub fn hash(&self, alloc: Global) -> Result<[u8; 32], AllocError>
        requires few { IsTrue (definition.bounded self.now) }
        ensures { IfOk result (λ h. h ≡ sha256 (definition.spell self.now)) }
    {
        let form = spelled(alloc, self)?;
        let mut hasher = Sha256::new();
        hasher.update(form.bytes());
        Ok(hasher.finalize())
    }
}

impl Act {
    /// Appends the byte form, which an act has where the definition that it proposes has one.
    /// When memory runs out the writer is as it was.
    pub fn write(&self, alloc: Global, w: &mut Writer) -> Result<(), AllocError>
        requires few { IsTrue (act.bounded self.now) }
        ensures ok { OnOk result (w.new ≡ w.old ++ act.spell self.now) }
        ensures fits { OnOk result (IsTrue (act.fits self.now)) }
        ensures unchanged { OnErr result (w.new ≡ w.old) }
    {
        self.put(alloc, w)
    }

    /// Reads an act from the beginning. The fault is the place of the first field that cannot be
    /// read, or that memory ran out; the reader then stands where it stood.
    pub fn read(alloc: Global, r: &mut Reader) -> Result<Act, Malformed>
        ensures read { Reads (λ x. x) result r.new (act.parse r.old) }
        ensures unmoved { OnErr result (r.new ≡ r.old) }
    {
        Act::take(alloc, r)
    }
}

/// A definition that breaks no rule has a byte form.
#[tactic(auto, using(crate::proofs::Valid::bounded_from_valid))]
pub fn valid_definitions_have_a_form()
    ensures { (d : Circuit) → broken d ≡ None → IsTrue (definition.bounded d) }
{}

/// What is spelled is read back, whatever follows it.
pub fn definitions_are_read_back()
    ensures { (d : Circuit) (rest : List ℕ) (place : ℕ) → IsReadBack definition d rest place }
{}

/// No spelling of a definition begins another.
pub fn no_definition_begins_another()
    ensures { NoneBeginsAnother definition }
{}

/// What is spelled is read back, whatever follows it.
pub fn acts_are_read_back()
    ensures { (a : Deed) (rest : List ℕ) (place : ℕ) → IsReadBack act a rest place }
{}

/// No spelling of an act begins another.
pub fn no_act_begins_another()
    ensures { NoneBeginsAnother act }
{}
