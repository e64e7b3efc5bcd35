//! The byte form of proofs.
ghost use Rattle.std.specs.{Prelude.{◌≡◌, ◌≤◌, ◌++◌, ℕ, List, length, nat_le, Ok, IsTrue, IfOk, OnOk}, List.list_all};
ghost use Rattle.spl_state.specs.{Entries.Entry, declared.address.Address.Address as At};
ghost use Rattle.spl_base.specs.{Form.{Reads, IsBytes, items_at}, Prefix.{Answers, NoneBeginsAnother}};
ghost use Rattle.spl_proof.specs.{Forms.{digest, level, leaf, proof, whole_of}, Made.proof as made, declared.proof.Proof.Proof as Shown};
ghost use Rattle.spl_proof.specs.declared.proof.TheConstants.{LONGEST_VALUE as MOST_BYTES};

use crate::proof::{End, LONGEST_VALUE, Level, Levels, MOST_LEVELS, Proof};
use spl_base::{Field, Malformed, Piece, Reader, Writer, spelled};
use spl_state::Address;
use std::alloc::{AllocError, Global};

/// Appends the digests of a level.
pub(crate) fn put_level(x: &Level, w: &mut Writer) -> Result<(), AllocError>
    ensures ok { OnOk result (w.new ≡ w.old ++ level.spell x.now) }
    ensures fits { OnOk result (IsTrue (level.fits x.now)) }
{
    for digest in x {
        w.put_raw(digest)?;
    }
    Ok(())
}

/// Reads a digest from the beginning.
fn take_digest(r: &mut Reader) -> Result<[u8; 32], Malformed>
    ensures { Reads (λ x. x) result r.new (digest.parse r.old) }
{
    let bytes = r.take_raw(32)?;
    let mut cells = [0; 32];
    cells.copy_from_slice(bytes);
    Ok(cells)
}

/// Reads the digests of a level from the beginning.
fn take_level(r: &mut Reader) -> Result<Level, Malformed>
    ensures { Reads (λ x. x) result r.new (level.parse r.old) }
{
    let mut x = [[0; 32]; 16];
    for i in 0..16 {
        x[i] = take_digest(r)?;
    }
    Ok(x)
}

/// Reads so many levels from the beginning.
fn take_levels(alloc: Global, r: &mut Reader, count: u8) -> Result<Levels, Malformed>
    requires { count ≤ 70 }
    ensures { Reads (λ x. x) result r.new (items_at level.parse count r.old) }
{
    let mut levels = Levels::new(alloc);
    for _ in 0..count {
        let x = take_level(r)?;
        levels.push(x)?;
    }
    Ok(levels)
}

/// Reads an address and a value from the beginning.
fn take_leaf(alloc: Global, r: &mut Reader) -> Result<(Address, Piece), Malformed>
    ensures { Reads (λ x. x) result r.new (leaf.parse r.old) }
{
    let bytes = r.take_raw(35)?;
    let mut cells = [0; 35];
    cells.copy_from_slice(bytes);
    let value = r.take_text(LONGEST_VALUE)?;
    Ok((Address(cells), Piece::from(alloc, value)?))
}

impl Field for Levels {
    ghost use Rattle.spl_proof.specs.{Forms.levels, FormLaws.exact_levels};

    ghost form = { levels };

    fn put_parts(&self, w: &mut Writer) -> Result<(), AllocError> {
        let levels = self.as_slice();
        (levels.len() as u8).put_parts(w)?;
        for x in levels {
            put_level(x, w)?;
        }
        Ok(())
    }

    fn take_parts(alloc: Global, r: &mut Reader) -> Result<Levels, Malformed> {
        let at = r.place();
        let count = u8::take_parts(alloc, r)?;
        if MOST_LEVELS < count as usize {
            return Err(Malformed::At { at });
        }
        take_levels(alloc, r, count)
    }

    ghost exact = { exact_levels };
}

impl Field for End {
    ghost use Rattle.spl_proof.specs.{Forms.end, FormLaws.exact_end};

    ghost form = { end };

    #[tactic(auto, unfolding(spl_base::specs::Form::number_bytes))]
    fn put_parts(&self, w: &mut Writer) -> Result<(), AllocError> {
        match self {
            End::Empty => 0u8.put_parts(w),
            End::Leaf(address, value) => {
                1u8.put_parts(w)?;
                w.put_raw(&address.0)?;
                w.put_text(value.bytes())
            }
        }
    }

    fn take_parts(alloc: Global, r: &mut Reader) -> Result<End, Malformed> {
        let at = r.place();
        match u8::take_parts(alloc, r)? {
            0 => Ok(End::Empty),
            1 => {
                let (address, value) = take_leaf(alloc, r)?;
                Ok(End::Leaf(address, value))
            }
            _ => Err(Malformed::At { at }),
        }
    }

    ghost exact = { exact_end };
}

impl Field for Proof {
    ghost use Rattle.spl_proof.specs.{Forms.proof, FormLaws.exact_proof};

    ghost form = { proof };

    fn put_parts(&self, w: &mut Writer) -> Result<(), AllocError> {
        self.levels.put_parts(w)?;
        self.end.put_parts(w)
    }

    fn take_parts(alloc: Global, r: &mut Reader) -> Result<Proof, Malformed> {
        let levels = Levels::take_parts(alloc, r)?;
        let end = End::take_parts(alloc, r)?;
        Ok(Proof { levels, end })
    }

    ghost exact = { exact_proof };
}

impl Proof {
    /// The byte form, which a proof has where the value of its entry has at most 8,192 bytes. An
    /// error comes only when memory runs out.
    pub fn write(&self, alloc: Global) -> Result<Piece, AllocError>
        requires { IsTrue (proof.bounded self.now) }
        ensures spelled { IfOk result (λ p. p ≡ proof.spell self.now) }
        ensures fits { OnOk result (IsTrue (proof.fits self.now)) }
    {
        spelled(alloc, self)
    }

    /// Reads a proof, which is all of the bytes. The fault is the place of the first field that
    /// cannot be read, or the end of the proof where bytes follow it, or that memory ran out.
    pub fn read(alloc: Global, bytes: &[u8]) -> Result<Proof, Malformed>
        ensures { Answers result (whole_of proof bytes.now) }
    {
        let mut r = Reader::new(bytes);
        let found = Proof::take_parts(alloc, &mut r)?;
        if r.left() > 0 {
            return Err(Malformed::At { at: r.place() });
        }
        Ok(found)
    }
}

/// What is spelled is read back, and what is read is spelled so.
pub fn proofs_are_read_back()
    ensures again { (p : Shown) → IsTrue (proof.fits p) → whole_of proof (proof.spell p) ≡ Ok p }
    ensures only { (p : Shown) (bytes : List ℕ) → IsBytes bytes → whole_of proof bytes ≡ Ok p → (bytes ≡ proof.spell p) × IsTrue (proof.fits p) }
{}

/// The proofs of a state have a byte form, where its values have at most `LONGEST_VALUE` bytes.
pub fn proofs_of_short_values_have_a_form()
    ensures { (m : List Entry) (a : At) → IsTrue (list_all (λ e. nat_le (length e.1) MOST_BYTES) m) → IsTrue (proof.bounded (made m a)) }
{}

/// No spelling of a proof begins another.
pub fn no_proof_begins_another()
    ensures { NoneBeginsAnother proof }
{}
