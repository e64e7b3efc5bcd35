//! Values with a form in bytes.
ghost use Rattle.std.specs.{Prelude.{◌≡◌, ◌≤◌, ◌++◌, length, drop, IsTrue, IfOk, OnOk, OnErr, Ok, List, ℕ}, List.{flat_map, list_all}, Int.w16};
ghost use Rattle.spl_base.specs.{Prefix.{prefix_of, Answers, ReadsBack}, Form.{Form, IsExact, Reads, number_bytes, list_of, items_at}};

use crate::fault::Malformed;
use crate::listing::Listing;
use crate::piece::Piece;
use crate::reader::Reader;
use crate::writer::Writer;
use std::alloc::{AllocError, Global};

/// A value that has one spelling in bytes (docs/RULES.md, Byte forms). An implementer writes `put_parts` and
/// `take_parts`, which call those of its fields; whoever writes or reads a whole value calls `put` and `take`.
pub trait Field: Drop {
    ghost form: { Form Self };

    /// Appends the spelling. The only error is that memory ran out; a part may then stand in the writer.
    fn put_parts(&self, w: &mut Writer) -> Result<(), AllocError>
        requires { IsTrue (form.bounded self.now) }
        ensures ok { OnOk result (w.new ≡ w.old ++ form.spell self.now) }
        ensures fits { OnOk result (IsTrue (form.fits self.now)) };

    /// Reads a value from the beginning. The fault is the place of the first field that cannot be read, or that memory ran out;
    /// the reader may then stand after some of the fields.
    fn take_parts(alloc: Global, r: &mut Reader) -> Result<Self, Malformed>
        ensures { Reads (λ x. x) result r.new (form.parse r.old) };

    /// Appends the spelling. The only error is that memory ran out; the writer is then as it was.
    final fn put(&self, alloc: Global, w: &mut Writer) -> Result<(), AllocError>
        requires { IsTrue (form.bounded self.now) }
        ensures ok { OnOk result (w.new ≡ w.old ++ form.spell self.now) }
        ensures fits { OnOk result (IsTrue (form.fits self.now)) }
        ensures unchanged { OnErr result (w.new ≡ w.old) }
    {
        let bytes = spelled(alloc, self)?;
        w.put_raw(bytes.bytes())
    }

    /// Reads a value from the beginning. The fault is the place of the first field that cannot be read, or that memory ran out;
    /// the reader then stands where it stood.
    final fn take(alloc: Global, r: &mut Reader) -> Result<Self, Malformed>
        ensures read { Reads (λ x. x) result r.new (form.parse r.old) }
        ensures unmoved { OnErr result (r.new ≡ r.old) }
    {
        let start = r.fork();
        let found = Self::take_parts(alloc, r);
        if found.is_err() {
            *r = start;
        }
        found
    }

    ghost exact: { IsExact form };
}

/// Appends a count and the items, as `put_parts` does.
pub fn put_list<T: Field>(items: &[T], w: &mut Writer) -> Result<(), AllocError>
    requires few { length items.now ≤ 65535 }
    requires bounded { IsTrue (list_all T.form.bounded items.now) }
    ensures ok { OnOk result (w.new ≡ w.old ++ (number_bytes w16 (length items.now) ++ flat_map T.form.spell items.now)) }
    ensures fits { OnOk result (IsTrue (list_all T.form.fits items.now)) }
{
    (items.len() as u16).put_parts(w)?;
    for x in items {
        x.put_parts(w)?;
    }
    Ok(())
}

fn take_items<T: Field>(alloc: Global, r: &mut Reader, count: u16) -> Result<Listing<T>, Malformed>
    ensures { Reads (λ x. x) result r.new (items_at T.form.parse count r.old) }
{
    let mut items = Listing::with_room(alloc, r.left().min(usize::from(count)))?;
    for _ in 0..count {
        let x = T::take_parts(alloc, r)?;
        items.push(x)?;
    }
    Ok(items)
}

/// Reads a count of at most so many, and the items, as `take_parts` does.
pub fn take_list<T: Field>(
    alloc: Global,
    r: &mut Reader,
    most: u16,
) -> Result<Listing<T>, Malformed>
    ensures { Reads (λ x. x) result r.new ((list_of most T.form).parse r.old) }
{
    let at = r.place();
    let count = u16::take_parts(alloc, r)?;
    if most < count {
        return Err(Malformed::At { at });
    }
    take_items(alloc, r, count)
}

impl Field for u8 {
    ghost use Rattle.std.specs.{Prelude.◌^◌, Int.w8};
    ghost use Rattle.spl_base.specs.{Form.number, FormLaws.{wide8, exact_number}};

    ghost form = { number w8 (2 ^ 8) };

    #[tactic(auto, unfolding(crate::specs::Form::number_bytes))]
    fn put_parts(&self, w: &mut Writer) -> Result<(), AllocError> {
        w.put_u8(*self)
    }

    fn take_parts(_alloc: Global, r: &mut Reader) -> Result<u8, Malformed> {
        Ok(r.take_u8()?)
    }

    ghost exact = { exact_number w8 (2 ^ 8) wide8 };
}

impl Field for u16 {
    ghost use Rattle.std.specs.{Prelude.◌^◌, Int.w16};
    ghost use Rattle.spl_base.specs.{Form.number, FormLaws.{wide16, exact_number}};

    ghost form = { number w16 (2 ^ 16) };

    #[tactic(auto, unfolding(crate::specs::Form::number_bytes))]
    fn put_parts(&self, w: &mut Writer) -> Result<(), AllocError> {
        w.put_u16(*self)
    }

    fn take_parts(_alloc: Global, r: &mut Reader) -> Result<u16, Malformed> {
        Ok(r.take_u16()?)
    }

    ghost exact = { exact_number w16 (2 ^ 16) wide16 };
}

impl Field for u32 {
    ghost use Rattle.std.specs.{Prelude.◌^◌, Int.w32};
    ghost use Rattle.spl_base.specs.{Form.number, FormLaws.{wide32, exact_number}};

    ghost form = { number w32 (2 ^ 32) };

    #[tactic(auto, unfolding(crate::specs::Form::number_bytes))]
    fn put_parts(&self, w: &mut Writer) -> Result<(), AllocError> {
        w.put_u32(*self)
    }

    fn take_parts(_alloc: Global, r: &mut Reader) -> Result<u32, Malformed> {
        Ok(r.take_u32()?)
    }

    ghost exact = { exact_number w32 (2 ^ 32) wide32 };
}

impl Field for u64 {
    ghost use Rattle.std.specs.{Prelude.◌^◌, Int.w64};
    ghost use Rattle.spl_base.specs.{Form.number, FormLaws.{wide64, exact_number}};

    ghost form = { number w64 (2 ^ 64) };

    #[tactic(auto, unfolding(crate::specs::Form::number_bytes))]
    fn put_parts(&self, w: &mut Writer) -> Result<(), AllocError> {
        w.put_u64(*self)
    }

    fn take_parts(_alloc: Global, r: &mut Reader) -> Result<u64, Malformed> {
        Ok(r.take_u64()?)
    }

    ghost exact = { exact_number w64 (2 ^ 64) wide64 };
}

impl Field for bool {
    ghost use Rattle.spl_base.specs.{Form.flag, FormLaws.exact_flag};

    ghost form = { flag };

    fn put_parts(&self, w: &mut Writer) -> Result<(), AllocError> {
        if *self {
            1u8.put_parts(w)
        } else {
            0u8.put_parts(w)
        }
    }

    fn take_parts(alloc: Global, r: &mut Reader) -> Result<bool, Malformed> {
        let at = r.place();
        match u8::take_parts(alloc, r)? {
            0 => Ok(false),
            1 => Ok(true),
            _ => Err(Malformed::At { at }),
        }
    }

    ghost exact = { exact_flag };
}

/// Reads a value from the beginning, and how many bytes it takes.
pub fn read_prefix<T: Field>(alloc: Global, bytes: &[u8]) -> Result<(T, usize), Malformed>
    // Where the first unreadable field begins.
    ensures exact { Answers result (prefix_of T.form bytes.now) }
    // What is read is spelled so.
    ensures found { IfOk result (λ x. (bytes.now ≡ T.form.spell x.0 ++ drop x.1 bytes.now) × IsTrue (T.form.fits x.0)) }
    // What is read can be written.
    ensures bounded { IfOk result (λ x. IsTrue (T.form.bounded x.0)) }
    // What is spelled so is read, whatever follows it, unless memory runs out.
    ensures only { ReadsBack T.form bytes.now result }
{
    let mut r = Reader::new(bytes);
    let x = T::take_parts(alloc, &mut r)?;
    Ok((x, r.place()))
}

/// The bytes that memory is taken for before a value is spelled: most messages and records are shorter.
const USUAL: usize = 512;

/// The spelling of a value. The only error is that memory ran out.
pub fn spelled<T: Field>(alloc: Global, x: &T) -> Result<Piece, AllocError>
    requires { IsTrue (T.form.bounded x.now) }
    ensures spelled { IfOk result (λ p. p ≡ T.form.spell x.now) }
    ensures fits { OnOk result (IsTrue (T.form.fits x.now)) }
{
    let mut w = Writer::with_room(alloc, USUAL)?;
    x.put_parts(&mut w)?;
    Ok(w.into_piece())
}
