//! Taking fields from the beginning of bytes.
ghost use Rattle.std.specs.{Prelude.{◌≡◌, ◌≤◌, ◌<◌, ◌+◌, ◌^◌, length, IfOk}, Int.{w8, w16, w32, w64}};
ghost use Rattle.spl_base.specs.Input.{Input, number_at, raw_at, text_at, Takes};

use crate::fault::FieldFault;
use std::marker::Model;

/// Takes fields from the beginning of bytes. A call that fails leaves the reader where it stood: `Short` exactly where
/// too few bytes remain for the field, `TooLong` exactly where a length is above its bound (docs/RULES.md, Byte forms).
#[derive(Drop)]
pub struct Reader<'a> {
    rest: &'a [u8],
    place: usize,
}

impl<'a> Model for Reader<'a> {
    ghost use Rattle.std.specs.Prelude.{◌<◌, ◌+◌, ◌^◌, length};
    ghost use Rattle.spl_base.specs.Input.{Input};

    ghost Value = { Input };

    ghost view = { λ a. record { rest = a.rest.now; place = a.place } };

    ghost invariant = { λ a. a.place + length a.rest.now < 2 ^ 64 };
}

impl<'a> Reader<'a> {
    /// A reader before the first byte.
    pub fn new(bytes: &'a [u8]) -> Reader<'a>
        ensures { result ≡ record { rest = bytes.now; place = 0 } }
    {
        Reader {
            rest: bytes,
            place: 0,
        }
    }

    /// How many bytes were taken.
    pub fn place(&self) -> usize
        ensures { result ≡ self.now.place }
    {
        self.place
    }

    /// How many bytes are left.
    pub fn left(&self) -> usize
        ensures { result ≡ length self.now.rest }
    {
        self.rest.len()
    }

    // A second reader that stands here.
    pub(crate) fn fork(&self) -> Reader<'a>
        ensures { result ≡ self.now }
    {
        Reader {
            rest: self.rest,
            place: self.place,
        }
    }

    /// Takes n bytes.
    pub fn take_raw(&mut self, n: usize) -> Result<&'a [u8], FieldFault>
        ensures taken { Takes (λ x. x.now) result self.old self.new (raw_at n self.old) }
        ensures len { IfOk result (λ x. length x.now ≡ n) }
    {
        if self.rest.len() < n {
            return Err(FieldFault::Short { at: self.place });
        }
        let (prefix, rest) = self.rest.split_at(n);
        self.rest = rest;
        self.place += n;
        Ok(prefix)
    }

    /// Takes a number of one byte, the highest byte first.
    pub fn take_u8(&mut self) -> Result<u8, FieldFault>
        ensures { Takes (λ x. x) result self.old self.new (number_at w8 self.old) }
    {
        let prefix = self.take_raw(1)?;
        Ok(prefix[0])
    }

    /// Takes a number of two bytes, the highest byte first.
    pub fn take_u16(&mut self) -> Result<u16, FieldFault>
        ensures { Takes (λ x. x) result self.old self.new (number_at w16 self.old) }
    {
        let prefix = self.take_raw(2)?;
        Ok(u16::from_be_bytes([prefix[0], prefix[1]]))
    }

    /// Takes a number of four bytes, the highest byte first.
    pub fn take_u32(&mut self) -> Result<u32, FieldFault>
        ensures { Takes (λ x. x) result self.old self.new (number_at w32 self.old) }
    {
        let prefix = self.take_raw(4)?;
        Ok(u32::from_be_bytes([prefix[0], prefix[1], prefix[2], prefix[3]]))
    }

    /// Takes a number of eight bytes, the highest byte first.
    pub fn take_u64(&mut self) -> Result<u64, FieldFault>
        ensures { Takes (λ x. x) result self.old self.new (number_at w64 self.old) }
    {
        let prefix = self.take_raw(8)?;
        Ok(u64::from_be_bytes([
            prefix[0], prefix[1], prefix[2], prefix[3], prefix[4], prefix[5], prefix[6], prefix[7],
        ]))
    }

    /// Takes a text of at most so many bytes.
    pub fn take_text(&mut self, most: u16) -> Result<&'a [u8], FieldFault>
        ensures { Takes (λ x. x.now) result self.old self.new (text_at most self.old) }
    {
        let at = self.place;
        if self.rest.len() < 2 {
            return Err(FieldFault::Short { at });
        }
        let (prefix, rest) = self.rest.split_at(2);
        let n = u16::from_be_bytes([prefix[0], prefix[1]]);
        if most < n {
            return Err(FieldFault::TooLong { at });
        }
        let n = n as usize;
        if rest.len() < n {
            return Err(FieldFault::Short { at });
        }
        let (text, rest) = rest.split_at(n);
        self.rest = rest;
        self.place = self.place + 2 + n;
        Ok(text)
    }
}
