//! Values on the heap, shared by their copies.
ghost use Rattle.std.specs.Prelude.{◌≡◌, IfOk};

use crate::fault::Malformed;
use crate::field::Field;
use crate::reader::Reader;
use crate::value::Value;
use crate::writer::Writer;
use std::alloc::{AllocError, Global};
use std::marker::Model;
use std::rc::Rc;

/// A value on the heap, so that what holds it stays small. Copies share it: a copy costs a count.
/// Contracts see the value.
#[derive(Drop)]
pub struct Boxed<T> {
    inner: Rc<T>,
}

impl<T> Model for Boxed<T> {
    ghost Value = { T };

    ghost view = { λ b. b.inner.value };
}

impl<T> Boxed<T> {
    /// The value, moved to the heap. The only error is that memory ran out.
    #[inline(always)]
    pub fn new(alloc: Global, x: T) -> Result<Boxed<T>, AllocError>
    where
        T: Drop,
        ensures { IfOk result (λ b. b ≡ x) }
    {
        Ok(Boxed {
            inner: Rc::new(alloc, x)?,
        })
    }

    /// The value.
    pub fn get(&self) -> &T
        ensures { result.now ≡ self.now }
    {
        &self.inner
    }

    /// The same value, shared. The only error is that memory ran out.
    pub fn share(&self) -> Result<Boxed<T>, AllocError>
    where
        T: Drop,
        ensures { IfOk result (λ b. b ≡ self.now) }
    {
        Ok(Boxed {
            inner: self.inner.clone()?,
        })
    }
}

impl<T: Field> Field for Boxed<T> {
    ghost form = { T.form };

    fn put_parts(&self, w: &mut Writer) -> Result<(), AllocError> {
        self.get().put_parts(w)
    }

    fn take_parts(alloc: Global, r: &mut Reader) -> Result<Boxed<T>, Malformed> {
        let x = T::take_parts(alloc, r)?;
        Ok(Boxed::new(alloc, x)?)
    }

    ghost exact = { T.exact };
}

impl<T: Value> Value for Boxed<T> {
    fn same(&self, other: &Boxed<T>) -> bool {
        self.get().same(other.get())
    }

    fn copy(&self, _alloc: Global) -> Result<Boxed<T>, AllocError> {
        self.share()
    }
}
