//! How an address stands in a byte form.
ghost use Rattle.std.specs.Prelude.{◌≡◌, ◌++◌, IsTrue, OnOk};
ghost use Rattle.spl_base.specs.Form.{Reads};
ghost use Rattle.spl_command.specs.Forms.{address};

use spl_base::{Malformed, Reader, Writer};
use spl_state::Address;
use std::alloc::AllocError;

/// Appends the bytes of an address.
pub(crate) fn put_address(a: &Address, w: &mut Writer) -> Result<(), AllocError>
    ensures ok { OnOk result (w.new ≡ w.old ++ address.spell a.now) }
    ensures fits { OnOk result (IsTrue (address.fits a.now)) }
{
    w.put_raw(&a.0)
}

/// Reads the bytes of an address from the beginning.
pub(crate) fn take_address(r: &mut Reader) -> Result<Address, Malformed>
    ensures { Reads (λ x. x) result r.new (address.parse r.old) }
{
    let bytes = r.take_raw(35)?;
    let mut cells = [0; 35];
    cells.copy_from_slice(bytes);
    Ok(Address(cells))
}
