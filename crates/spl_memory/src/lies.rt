//! Bytes that change by themselves.
ghost use Rattle.std.specs.Prelude.{◌≡◌, length};

/// With the call of this number, counted from 1, the byte at this offset becomes this one.
#[derive(Clone, Copy, PartialEq, Eq)]
pub struct Lie {
    pub call: u64,
    pub offset: usize,
    pub byte: u8,
}

/// Changes the bytes that lies have for this call.
pub(crate) fn tell(bytes: &mut [u8], lies: &[Lie], call: u64)
    ensures { length bytes.new ≡ length bytes.old }
{
    for lie in lies {
        if lie.call == call && lie.offset < bytes.len() {
            bytes[lie.offset] = lie.byte;
        }
    }
}
