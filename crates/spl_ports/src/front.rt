//! The first bytes of a vector.
ghost use Rattle.std.specs.Prelude.{◌≡◌, ◌≤◌, drop, length};

/// Drops so many of the first bytes.
pub(crate) fn drop_front(bytes: &mut Vec<u8>, count: usize)
    requires { count ≤ length bytes.old.items }
    ensures { bytes.new.items ≡ drop count bytes.old.items }
{
    let rest = bytes.len() - count;
    bytes.copy_within(count.., 0);
    bytes.truncate(rest);
}
