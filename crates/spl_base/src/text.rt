//! Texts that stand in the code.
ghost use Rattle.std.specs.{Prelude.◌≡◌, Str.bytes_eq};

/// Whether bytes are this text. It is inlined, so that a text that stands in the code costs a few tests, where `==` of slices
/// calls a search.
#[inline(always)]
pub fn is_text(bytes: &[u8], text: &[u8]) -> bool
    ensures { result ≡ bytes_eq bytes.now text.now }
{
    if bytes.len() != text.len() {
        return false;
    }
    for i in 0..bytes.len() {
        if bytes[i] != text[i] {
            return false;
        }
    }
    true
}
