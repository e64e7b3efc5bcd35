//! The lines of a text, and how long one may be.
ghost use Rattle.std.specs.Prelude.{◌≡◌};
ghost use Rattle.spl_lines.specs.Lines.{is_silent, longest_line};

use spl_base::LONGEST_LINE;

/// The most bytes that a line may have which checks a proof: enough for every proof of a state.
pub const LONGEST_CHECK: usize = 98_304;

/// The most bytes that a line may have which begins like this one.
pub fn longest_line(line: &[u8]) -> usize
    ensures { result ≡ longest_line line.now }
{
    if line.starts_with(b"check ") {
        return LONGEST_CHECK;
    }
    LONGEST_LINE
}

/// Whether the line is empty or a comment.
pub fn is_silent(line: &[u8]) -> bool
    ensures { result ≡ is_silent line.now }
{
    match line {
        [] => true,
        [b, ..] => *b == b'#',
    }
}
