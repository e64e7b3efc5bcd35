//! Laws of the spelling of lines. Each function's contract is a law, and its body is empty.
ghost use Rattle.std.specs.Prelude.{◌≡◌, ◌∷◌, [], List, ℕ, IsTrue, Some, None};
ghost use Rattle.spl_sched.specs.{Grammar.{spelling, is_line, line_of}, declared.line.Line.Line};

/// A line within its bounds is what its spelling says.
pub fn lines_are_read_back()
    ensures { (l : Line) → IsTrue (is_line l) → line_of (spelling l) ≡ Some l }
{}

/// What is read is within its bounds, and is spelled in no other way.
pub fn lines_have_one_spelling()
    ensures { (bytes : List ℕ) (l : Line) → line_of bytes ≡ Some l → (bytes ≡ spelling l) × IsTrue (is_line l) }
{}

/// No two lines share a spelling.
pub fn spellings_have_one_line()
    ensures { (l m : Line) → IsTrue (is_line l) → IsTrue (is_line m) → spelling l ≡ spelling m → l ≡ m }
{}

/// An empty line, and one that begins with `#`, is no line.
pub fn silent_lines_are_no_lines()
    ensures empty { line_of [] ≡ None }
    ensures comment { (bytes : List ℕ) → line_of (35 ∷ bytes) ≡ None }
{}
