//! Laws of the spelling of lines. Each function's contract is a law, and its body is empty.
ghost use Rattle.std.specs.Prelude.{◌≡◌, ◌∷◌, [], List, ℕ, IsTrue, Some, None};
ghost use Rattle.spl_paxos.specs.{Lines.{paxos_spelling, is_paxos_line, paxos_line_of}, declared.line.PaxosLine.PaxosLine};

/// A line within its bounds is what its spelling says; what is read is within its bounds, and is spelled in no other way.
pub fn lines_are_read_back()
    ensures again { (l : PaxosLine) → IsTrue (is_paxos_line l) → paxos_line_of (paxos_spelling l) ≡ Some l }
    ensures only { (bytes : List ℕ) (l : PaxosLine) → paxos_line_of bytes ≡ Some l → (bytes ≡ paxos_spelling l) × IsTrue (is_paxos_line l) }
{}

/// An empty line, and one that begins with `#`, is no line.
pub fn silent_lines_are_no_lines()
    ensures empty { paxos_line_of [] ≡ None }
    ensures comment { (bytes : List ℕ) → paxos_line_of (35 ∷ bytes) ≡ None }
{}
