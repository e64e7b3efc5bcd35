//! Laws of generated schedules. Each function's contract is a law, and its body does nothing.
ghost use Rattle.std.specs.{Prelude.{◌≡◌, ℕ, ◌+◌, ◌*◌, ◌/◌, ◌^◌, ◌<◌, IsTrue, Some, nat_le, length, map}, List.list_all};
ghost use Rattle.spl_base.specs.declared.limit.TheConstants.{LONGEST_LINE};
ghost use Rattle.spl_circuit.specs.Nodes.{has_node};
ghost use Rattle.spl_sched.specs.Grammar.{is_line, line_of, line_nodes, spelling};
ghost use Rattle.spl_gen.specs.{Circuits.nodes, Generated.{generated, lacks_feed}};

use spl_sched::lines_are_read_back;

/// Each line is within its bounds, so it is what its spelling says; it names no other node than n1
/// to n4.
pub fn generated_lines_are_lines()
    ensures bounds { (n seed : ℕ) → n < 2 ^ 64 → IsTrue (list_all is_line (generated n seed)) }
    ensures read_back { (n seed : ℕ) → n < 2 ^ 64 → map (λ l. line_of (spelling l)) (generated n seed) ≡ map Some (generated n seed) }
    ensures nodes { (n seed : ℕ) → IsTrue (list_all (λ l. list_all (has_node nodes) (line_nodes l)) (generated n seed)) }
{
    lines_are_read_back();
}

/// No line has a line feed, so each ends at its own, and each has at most `LONGEST_LINE` bytes.
pub fn generated_lines_are_spelled()
    ensures lacking { (n seed : ℕ) → n < 2 ^ 64 → IsTrue (list_all (λ l. lacks_feed (spelling l)) (generated n seed)) }
    ensures short { (n seed : ℕ) → n < 2 ^ 64 → IsTrue (list_all (λ l. nat_le (length (spelling l)) LONGEST_LINE) (generated n seed)) }
{}

/// There are 27 lines, two for each batch, and two for each fifty of them.
pub fn generated_lines_are_counted()
    ensures { (n seed : ℕ) → length (generated n seed) ≡ 27 + 2 * n + 2 * (n / 50) }
{}
