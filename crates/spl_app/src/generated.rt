//! The texts of generated schedules. The function's contract is a law, and its body does nothing.
ghost use Rattle.std.specs.{Prelude.{◌≡◌, ◌+◌, ◌*◌, ◌/◌, ◌≤◌, ◌<◌, ◌^◌, ℕ, [], length, map}, List.AllByRecursion};
ghost use Rattle.spl_sched.specs.Grammar.{spelling};
ghost use Rattle.spl_gen.specs.{Circuits.nodes, Generated.{generated, generated_text}, declared.generate.TheConstants.MOST_BATCHES};
ghost use Rattle.spl_lines.specs.{Lines.{lines_of, rest_of}, Tasks.IsLine};
ghost use Rattle.spl_edge.specs.Sources.{limit};

use spl_gen::{
    generated_lines_are_counted, generated_lines_are_lines, generated_lines_are_spelled,
};

/// The lines of a generated text are the lines that it was made of, and nothing stands after the
/// last. A schedule over its nodes may have each of its lines, and has room for them.
pub fn generated_texts_are_lines()
    ensures lines { (n seed : ℕ) → n < 2 ^ 64 → lines_of (generated_text n seed) ≡ map spelling (generated n seed) }
    ensures good { (n seed : ℕ) → n < 2 ^ 64 → AllByRecursion (IsLine nodes) (lines_of (generated_text n seed)) }
    ensures count { (n seed : ℕ) → n < 2 ^ 64 → length (lines_of (generated_text n seed)) ≡ 27 + 2 * n + 2 * (n / 50) }
    ensures short { (n seed : ℕ) → n ≤ MOST_BATCHES → length (generated_text n seed) ≤ limit }
    ensures rest { (n seed : ℕ) → rest_of (generated_text n seed) ≡ [] }
{
    generated_lines_are_lines();
    generated_lines_are_spelled();
    generated_lines_are_counted();
}
