//! What each committed batch changed, and watchers that take it: the lines, and what is taken.
#![tactic(auto)]

mod answer;
mod changes;
mod delta;
mod group;
mod line;
mod read;
mod taker;
mod text;
mod watcher;
mod watchers;

ghost use Rattle.std.specs.Prelude.{◌≡◌, ◌+◌, ◌++◌, ◌∷◌, [], ℕ, ◌≤◌, true, IsTrue, List, Some, length, take};
ghost use Rattle.spl_agree.specs.World.{IsPrefixOf};
ghost use Rattle.spl_command.specs.{Lists.state_of, declared.batch.Batch.Batch};
ghost use Rattle.spl_circuit_world.specs.{Answers.answer_to, Projection.{Ran, lines_fit}, Worlds.{IsOrigin, Origin}};
ghost use Rattle.spl_delta.specs.Watches.{AreCut, deltas, with_deltas, is_watch_line, watch_line_of, watch_spelling, Line, OfLine, Task, lines_in};
ghost use Rattle.spl_delta.specs.{Watches.task_answer, declared.line.WatchLine.WatchLine as WatchLineValue};

pub use answer::WatchAnswer;
pub use changes::replay;
pub use delta::{Delta, Deltas};
pub use group::MOST_WATCHERS;
pub use line::WatchLine;
pub use read::{MOST_PULLED, read_watch};
pub use taker::Taker;
pub use watchers::Watchers;

/// Deltas from a place on, replayed over the state of the batches before it, give the state of all
/// that were taken. Those of a list's first batches are its own; a list ends them; what a
/// member gives whose batches begin a list is the list's; and some and then more are all.
pub fn deltas_replay_batches()
    ensures states { (bs : List Batch) (place count : ℕ) →
        place + count ≤ length bs →
        with_deltas (state_of (take place bs)) (deltas bs place count) ≡ state_of (take (place + count) bs) }
    ensures prefixes { (xs ys : List Batch) (place count : ℕ) → place + count ≤ length xs → deltas xs place count ≡ deltas (xs ++ ys) place count }
    ensures cut { (bs : List Batch) (place count : ℕ) → place ≤ length bs → AreCut bs place count (deltas bs place count) }
    ensures pulled { (xs ys : List Batch) (place count : ℕ) → IsPrefixOf xs ys → deltas xs place count ≡ deltas ys place (length (deltas xs place count)) }
    ensures on { (bs : List Batch) (place first more : ℕ) →
        place + first ≤ length bs →
        deltas bs place (first + more) ≡ deltas bs place first ++ deltas bs (place + first) more }
{}

/// A line is answered among watchers as it is without them.
pub fn watchers_change_no_answer()
    ensures { (o : Origin) (before : List Task) (r : Ran) →
        IsOrigin o → lines_fit (lines_in before ++ r ∷ []) ≡ true →
        task_answer o before (Line r) ≡ OfLine (answer_to o (lines_in before) r) }
{}

/// The line of a watcher within its bounds is what its spelling says; what is read is within its bounds, and is spelled in no
/// other way.
pub fn watch_lines_are_read_back()
    ensures again { (l : WatchLineValue) → IsTrue (is_watch_line l) → watch_line_of (watch_spelling l) ≡ Some l }
    ensures only { (bytes : List ℕ) (l : WatchLineValue) → watch_line_of bytes ≡ Some l → (bytes ≡ watch_spelling l) × IsTrue (is_watch_line l) }
{}
