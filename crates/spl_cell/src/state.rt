//! What a node keeps about one circuit.
ghost use Rattle.std.specs.Prelude.{◌≡◌};
ghost use Rattle.spl_cell_rules.specs.Cells.{is_free};
ghost use Rattle.spl_cell.specs.States.{cell_of};

use crate::held::Held;
use spl_agree::Generation;

/// What a node keeps about one circuit: nothing, what a bound cell keeps, or the generation that a
/// purged one last had (docs/RULES.md, Cells).
#[derive(Drop)]
pub(crate) enum State {
    Empty,
    Held(Box<Held>),
    Purged(Generation),
}

impl State {
    /// Whether the cell may be bound to a definition of a generation.
    pub(crate) fn is_free(&self, generation: Generation) -> bool
        ensures { result ≡ is_free (cell_of self.now) generation }
    {
        match self {
            State::Empty => true,
            State::Held(_) => false,
            State::Purged(old) => old.0 < generation.0,
        }
    }
}
