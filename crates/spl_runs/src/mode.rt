//! How a run begins, and what it writes.
ghost use Rattle.std.specs.Prelude.{◌≡◌};
ghost use Rattle.spl_runs.specs.Run.{is_trace};

use spl_registry::Registry;

/// With what a run begins.
#[derive(Clone, Copy, PartialEq, Eq)]
pub enum Beginning {
    /// With blank disks.
    Blank,
    /// With what a former run left on the disks, if anything.
    Resumed,
}

/// What a run writes of each line.
#[derive(Clone, Copy, PartialEq, Eq)]
pub enum Writing {
    /// Its answer.
    Answers,
    /// Its trace.
    Trace,
}

impl Writing {
    /// Whether traces are written.
    pub(crate) fn is_trace(&self) -> bool
        ensures { result ≡ is_trace self.now }
    {
        matches!(self, Writing::Trace)
    }
}

/// How a run begins, and what it writes.
#[derive(Clone, Copy, PartialEq, Eq)]
pub struct Mode {
    pub beginning: Beginning,
    pub writing: Writing,
    /// So many of the first lines are run, and nothing of them is written.
    pub unanswered: u32,
}

/// What is set before a run: the nodes, as a registry has them, and the mode.
#[derive(Drop)]
pub struct Setup<'a> {
    pub registry: &'a Registry,
    pub mode: Mode,
}
