//! Which lines a run over links takes.
ghost use Rattle.std.specs.Prelude.{◌≡◌};
ghost use Rattle.spl_runs.specs.Run.{is_said_taken};

use spl_lines::Said;
use spl_sched::{Line, Step};
use spl_wire::Event;

/// Whether a run over links takes what a line says: each line of a watcher, and all lines of the nodes but those that order ticks,
/// ends of rounds, deliveries and calms, which it brings about itself, and stops in an event.
pub fn is_taken(said: &Said) -> bool
    ensures { result ≡ is_said_taken said.now }
{
    let Said::Line(line) = said else {
        return true;
    };
    match line {
        Line::Step(Step::At { event, .. }) => !matches!(event, Event::Tick | Event::Expire),
        Line::Stop(_) | Line::Start(_) | Line::Roll(_) | Line::Check(_) => true,
        _ => false,
    }
}
