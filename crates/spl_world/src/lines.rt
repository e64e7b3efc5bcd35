//! Which lines stop a node.
ghost use Rattle.std.specs.Prelude.{◌≡◌};
ghost use Rattle.spl_world.specs.Held.{stops};

use spl_sched::Line;

/// Whether the line stops a node: such a line is for `World::halt`, and any other for
/// `World::step`.
pub fn stops_node(line: &Line) -> bool
    ensures { result ≡ stops line.now }
{
    matches!(line, Line::Stop(_) | Line::Cut { .. } | Line::Fail { .. })
}
