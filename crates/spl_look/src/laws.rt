//! What a node's own files bind.
ghost use Rattle.std.specs.{Prelude.{◌≡◌, false}, List.list_any};
ghost use Rattle.spl_wire.specs.declared.event.Event.{Event};
ghost use Rattle.spl_cell_rules.specs.{Cells.{Cell, Site}, Pack.packed, Plans.plan_of, Valid.IsKept};
ghost use Rattle.spl_look.specs.Owners.{binds_without};

/// No change of an event at a node, and none of the packed form of a cell that it keeps, binds a definition of which the node is no
/// member. So its own files are never taken for another's.
pub fn own_files_bind_their_node()
    ensures events { (site : Site) (k : Cell) (e : Event) → list_any (binds_without site.here) (plan_of site k e).changes ≡ false }
    ensures packs { (site : Site) (k : Cell) → IsKept site k → list_any (binds_without site.here) (packed k) ≡ false }
{}
