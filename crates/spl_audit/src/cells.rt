//! Two cells of a circuit, side by side.
ghost use Rattle.std.specs.Prelude.{◌≡◌, ◌≢◌};
ghost use Rattle.spl_audit.specs.{Clashes.IsLeast, Searching.{IsCellClash, IsFirstClash}};

use crate::clash::{Clash, Kind};
use crate::lists::{first_difference, share_member};
use spl_base::{CircuitId, Value};
use spl_cell::Held;

/// The first kind and place at which two cells clash, if they do.
fn first_clash(one: &Held, other: &Held) -> Option<(Kind, usize)>
    ensures { IsFirstClash one.now.bound other.now.bound result }
{
    if !one.definition().same(other.definition()) {
        return clash_of_definitions(one, other);
    }
    if let Some(place) = first_difference(one.acts(), other.acts()) {
        return Some((Kind::Acts, place));
    }
    match first_difference(one.batches(), other.batches()) {
        Some(place) => Some((Kind::Batches, place)),
        None => None,
    }
}

/// The same of cells that are bound to different definitions.
fn clash_of_definitions(one: &Held, other: &Held) -> Option<(Kind, usize)>
    requires { one.now.bound.definition ≢ other.now.bound.definition }
    ensures { IsFirstClash one.now.bound other.now.bound result }
{
    if one.acts().is_empty() {
        return None;
    }
    if other.acts().is_empty() {
        return None;
    }
    if share_member(one.definition(), other.definition()) {
        Some((Kind::Definitions, 0))
    } else {
        None
    }
}

/// The least clash of two cells of a circuit at nodes of these positions, if they clash.
pub(crate) fn clash_of_cells(
    circuit: CircuitId,
    first: usize,
    second: usize,
    one: &Held,
    other: &Held,
) -> Option<Clash>
    ensures { IsLeast (IsCellClash circuit first second one.now.bound other.now.bound) result }
{
    let generation = one.definition().generation;
    if generation != other.definition().generation {
        return None;
    }
    match first_clash(one, other) {
        Some((kind, place)) => Some(Clash {
            circuit,
            generation,
            kind,
            first,
            second,
            place,
        }),
        None => None,
    }
}
