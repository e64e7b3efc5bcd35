//! Where what two nodes keep doesn't go together.
ghost use Rattle.std.specs.Prelude.{◌≡◌, ◌<◌, ◌==◌, ◌&&◌, ◌||◌, nat_lt};
ghost use Rattle.spl_audit.specs.Clashes.{are_at_most, is_at_most, kind_number, lesser, clash_numbers};

use spl_agree::Generation;
use spl_base::CircuitId;

/// How what two nodes keep of a circuit doesn't go together.
#[derive(Clone, Copy, PartialEq, Eq)]
pub enum Kind {
    /// They are bound to different definitions that share a member, and both have acts.
    Definitions,
    /// They are bound to one circuit, and their acts differ at a place.
    Acts,
    /// They are bound to one circuit, and their batches differ at a place.
    Batches,
}

impl Kind {
    /// Its place among the kinds.
    fn number(self) -> usize
        ensures { result ≡ kind_number self }
    {
        match self {
            Kind::Definitions => 1,
            Kind::Acts => 2,
            Kind::Batches => 3,
        }
    }
}

/// Where two nodes clash: the circuit, the positions of the nodes, the lower one first, and the
/// place in their histories.
#[derive(Clone, Copy)]
pub struct Clash {
    pub circuit: CircuitId,
    pub generation: Generation,
    pub kind: Kind,
    pub first: usize,
    pub second: usize,
    pub place: usize,
}

/// Whether a number is below another, or is the same and this holds.
fn is_lower(one: usize, other: usize, rest: bool) -> bool
    ensures { result ≡ (nat_lt one other || (one == other && rest)) }
{
    one < other || (one == other && rest)
}

impl Clash {
    /// Whether its numbers come no later than those of another: those of the generation, the kind,
    /// the positions and the place.
    fn has_least_numbers(&self, other: &Clash) -> bool
        ensures { result ≡ are_at_most (clash_numbers self.now) (clash_numbers other.now) }
    {
        let place = is_lower(self.place, other.place, true);
        let second = is_lower(self.second, other.second, place);
        let first = is_lower(self.first, other.first, second);
        let kind = is_lower(self.kind.number(), other.kind.number(), first);
        is_lower(
            self.generation.0 as usize,
            other.generation.0 as usize,
            kind,
        )
    }

    /// Whether it comes before another clash, or is the same.
    pub fn is_at_most(&self, other: &Clash) -> bool
        ensures { result ≡ is_at_most self.now other.now }
    {
        self.circuit < other.circuit
            || (self.circuit == other.circuit && self.has_least_numbers(other))
    }
}

/// The one that comes first of two clashes, if there is one.
pub(crate) fn lesser(one: Option<Clash>, other: Option<Clash>) -> Option<Clash>
    ensures { result ≡ lesser one other }
{
    match (one, other) {
        (None, other) => other,
        (one, None) => one,
        (Some(one), Some(other)) => {
            if one.is_at_most(&other) {
                Some(one)
            } else {
                Some(other)
            }
        }
    }
}
