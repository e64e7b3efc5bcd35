//! Sets of positions below 8, as the bits of a byte.
ghost use Rattle.std.specs.Prelude.{◌≡◌, ◌<◌, ◌≤◌};
ghost use Rattle.spl_agree.specs.Member.{has, but, none_left, below_but};
ghost use Rattle.spl_coord.specs.Positions.{positions};

/// Whether this position is in a set.
pub fn has_position(bits: u8, at: u8) -> bool
    requires { at < 8 }
    ensures { result ≡ has at (positions bits) }
{
    bits >> at & 1 == 1
}

/// The set without this position.
pub fn without_position(bits: u8, at: u8) -> u8
    requires { at < 8 }
    ensures { positions result ≡ but at (positions bits) }
{
    bits & !(1 << at)
}

/// Whether a set is empty.
#[tactic(auto, using(crate::proofs::Bits::empty_is))]
pub fn is_empty(bits: u8) -> bool
    ensures { result ≡ none_left (positions bits) }
{
    bits == 0
}

/// The set of all positions below a number.
pub fn first_positions(members: u8) -> u8
    requires { members ≤ 8 }
    ensures { positions result ≡ below_but members 8 }
{
    match members {
        0 => 0,
        1 => 0b1,
        2 => 0b11,
        3 => 0b111,
        4 => 0b1111,
        5 => 0b1_1111,
        6 => 0b11_1111,
        7 => 0b111_1111,
        _ => 0b1111_1111,
    }
}
