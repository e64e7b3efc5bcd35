//! Names in answers.
ghost use Rattle.std.specs.Prelude.{◌≡◌};
ghost use Rattle.spl_answer.specs.Names.{lifecycle_text, mark_text, fault_text, bit_text};

use spl_circuit::{Lifecycle, Mark, RouteFault};
use spl_wire::Bit;

pub(crate) fn lifecycle_name(lifecycle: Lifecycle) -> &'static str
    ensures { result.now ≡ lifecycle_text lifecycle }
{
    match lifecycle {
        Lifecycle::None => "none",
        Lifecycle::Proposed => "proposed",
        Lifecycle::Active => "active",
        Lifecycle::Disbanding => "disbanding",
        Lifecycle::Disbanded => "disbanded",
        Lifecycle::Rejected => "rejected",
        Lifecycle::Removed => "removed",
    }
}

pub(crate) fn mark_name(mark: Mark) -> &'static str
    ensures { result.now ≡ mark_text mark }
{
    match mark {
        Mark::Open => "open",
        Mark::Abandoned => "abandoned",
        Mark::Purged => "purged",
    }
}

pub(crate) fn fault_name(fault: RouteFault) -> &'static [u8]
    ensures { result.now ≡ fault_text fault }
{
    match fault {
        RouteFault::CircuitDoesNotExist => b"1",
        RouteFault::SenderNotInRoster => b"2",
        RouteFault::RecipientNotInRoster => b"3",
        RouteFault::SenderNotOnNode => b"4",
        RouteFault::RecipientNotHere => b"5",
    }
}

pub(crate) fn bit_name(bit: Bit) -> &'static [u8]
    ensures { result.now ≡ bit_text bit }
{
    match bit {
        Bit::Kept => b"kept",
        Bit::Lost => b"lost",
        Bit::Nothing => b"none",
    }
}
