//! The texts of answers about nodes.
ghost use Rattle.std.specs.Prelude.{◌≡◌, ◌++◌, OnOk};
ghost use Rattle.spl_answer.specs.{Batches.spaced, Nodes.{power_text, roll_text}};

use crate::part::{append, append_numbered};
use spl_base::CircuitId;
use std::alloc::AllocError;

/// Appends whether a node is up.
pub(crate) fn append_power(up: bool, out: &mut Vec<u8>) -> Result<(), AllocError>
    ensures { OnOk result (out.new.items ≡ out.old.items ++ power_text up) }
{
    if up {
        append(b"ok up", out)
    } else {
        append(b"ok down", out)
    }
}

fn append_circuits(circuits: &[CircuitId], out: &mut Vec<u8>) -> Result<(), AllocError>
    ensures { OnOk result (out.new.items ≡ out.old.items ++ spaced (λ c. c) circuits.now) }
{
    for circuit in circuits {
        append(b" ", out)?;
        append(circuit.bytes(), out)?;
    }
    Ok(())
}

/// Appends the text of a roll.
pub(crate) fn append_roll(circuits: &[CircuitId], out: &mut Vec<u8>) -> Result<(), AllocError>
    ensures { OnOk result (out.new.items ≡ out.old.items ++ roll_text circuits.now) }
{
    append_numbered(b"ok roll ", circuits.len() as u64, out)?;
    append_circuits(circuits, out)
}
