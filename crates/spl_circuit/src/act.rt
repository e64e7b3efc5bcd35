//! Acts on a circuit.
ghost use Rattle.std.specs.Prelude.{◌≡◌};

use crate::checked::CheckedDefinition;
use spl_agree::{Place, Reason};
use spl_base::{Field, Malformed, NodeId, Reader, Writer};
use std::alloc::{AllocError, Global};

/// What a node does to a circuit.
#[derive(Drop)]
pub enum ActKind {
    /// Asks the members for a circuit of this definition.
    Propose(CheckedDefinition),
    /// Agrees to the circuit that was proposed.
    Accept,
    /// Turns down the circuit that was proposed.
    Reject,
    /// Takes back the circuit that the node proposed.
    Remove,
    /// Asks the members to disband the circuit.
    Disband,
    /// Agrees to the disband at this place of the acts.
    DisbandAccept(Place),
    /// Turns it down.
    DisbandReject(Place),
    /// Takes back the one that the node asked for.
    DisbandRemove(Place),
}

/// The circuit's version is 1, in which no disband is admitted.
pub const VERSION_TOO_LOW: Reason = Reason { code: 14, at: 0 };

/// An act of a node on a circuit.
#[derive(Drop)]
pub struct Act {
    pub node: NodeId,
    /// The number of the node's own acts in its generation, from 1, this one included.
    pub turn: u32,
    pub kind: ActKind,
}

impl Field for ActKind {
    ghost use Rattle.spl_circuit.specs.Forms.{kind, exact_kind};

    ghost form = { kind };

    fn put_parts(&self, w: &mut Writer) -> Result<(), AllocError> {
        match self {
            ActKind::Propose(d) => {
                1u8.put_parts(w)?;
                d.put_parts(w)
            }
            ActKind::Accept => 2u8.put_parts(w),
            ActKind::Reject => 3u8.put_parts(w),
            ActKind::Remove => 4u8.put_parts(w),
            ActKind::Disband => 5u8.put_parts(w),
            ActKind::DisbandAccept(place) => {
                6u8.put_parts(w)?;
                place.0.put_parts(w)
            }
            ActKind::DisbandReject(place) => {
                7u8.put_parts(w)?;
                place.0.put_parts(w)
            }
            ActKind::DisbandRemove(place) => {
                8u8.put_parts(w)?;
                place.0.put_parts(w)
            }
        }
    }

    fn take_parts(alloc: Global, r: &mut Reader) -> Result<ActKind, Malformed> {
        let at = r.place();
        match u8::take_parts(alloc, r)? {
            1 => Ok(ActKind::Propose(CheckedDefinition::take_parts(alloc, r)?)),
            2 => Ok(ActKind::Accept),
            3 => Ok(ActKind::Reject),
            4 => Ok(ActKind::Remove),
            5 => Ok(ActKind::Disband),
            6 => Ok(ActKind::DisbandAccept(Place(u32::take_parts(alloc, r)?))),
            7 => Ok(ActKind::DisbandReject(Place(u32::take_parts(alloc, r)?))),
            8 => Ok(ActKind::DisbandRemove(Place(u32::take_parts(alloc, r)?))),
            _ => Err(Malformed::At { at }),
        }
    }

    ghost exact = { exact_kind };
}

impl Field for Act {
    ghost use Rattle.spl_circuit.specs.Forms.{act, exact_act};

    ghost form = { act };

    fn put_parts(&self, w: &mut Writer) -> Result<(), AllocError> {
        self.node.put_parts(w)?;
        self.turn.put_parts(w)?;
        self.kind.put_parts(w)
    }

    fn take_parts(alloc: Global, r: &mut Reader) -> Result<Act, Malformed> {
        let node = NodeId::take_parts(alloc, r)?;
        let turn = u32::take_parts(alloc, r)?;
        let kind = ActKind::take_parts(alloc, r)?;
        Ok(Act { node, turn, kind })
    }

    ghost exact = { exact_act };
}
