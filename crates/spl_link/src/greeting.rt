//! Greetings in bytes.
ghost use Rattle.std.specs.{Prelude.{◌≡◌, ◌≤◌, length, option_map, IfOk}, Result.result_ok};
ghost use Rattle.spl_link.specs.Greetings.{tag_of, greeting_form, greeting, name_in};

use spl_base::{NodeId, Piece, Reader, Writer};
use std::alloc::{AllocError, Global};

/// The tag of the greeting of the side that opens, and of the other.
fn tag_of(opens: bool) -> u8
    ensures { result ≡ tag_of opens }
{
    if opens { 3 } else { 4 }
}

/// The greeting of a node.
#[tactic(auto, using(crate::proofs::Readings::greeting_short), unfolding(spl_base::specs::Form::number_bytes))]
pub(crate) fn write_greeting(alloc: Global, opens: bool, name: &NodeId) -> Result<Piece, AllocError>
    ensures greeting { IfOk result (λ p. p ≡ greeting opens name.now) }
    ensures short { IfOk result (λ p. length p ≤ 37) }
{
    let mut w = Writer::new(alloc);
    w.put_u8(tag_of(opens))?;
    w.put_u16(1)?;
    w.put_text(name.bytes())?;
    Ok(w.into_piece())
}

/// The tag, the version and the name of a greeting at the beginning.
fn take_greeting(r: &mut Reader) -> Option<(u8, (u16, NodeId))>
    ensures { result_ok (greeting_form.parse r.old) ≡ option_map (λ x. (x, r.new)) result }
{
    let tag = r.take_u8().ok()?;
    let version = r.take_u16().ok()?;
    let name = NodeId::read(r.take_text(32).ok()?)?;
    Some((tag, (version, name)))
}

/// The name in a body that is exactly the greeting of that side.
pub(crate) fn name_in(opens: bool, body: &[u8]) -> Option<NodeId>
    ensures { result ≡ name_in opens body.now }
{
    let mut r = Reader::new(body);
    let (tag, (version, name)) = take_greeting(&mut r)?;
    if tag == tag_of(opens) && version == 1 && r.place() == body.len() {
        Some(name)
    } else {
        None
    }
}
