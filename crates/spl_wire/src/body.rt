//! The bodies of messages, and the reasons in them.
ghost use Rattle.std.specs.Prelude.{◌≡◌, ◌++◌, IsTrue, OnOk};
ghost use Rattle.spl_base.specs.Form.{Reads, ◌&◌};
ghost use Rattle.spl_wire.specs.Bodies as form;

use spl_agree::{CommitMsg, Generation, Place, Reason, Round};
use spl_base::{Field, Malformed, Reader, Writer};
use std::alloc::{AllocError, Global};

pub(crate) fn put_reason(why: Reason, w: &mut Writer) -> Result<(), AllocError>
    ensures ok { OnOk result (w.new ≡ w.old ++ form.reason_form.spell why) }
    ensures fits { OnOk result (IsTrue (form.reason_form.fits why)) }
{
    why.code.put_parts(w)?;
    why.at.put_parts(w)
}

pub(crate) fn take_reason(alloc: Global, r: &mut Reader) -> Result<Reason, Malformed>
    ensures { Reads (λ x. x) result r.new (form.reason_form.parse r.old) }
{
    let code = u8::take_parts(alloc, r)?;
    let at = u8::take_parts(alloc, r)?;
    Ok(Reason { code, at })
}

/// Appends two values, one after the other.
pub(crate) fn put_two<A: Field, B: Field>(a: &A, b: &B, w: &mut Writer) -> Result<(), AllocError>
    requires first { IsTrue (A.form.bounded a.now) }
    requires second { IsTrue (B.form.bounded b.now) }
    ensures ok { OnOk result (w.new ≡ w.old ++ (A.form & B.form).spell (a.now, b.now)) }
    ensures fits { OnOk result (IsTrue ((A.form & B.form).fits (a.now, b.now))) }
{
    a.put_parts(w)?;
    b.put_parts(w)
}

/// Reads two values, one after the other.
pub(crate) fn take_two<A: Field, B: Field>(
    alloc: Global,
    r: &mut Reader,
) -> Result<(A, B), Malformed>
    ensures { Reads (λ x. x) result r.new ((A.form & B.form).parse r.old) }
{
    let first = A::take_parts(alloc, r)?;
    let second = B::take_parts(alloc, r)?;
    Ok((first, second))
}

/// Appends the byte form of a body.
pub(crate) fn put_body<V: Field>(message: &CommitMsg<V>, w: &mut Writer) -> Result<(), AllocError>
    requires { IsTrue ((form.body V.form).bounded message.now) }
    ensures ok { OnOk result (w.new ≡ w.old ++ (form.body V.form).spell message.now) }
    ensures fits { OnOk result (IsTrue ((form.body V.form).fits message.now)) }
{
    match message {
        CommitMsg::VoteRequest {
            generation,
            round,
            place,
            value,
        } => {
            1u8.put_parts(w)?;
            generation.0.put_parts(w)?;
            round.0.put_parts(w)?;
            place.0.put_parts(w)?;
            value.put_parts(w)
        }
        CommitMsg::Vote {
            generation,
            round,
            yes,
        } => {
            2u8.put_parts(w)?;
            generation.0.put_parts(w)?;
            round.0.put_parts(w)?;
            yes.put_parts(w)
        }
        CommitMsg::Decision {
            generation,
            round,
            commit,
        } => {
            3u8.put_parts(w)?;
            generation.0.put_parts(w)?;
            round.0.put_parts(w)?;
            commit.put_parts(w)
        }
        CommitMsg::DecisionRequest { generation, round } => {
            4u8.put_parts(w)?;
            generation.0.put_parts(w)?;
            round.0.put_parts(w)
        }
        CommitMsg::Forward { generation, value } => {
            5u8.put_parts(w)?;
            generation.0.put_parts(w)?;
            value.put_parts(w)
        }
        CommitMsg::Refused {
            generation,
            value,
            reason,
        } => {
            6u8.put_parts(w)?;
            generation.0.put_parts(w)?;
            value.put_parts(w)?;
            put_reason(*reason, w)
        }
    }
}

/// Reads a body from the beginning.
pub(crate) fn take_body<V: Field>(alloc: Global, r: &mut Reader) -> Result<CommitMsg<V>, Malformed>
    ensures { Reads (λ x. x) result r.new ((form.body V.form).parse r.old) }
{
    let at = r.place();
    match u8::take_parts(alloc, r)? {
        1 => {
            let generation = Generation(u32::take_parts(alloc, r)?);
            let round = Round(u64::take_parts(alloc, r)?);
            let place = Place(u32::take_parts(alloc, r)?);
            let value = V::take_parts(alloc, r)?;
            Ok(CommitMsg::VoteRequest {
                generation,
                round,
                place,
                value,
            })
        }
        2 => {
            let generation = Generation(u32::take_parts(alloc, r)?);
            let round = Round(u64::take_parts(alloc, r)?);
            let yes = bool::take_parts(alloc, r)?;
            Ok(CommitMsg::Vote {
                generation,
                round,
                yes,
            })
        }
        3 => {
            let generation = Generation(u32::take_parts(alloc, r)?);
            let round = Round(u64::take_parts(alloc, r)?);
            let commit = bool::take_parts(alloc, r)?;
            Ok(CommitMsg::Decision {
                generation,
                round,
                commit,
            })
        }
        4 => {
            let generation = Generation(u32::take_parts(alloc, r)?);
            let round = Round(u64::take_parts(alloc, r)?);
            Ok(CommitMsg::DecisionRequest { generation, round })
        }
        5 => {
            let generation = Generation(u32::take_parts(alloc, r)?);
            let value = V::take_parts(alloc, r)?;
            Ok(CommitMsg::Forward { generation, value })
        }
        6 => {
            let generation = Generation(u32::take_parts(alloc, r)?);
            let value = V::take_parts(alloc, r)?;
            let reason = take_reason(alloc, r)?;
            Ok(CommitMsg::Refused {
                generation,
                value,
                reason,
            })
        }
        _ => Err(Malformed::At { at }),
    }
}
