//! Messages to each position of a set, in order.
ghost use Rattle.std.specs.Prelude.{◌≡◌, IfOk};
ghost use Rattle.spl_agree.specs.Rows.{to_each, abort_each};
ghost use Rattle.spl_coord.specs.Positions.{positions};

use spl_agree::{Agreed, CommitMsg, Generation, GroupSends, Place, Reason, Round};
use spl_coord::has_position;
use std::alloc::{AllocError, Global};

/// A decision to each of these.
#[tactic(auto, using(crate::proofs::Positions::each_facts))]
pub fn decide_each<V: Drop>(
    alloc: Global,
    generation: Generation,
    round: Round,
    commit: bool,
    to: u8,
) -> Result<GroupSends<V>, AllocError>
    ensures { IfOk result (λ sends. sends ≡ to_each (CommitMsg.Decision generation round commit) (positions to)) }
{
    let mut sends = GroupSends::new(alloc);
    for i in 0..8 {
        if has_position(to, i) {
            sends.push(
                i,
                CommitMsg::Decision {
                    generation,
                    round,
                    commit,
                },
            )?;
        }
    }
    Ok(sends)
}

/// A request for a vote to each of these, each with a copy of the value.
#[tactic(auto, using(crate::proofs::Positions::each_facts))]
pub fn request_each<M: Agreed>(
    alloc: Global,
    generation: Generation,
    round: Round,
    place: Place,
    value: &M::Value,
    to: u8,
) -> Result<GroupSends<M::Value>, AllocError>
    ensures { IfOk result (λ sends. sends ≡ to_each (CommitMsg.VoteRequest generation round place value.now) (positions to)) }
{
    let mut sends = GroupSends::new(alloc);
    for i in 0..8 {
        if has_position(to, i) {
            let value = M::copy(alloc, value)?;
            sends.push(
                i,
                CommitMsg::VoteRequest {
                    generation,
                    round,
                    place,
                    value,
                },
            )?;
        }
    }
    Ok(sends)
}

/// A refusal to each of these, each with a copy of the value.
#[tactic(auto, using(crate::proofs::Positions::each_facts))]
pub fn refuse_each<M: Agreed>(
    alloc: Global,
    generation: Generation,
    value: &M::Value,
    reason: Reason,
    to: u8,
) -> Result<GroupSends<M::Value>, AllocError>
    ensures { IfOk result (λ sends. sends ≡ to_each (CommitMsg.Refused generation value.now reason) (positions to)) }
{
    let mut sends = GroupSends::new(alloc);
    for i in 0..8 {
        if has_position(to, i) {
            let value = M::copy(alloc, value)?;
            sends.push(
                i,
                CommitMsg::Refused {
                    generation,
                    value,
                    reason,
                },
            )?;
        }
    }
    Ok(sends)
}

/// An abort to each of these, and after it what was refused.
#[tactic(auto, using(crate::proofs::Positions::abort_facts))]
pub fn abort_each<M: Agreed>(
    alloc: Global,
    generation: Generation,
    round: Round,
    value: &M::Value,
    reason: Reason,
    to: u8,
) -> Result<GroupSends<M::Value>, AllocError>
    ensures { IfOk result (λ sends. sends ≡ abort_each generation round value.now reason (positions to)) }
{
    let mut sends = GroupSends::new(alloc);
    for i in 0..8 {
        if has_position(to, i) {
            sends.push(
                i,
                CommitMsg::Decision {
                    generation,
                    round,
                    commit: false,
                },
            )?;
            let value = M::copy(alloc, value)?;
            sends.push(
                i,
                CommitMsg::Refused {
                    generation,
                    value,
                    reason,
                },
            )?;
        }
    }
    Ok(sends)
}
