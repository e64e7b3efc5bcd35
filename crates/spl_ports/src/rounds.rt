//! The rounds by which a peer asked for votes.

use spl_agree::{CommitMsg, Generation, Round};
use spl_base::CircuitId;
use spl_wire::Message;
use std::alloc::{AllocError, Global};
use std::collections::BTreeMap;

/// Of how many circuits the rounds of a peer are remembered at most.
const MOST: usize = 4_096;

// The round by which a peer asked for votes last in a group.
#[derive(Clone, Copy, Drop)]
struct LastAsked {
    generation: Generation,
    round: Round,
}

/// The last round by which a peer asked for votes in each group, of each circuit's admin group and of its service group. A node keeps a round
/// before it asks by it, and asks by the last alone. So one that asks by a round below it doesn't know that it used it: it began with an old
/// copy of its files.
#[derive(Drop)]
pub(crate) struct Rounds {
    admin: BTreeMap<CircuitId, LastAsked>,
    service: BTreeMap<CircuitId, LastAsked>,
}

// Notes what a message of a group asks by; says whether that is below what it asked by before, in the same generation.
fn note<V>(
    asked: &mut BTreeMap<CircuitId, LastAsked>,
    circuit: CircuitId,
    body: &CommitMsg<V>,
) -> Result<bool, AllocError> {
    let CommitMsg::VoteRequest {
        generation,
        round,
        ..
    } = body
    else {
        return Ok(false);
    };
    let now = LastAsked {
        generation: *generation,
        round: *round,
    };
    if let Some(last) = asked.get_mut(&circuit) {
        if last.generation.0 == now.generation.0 && now.round.0 < last.round.0 {
            return Ok(true);
        }
        *last = now;
        return Ok(false);
    }
    if asked.len() < MOST {
        asked.insert(circuit, now)?;
    }
    Ok(false)
}

impl Rounds {
    pub(crate) fn new(alloc: Global) -> Rounds {
        Rounds {
            admin: BTreeMap::new(alloc),
            service: BTreeMap::new(alloc),
        }
    }

    /// Notes the round by which a message asks for votes, if it does; says whether it is below one by which the peer asked there before. The only
    /// error is that memory ran out.
    pub(crate) fn note(&mut self, message: &Message) -> Result<bool, AllocError> {
        match message {
            Message::Admin { circuit, body } => note(&mut self.admin, *circuit, body),
            Message::Scabbard { circuit, body, .. } => note(&mut self.service, *circuit, body),
        }
    }
}
