//! A message comes from another node.
ghost use Rattle.std.specs.{Prelude.{◌==◌, ◌≡◌, ◌&&◌, true, false, not, None, IfOk}, Str.bytes_eq};
ghost use Rattle.spl_circuit.specs.Rules.{admin, broken, is_member};
ghost use Rattle.spl_cell_rules.specs.{Cells.{can_bind, declines, returns_unbound, ignores, asked_first, forwarded_first, hears_first}, Events.hears_admin};
ghost use Rattle.spl_cell_rules.specs.{Events.{held_hears, other_hears}, Plans.planned};
ghost use Rattle.spl_cell_rules.specs.Cells as rules;
ghost use Rattle.spl_cell.specs.{States.cell_of, Sites.site_of};

use crate::plans::{Say, refuses, tells_only};
use crate::settled::Settled;
use crate::site::Site;
use crate::state::State;
use spl_admin::Ledger;
use spl_agree::{CommitMsg, Generation, GroupEvent, Note, Place, Reason, Round};
use spl_base::{NodeId, Value};
use spl_circuit::{Act, ActKind, CheckedDefinition};
use spl_wire::{Answer, Message, Plan, Refusal};
use std::alloc::{AllocError, Global};

impl Site {
    /// Whether a message of a generation can bind the definition.
    fn can_bind(
        &self,
        state: &State,
        generation: Generation,
        definition: &CheckedDefinition,
    ) -> bool
        ensures { result ≡ can_bind (site_of self.now) (cell_of state.now) generation definition.now }
    {
        let terms = definition.get();
        if terms.id != self.circuit {
            return false;
        }
        if terms.generation != generation {
            return false;
        }
        if definition.fault().is_some() {
            return false;
        }
        if !terms.is_member(&self.here) {
            return false;
        }
        state.is_free(generation)
    }

    pub(crate) fn ignores(&self, alloc: Global) -> Plan
        ensures { result ≡ planned (site_of self.now) ignores }
    {
        tells_only(alloc, Answer::Delivered(Note::Ignored))
    }

    /// The vote is no.
    fn declines(
        &self,
        alloc: Global,
        from: &NodeId,
        generation: Generation,
        round: Round,
    ) -> Result<Plan, AllocError>
        ensures { IfOk result (λ p. p ≡ planned (site_of self.now) (declines (site_of self.now) from.now generation round)) }
    {
        let body = CommitMsg::Vote {
            generation,
            round,
            yes: false,
        };
        let circuit = self.circuit;
        let vote = Message::Admin { circuit, body };
        self.replies(alloc, Note::Declined(round), from, vote)
    }

    /// The coordinator can't bind the definition, so the act goes back.
    fn returns_unbound(
        &self,
        alloc: Global,
        from: &NodeId,
        generation: Generation,
        act: &Act,
    ) -> Result<Plan, AllocError>
        ensures { IfOk result (λ p. p ≡ planned (site_of self.now) (returns_unbound (site_of self.now) from.now generation act.now)) }
    {
        let body = CommitMsg::Refused {
            generation,
            value: act.copy(alloc)?,
            reason: Reason::CANNOT_BIND,
        };
        let circuit = self.circuit;
        let refused = Message::Admin { circuit, body };
        self.replies(alloc, Note::Returned(Reason::CANNOT_BIND), from, refused)
    }

    /// Whether a request for a proposal can bind the definition.
    #[tactic(auto, using(crate::proofs::Binds::bind_facts))]
    fn can_bind_asked(
        &self,
        state: &State,
        from: &NodeId,
        generation: Generation,
        place: Place,
        definition: &CheckedDefinition,
    ) -> bool
        ensures valid { result ≡ true → broken definition.now ≡ None }
        ensures member { result ≡ true → is_member definition.now self.now.here ≡ true }
        ensures generation { result ≡ true → definition.now.generation ≡ generation }
        ensures value { result ≡
            (place == 0 && (can_bind (site_of self.now) (cell_of state.now) generation definition.now && bytes_eq (admin definition.now) from.now)) }
    {
        if place.0 != 0 {
            return false;
        }
        if !self.can_bind(state, generation, definition) {
            return false;
        }
        definition.get().admin_coordinator() == *from
    }

    /// A request at a cell that isn't bound to its generation, or not open.
    #[tactic(auto, using(crate::proofs::Positions::sender_facts, crate::proofs::Binds::bind_facts))]
    fn asked_first(
        &self,
        alloc: Global,
        state: &State,
        from: &NodeId,
        generation: Generation,
        round: Round,
        place: Place,
        act: &Act,
    ) -> Result<Plan, AllocError>
        requires other { bytes_eq from.now self.now.here ≡ false }
        ensures { IfOk result (λ p. p ≡
            planned (site_of self.now) (asked_first (site_of self.now) (cell_of state.now) from.now generation round place act.now act.now.kind)) }
    {
        let ActKind::Propose(definition) = &act.kind else {
            return self.declines(alloc, from, generation, round);
        };
        let terms = definition.get();
        if !self.can_bind_asked(state, from, generation, place, definition) {
            return self.declines(alloc, from, generation, round);
        }
        let message = CommitMsg::VoteRequest {
            generation,
            round,
            place,
            value: act.copy(alloc)?,
        };
        let sender = terms.position(from);
        let event = GroupEvent::From { sender, message };
        self.binds(alloc, Say::Delivered, definition, from, &event)
    }

    /// Whether a proposal that a node forwards can bind the definition.
    #[tactic(auto, using(crate::proofs::Binds::bind_facts))]
    fn can_bind_forwarded(
        &self,
        state: &State,
        from: &NodeId,
        generation: Generation,
        node: &NodeId,
        definition: &CheckedDefinition,
    ) -> bool
        ensures valid { result ≡ true → broken definition.now ≡ None }
        ensures member { result ≡ true → is_member definition.now self.now.here ≡ true }
        ensures value { result ≡
            (can_bind (site_of self.now) (cell_of state.now) generation definition.now && (bytes_eq (admin definition.now) self.now.here &&
            (bytes_eq node.now from.now && (is_member definition.now from.now && not (bytes_eq from.now self.now.here))))) }
    {
        if !self.can_bind(state, generation, definition) {
            return false;
        }
        let terms = definition.get();
        if terms.admin_coordinator() != self.here {
            return false;
        }
        if *node != *from {
            return false;
        }
        if !terms.is_member(from) {
            return false;
        }
        *from != self.here
    }

    /// A forwarded act there.
    fn forwarded_first(
        &self,
        alloc: Global,
        state: &State,
        from: &NodeId,
        generation: Generation,
        act: &Act,
    ) -> Result<Plan, AllocError>
        ensures { IfOk result (λ p. p ≡
            planned (site_of self.now) (forwarded_first (site_of self.now) (cell_of state.now) from.now generation act.now act.now.kind)) }
    {
        let ActKind::Propose(definition) = &act.kind else {
            return Ok(self.ignores(alloc));
        };
        if !self.can_bind_forwarded(state, from, generation, &act.node, definition) {
            return self.returns_unbound(alloc, from, generation, act);
        }
        let event = GroupEvent::Submit(act.copy(alloc)?);
        self.binds(alloc, Say::Delivered, definition, from, &event)
    }

    /// A message at a cell that isn't bound to its generation, or not open.
    fn hears_first(
        &self,
        alloc: Global,
        state: &State,
        from: &NodeId,
        body: &CommitMsg<Act>,
    ) -> Result<Plan, AllocError>
        requires other { bytes_eq from.now self.now.here ≡ false }
        ensures { IfOk result (λ p. p ≡ planned (site_of self.now) (hears_first (site_of self.now) (cell_of state.now) from.now body.now)) }
    {
        match body {
            CommitMsg::VoteRequest {
                generation,
                round,
                place,
                value,
            } => self.asked_first(alloc, state, from, *generation, *round, *place, value),
            CommitMsg::Forward { generation, value } => {
                self.forwarded_first(alloc, state, from, *generation, value)
            }
            _ => Ok(self.ignores(alloc)),
        }
    }

    /// A message comes from another node to a cell that isn't bound.
    pub(crate) fn other_hears(
        &self,
        alloc: Global,
        state: &State,
        from: &NodeId,
        message: &Message,
    ) -> Result<Plan, AllocError>
        requires other { bytes_eq from.now self.now.here ≡ false }
        ensures { IfOk result (λ p. p ≡ planned (site_of self.now) (other_hears (site_of self.now) (cell_of state.now) from.now message.now)) }
    {
        match message {
            Message::Admin { body, .. } => self.hears_first(alloc, state, from, body),
            Message::Scabbard { .. } => Ok(refuses(alloc, Refusal::NO_WAY)),
        }
    }

    /// A message of the admin group comes from another node to a bound cell.
    fn hears_admin(
        &self,
        alloc: Global,
        state: &State,
        settled: &Settled<'_>,
        from: &NodeId,
        body: &CommitMsg<Act>,
    ) -> Result<Plan, AllocError>
        requires site { settled.now.site ≡ site_of self.now }
        requires bound { cell_of state.now ≡ rules.Held settled.now.bound }
        requires other { bytes_eq from.now self.now.here ≡ false }
        ensures { IfOk result (λ p. p ≡ planned (site_of self.now) (hears_admin (site_of self.now) settled.now.bound from.now body.now)) }
    {
        let held = settled.held();
        if !held.is_open() {
            return self.hears_first(alloc, state, from, body);
        }
        if body.generation() != held.definition().generation {
            return self.hears_first(alloc, state, from, body);
        }
        settled.hears::<Ledger>(alloc, from, body)
    }

    /// A message comes from another node to a bound cell.
    pub(crate) fn hears(
        &self,
        alloc: Global,
        state: &State,
        settled: &Settled<'_>,
        from: &NodeId,
        message: &Message,
    ) -> Result<Plan, AllocError>
        requires site { settled.now.site ≡ site_of self.now }
        requires bound { cell_of state.now ≡ rules.Held settled.now.bound }
        requires other { bytes_eq from.now self.now.here ≡ false }
        ensures { IfOk result (λ p. p ≡ planned (site_of self.now) (held_hears (site_of self.now) settled.now.bound from.now message.now)) }
    {
        match message {
            Message::Admin { body, .. } => self.hears_admin(alloc, state, settled, from, body),
            Message::Scabbard {
                from: service,
                to,
                body,
                ..
            } => settled.hears_service(alloc, from, service, to, body),
        }
    }
}
