//! A message comes from a service on another node.
ghost use Rattle.std.specs.{Prelude.{◌≡◌, true, false, IsOk, IfOk}, Str.bytes_eq};
ghost use Rattle.spl_circuit.specs.Rules.{is_member};
ghost use Rattle.spl_wire.specs.declared.answer.Answer.TheVariants as answer;
ghost use Rattle.spl_cell_rules.specs.{Cells.{Replies, Tells}, Batches.{way, routed, serves_other, hears_routed, hears_service}, Plans.planned};
ghost use Rattle.spl_cell.specs.Sites.{site_of};

use crate::held::Held;
use crate::plans::{refuses, tells_only};
use crate::settled::Settled;
use crate::site::Site;
use spl_agree::{CommitMsg, Generation, Note, Round};
use spl_base::{NodeId, ServiceId};
use spl_command::Batch;
use spl_router::{RouteFault, route};
use spl_scabbard::Service;
use spl_wire::{Answer, Message, Plan, Refusal};
use std::alloc::{AllocError, Global};

impl Site {
    /// The vote is no, from one service to another.
    fn declines_batch(
        &self,
        alloc: Global,
        from_node: &NodeId,
        from: ServiceId,
        to: ServiceId,
        generation: Generation,
        round: Round,
    ) -> Result<Plan, AllocError>
        ensures { IfOk result (λ p. p ≡
            planned (site_of self.now) (Replies (Note.Declined round) from_node.now
            (Message.Scabbard self.now.circuit from to (CommitMsg.Vote generation round false)))) }
    {
        let body = CommitMsg::Vote {
            generation,
            round,
            yes: false,
        };
        let circuit = self.circuit;
        let vote = Message::Scabbard {
            circuit,
            from,
            to,
            body,
        };
        self.replies(alloc, Note::Declined(round), from_node, vote)
    }

    /// A message of another generation: a request is declined.
    fn serves_other(
        &self,
        alloc: Global,
        from_node: &NodeId,
        from: &ServiceId,
        to: &ServiceId,
        body: &CommitMsg<Batch>,
    ) -> Result<Plan, AllocError>
        ensures { IfOk result (λ p. p ≡ planned (site_of self.now) (serves_other (site_of self.now) from_node.now from.now to.now body.now)) }
    {
        match body {
            CommitMsg::VoteRequest {
                generation,
                round,
                ..
            } => self.declines_batch(alloc, from_node, *to, *from, *generation, *round),
            _ => Ok(self.ignores(alloc)),
        }
    }
}

impl Held {
    /// Whether a message from a service on another node to a service here goes on, or why not. One
    /// that does comes from a member.
    #[tactic(auto, using(crate::proofs::Rosters::sender_is_member))]
    #[inline(always)]
    fn way(&self, from_node: &NodeId, from: &ServiceId, to: &ServiceId) -> Result<(), RouteFault>
        ensures value { result ≡ way self.now.site self.now.bound from_node.now from.now to.now }
        ensures member { IsOk result → is_member self.now.bound.definition from_node.now ≡ true }
    {
        let active = self.is_open() && self.runs();
        let definition = Some(self.definition());
        route(definition, active, from_node, from, to, &self.site.here)
    }

    /// Whether a message between these services would be delivered.
    pub(crate) fn routes(
        &self,
        alloc: Global,
        from_node: &NodeId,
        from: &ServiceId,
        to: &ServiceId,
    ) -> Plan
        ensures { result ≡ planned self.now.site (routed (way self.now.site self.now.bound from_node.now from.now to.now) (Tells answer.Routed)) }
    {
        match self.way(from_node, from, to) {
            Ok(()) => tells_only(alloc, Answer::Routed),
            Err(fault) => refuses(alloc, Refusal::NotRouted(fault)),
        }
    }
}

impl Settled<'_> {
    /// A message that is routed.
    fn hears_routed(
        &self,
        alloc: Global,
        from_node: &NodeId,
        from: &ServiceId,
        to: &ServiceId,
        body: &CommitMsg<Batch>,
    ) -> Result<Plan, AllocError>
        requires other { bytes_eq from_node.now self.now.site.here ≡ false }
        requires member { is_member self.now.bound.definition from_node.now ≡ true }
        ensures { IfOk result (λ p. p ≡ planned self.now.site (hears_routed self.now.site self.now.bound from_node.now from.now to.now body.now)) }
    {
        let held = self.held();
        if body.generation() != held.definition().generation {
            return held.site.serves_other(alloc, from_node, from, to, body);
        }
        self.hears::<Service>(alloc, from_node, body)
    }

    /// A message comes from a service on another node to a service here.
    pub(crate) fn hears_service(
        &self,
        alloc: Global,
        from_node: &NodeId,
        from: &ServiceId,
        to: &ServiceId,
        body: &CommitMsg<Batch>,
    ) -> Result<Plan, AllocError>
        requires other { bytes_eq from_node.now self.now.site.here ≡ false }
        ensures { IfOk result (λ p. p ≡ planned self.now.site (hears_service self.now.site self.now.bound from_node.now from.now to.now body.now)) }
    {
        match self.held().way(from_node, from, to) {
            Ok(()) => self.hears_routed(alloc, from_node, from, to, body),
            Err(fault) => Ok(refuses(alloc, Refusal::NotRouted(fault))),
        }
    }
}
