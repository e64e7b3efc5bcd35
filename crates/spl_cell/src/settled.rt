//! A bound cell that is settled.
ghost use Rattle.std.specs.{Prelude.{◌≡◌, true, false, IfOk}, Str.bytes_eq};
ghost use Rattle.spl_agree.specs.Fits.{generation_of};
ghost use Rattle.spl_circuit.specs.Nodes.{position};
ghost use Rattle.spl_cell_rules.specs.Cells.{Delivered};
ghost use Rattle.spl_cell.specs.{Lanes.{IsDueAt, reaches, row_at, goes_on}, Says.say_of, Views.IsSettledHeld};

use crate::held::Held;
use crate::lane::Lane;
use crate::plans::Say;
use spl_agree::{CommitMsg, GroupEvent, GroupPlan};
use spl_base::NodeId;
use spl_wire::{ChangeList, Plan};
use std::alloc::{AllocError, Global};
use std::marker::Model;

/// A bound cell in each of whose groups no round is open, or one is as it has to be.
#[derive(Drop)]
pub(crate) struct Settled<'a> {
    held: &'a Held,
}

impl<'a> Model for Settled<'a> {
    ghost use Rattle.spl_cell.specs.Views.{HeldView, IsSettledHeld};

    ghost Value = { HeldView };

    ghost view = { λ s. s.held.now };

    ghost invariant = { λ s. IsSettledHeld s.held.now };
}

impl<'a> Settled<'a> {
    /// A bound cell that is settled.
    #[inline(always)]
    pub(crate) fn new(held: &'a Held) -> Settled<'a>
        requires settled { IsSettledHeld held.now }
        ensures { result ≡ held.now }
    {
        Settled { held }
    }

    /// The bound cell.
    #[inline(always)]
    pub(crate) fn held(&self) -> &'a Held
        ensures value { result.now ≡ self.now }
        ensures settled { IsSettledHeld self.now }
    {
        self.held
    }

    /// What an event gives in a group.
    #[inline(always)]
    pub(crate) fn row<L: Lane>(
        &self,
        alloc: Global,
        event: &GroupEvent<L::Value>,
    ) -> Result<GroupPlan<L::Value>, AllocError>
        requires due { IsDueAt L.kind self.now event.now }
        ensures { IfOk result (λ p. p ≡ row_at L.kind self.now event.now) }
    {
        L::member(self.held()).plan(alloc, event)
    }

    /// What a message gives in a group.
    fn heard<L: Lane>(
        &self,
        alloc: Global,
        sender: u8,
        body: &CommitMsg<L::Value>,
    ) -> Result<GroupPlan<L::Value>, AllocError>
        requires due { IsDueAt L.kind self.now (GroupEvent.From sender body.now) }
        ensures { IfOk result (λ p. p ≡ row_at L.kind self.now (GroupEvent.From sender body.now)) }
    {
        L::member(self.held()).hear(alloc, sender, body)
    }

    /// A group goes on by an event. A message came from `back`.
    pub(crate) fn goes_on<L: Lane>(
        &self,
        alloc: Global,
        say: Say,
        back: &NodeId,
        event: &GroupEvent<L::Value>,
    ) -> Result<Plan, AllocError>
        requires answered { reaches L.kind self.now.bound.definition back.now ≡ true }
        requires due { IsDueAt L.kind self.now event.now }
        ensures { IfOk result (λ p. p ≡ goes_on L.kind self.now (say_of say) back.now event.now) }
    {
        let plan = self.row::<L>(alloc, event)?;
        let held = self.held();
        let first = ChangeList::new(alloc);
        held.site
            .lane_plan::<L>(alloc, say, first, held.definition(), back, plan)
    }

    /// A message of the cell's generation, from another node.
    #[tactic(auto, using(crate::proofs::Positions::sender_facts))]
    pub(crate) fn hears<L: Lane>(
        &self,
        alloc: Global,
        from: &NodeId,
        body: &CommitMsg<L::Value>,
    ) -> Result<Plan, AllocError>
        requires other { bytes_eq from.now self.now.site.here ≡ false }
        requires answered { reaches L.kind self.now.bound.definition from.now ≡ true }
        requires same { generation_of body.now ≡ self.now.bound.definition.generation }
        ensures { IfOk result (λ p. p ≡
            goes_on L.kind self.now Delivered from.now (GroupEvent.From (position self.now.bound.definition.members from.now) body.now)) }
    {
        let held = self.held();
        let definition = held.definition();
        let sender = definition.position(from);
        let plan = self.heard::<L>(alloc, sender, body)?;
        let first = ChangeList::new(alloc);
        held.site
            .lane_plan::<L>(alloc, Say::Delivered, first, definition, from, plan)
    }
}
