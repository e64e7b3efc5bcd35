//! What a process of one kind keeps of all rounds.

use crate::{Group, Name, PaxosMsg, PaxosRecord, Stepped};
use spl_agree::Round;
use std::alloc::{AllocError, Global};

/// What a process of one kind keeps of all rounds, and what a message gives there.
pub trait Keeps: Drop {
    ghost use Rattle.std.specs.Prelude.{◌≡◌, ◌<◌, ℕ, OnOk, IfOk};
    ghost use Rattle.spl_acceptor.specs.{Records.{round_kept, recorded_if_any, IsChangedAt}, Rows.PaxosPlan, Steps.{IsStepped, WritesIn}, Worlds.round_of};
    ghost use Rattle.spl_acceptor.specs.declared.{group.Group.Group, message.{Name.Name, PaxosMsg.PaxosMsg}, record.PaxosRecord.PaxosRecord};

    /// What it keeps of a round.
    ghost Kept: { Type 0 };

    /// What it keeps of the round of this number.
    ghost kept: { Self → ℕ → Self.Kept };

    /// What it keeps of a round of which nothing was kept.
    ghost first: { Self.Kept };

    /// What a record makes of that.
    ghost with: { Self.Kept → PaxosRecord → Self.Kept };

    /// What a plan leaves.
    ghost after: { Self.Kept → PaxosPlan → Self.Kept };

    /// What a stop leaves.
    ghost stopped: { Self.Kept → Self.Kept };

    /// What a message gives.
    ghost heard: { Group → Self.Kept → Name → PaxosMsg → PaxosPlan };

    /// What a process of a run of so many members may be told.
    ghost may_hear: { ℕ → PaxosMsg → Type 0 };

    /// What a step gives.
    type Plan: Drop;

    /// The same as the definitions have it.
    ghost plan_of: { Self.Plan → PaxosPlan };

    /// Nothing is kept of any round; nothing is allocated.
    fn new(alloc: Global) -> Self
        ensures { (r : ℕ) → kept result r ≡ first };

    /// What a message gives; nothing is changed yet. The only error is that memory ran out.
    fn plan(
        &self,
        alloc: Global,
        group: Group,
        from: Name,
        message: &PaxosMsg,
    ) -> Result<Self::Plan, AllocError>
        requires few { group.faults < 128 }
        ensures { IfOk result (λ p. plan_of p ≡ heard group (kept self.now (round_of message.now)) from message.now) };

    /// The record of a plan, where it has one.
    fn change(plan: &Self::Plan) -> &Option<PaxosRecord>
        ensures { result.now ≡ (plan_of plan.now).change };

    /// Carries out a plan in its round. The only error is that memory ran out; what is kept may then be less.
    fn apply(
        &mut self,
        alloc: Global,
        round: Round,
        plan: Self::Plan,
    ) -> Result<Stepped, AllocError>
        ensures done { OnOk result (IsChangedAt (kept self.old) round (λ s. after s (plan_of plan)) (kept self.new)) }
        ensures told { IfOk result (λ s. IsStepped s (plan_of plan)) };

    /// Makes the change of one record more. The only error is that memory ran out; what is kept may then be less.
    fn replay(&mut self, alloc: Global, change: &PaxosRecord) -> Result<(), AllocError>
        ensures { OnOk result (IsChangedAt (kept self.old) (round_kept change.now) (λ s. with s change.now) (kept self.new)) };

    /// Of what a plan leaves a stop leaves what the plan's record makes.
    ghost lasts: { (s : Self.Kept) (p : PaxosPlan) → stopped (after s p) ≡ recorded_if_any with (stopped s) p.change };

    /// What a stop forgets isn't made by records.
    ghost alike: { (s : Self.Kept) (x : PaxosRecord) → stopped (with s x) ≡ with (stopped s) x };

    /// A stop forgets nothing where nothing was kept.
    ghost blank: { stopped first ≡ first };

    /// A message gives a record of its own round, of one of the run's members.
    ghost writes: { (g : Group) (n : ℕ) (s : Self.Kept) (from : Name) (m : PaxosMsg) → may_hear n m → WritesIn (round_of m) n (heard g s from m) };
}
