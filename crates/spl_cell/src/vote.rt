//! A node votes, takes back what it asked for, or asks to disband.
ghost use Rattle.std.specs.{Prelude.{◌≡◌, ◌-◌, ◌^◌, ◌<◌, false, is_some, slice_get, IfOk}, List.list_any, Str.bytes_eq};
ghost use Rattle.spl_agree.specs.Member.{known};
ghost use Rattle.spl_circuit.specs.{Acts.act_rules, Lifecycle.is_asked, declared.act.ActKind.ActKind as Kind};
ghost use Rattle.spl_cell_rules.specs.Cells.{vote_kind, removal_kind, submits_next, votes, removes, disbands, next_act, is_act_pending, own_life};
ghost use Rattle.spl_cell_rules.specs.Plans.{planned};
ghost use Rattle.spl_cell.specs.{Lanes.{IsDueAt, admin_kind}, Mays.some_is};

use crate::held::Held;
use crate::plans::{Say, refuses};
use crate::settled::Settled;
use spl_admin::{ActKey, Ledger};
use spl_agree::{GroupEvent, MOST_PENDING};
use spl_base::NodeId;
use spl_circuit::{Act, ActKind, Lifecycle};
use spl_wire::{Plan, Refusal};
use std::alloc::{AllocError, Global};

impl Held {
    /// Whether the pending act at a position is one of a node.
    #[tactic(auto, using(crate::proofs::Pendings::get_seconds))]
    fn is_pending_of(&self, at: u32, node: &NodeId) -> bool
        ensures { result ≡ some_is (λ v. bytes_eq v.node node.now) (slice_get self.now.bound.acts.pending at) }
    {
        match self.acts.queue().pending_at(at) {
            Some(act) => act.node == *node,
            None => false,
        }
    }

    /// Whether an act of a node is pending here.
    #[tactic(auto, using(crate::proofs::Pendings::any_step))]
    pub(crate) fn has_pending_of(&self, node: &NodeId) -> bool
        ensures { result ≡ list_any (λ v. bytes_eq v.node node.now) self.now.bound.acts.pending }
    {
        for i in 0..self.pending::<Ledger>() {
            if self.is_pending_of(i, node) {
                return true;
            }
        }
        false
    }

    /// Whether the next act of this node is known here.
    fn knows_next(&self) -> bool
        requires { self.now.bound.turn < 2 ^ 32 - 1 }
        ensures { result ≡
            is_some (known (act_rules self.now.bound.definition) self.now.bound.acts (next_act self.now.site.here self.now.bound.turn ActKind.Accept)) }
    {
        let key = ActKey {
            node: self.site.here,
            turn: self.turn + 1,
        };
        self.acts.known(&key).is_some()
    }

    /// Whether no further act of this node may be pending here.
    fn is_act_pending(&self) -> bool
        ensures pending { result ≡ is_act_pending self.now.site self.now.bound }
        ensures turn { result ≡ false → self.now.bound.turn < 2 ^ 32 - 1 }
        ensures due { result ≡ false → (k : Kind) → IsDueAt admin_kind self.now (GroupEvent.Submit (next_act self.now.site.here self.now.bound.turn k)) }
    {
        if self.has_pending_of(&self.site.here) {
            return true;
        }
        if self.pending::<Ledger>() as usize == MOST_PENDING {
            return true;
        }
        if self.turn == u32::MAX {
            return true;
        }
        self.knows_next()
    }

    /// The next act of this node.
    fn next_act(&self, kind: ActKind) -> Act
        requires { self.now.bound.turn < 2 ^ 32 - 1 }
        ensures { result ≡ next_act self.now.site.here self.now.bound.turn kind }
    {
        Act {
            node: self.site.here,
            turn: self.turn + 1,
            kind,
        }
    }

    /// Whether a proposal is open here: that of the circuit, or one to disband it.
    fn is_asked(&self) -> bool
        ensures { result ≡ is_asked (own_life self.now.bound).state }
    {
        matches!(
            self.lifecycle(),
            Lifecycle::Proposed | Lifecycle::Disbanding
        )
    }

    /// How the node accepts or rejects what is asked for.
    fn vote_kind(&self, accept: bool) -> ActKind
        ensures { result ≡ vote_kind (own_life self.now.bound) accept }
    {
        match (self.disbanding(), accept) {
            (Some(place), true) => ActKind::DisbandAccept(place),
            (Some(place), false) => ActKind::DisbandReject(place),
            (None, true) => ActKind::Accept,
            (None, false) => ActKind::Reject,
        }
    }

    /// How the node takes back what it asked for.
    fn removal_kind(&self) -> ActKind
        ensures { result ≡ removal_kind (own_life self.now.bound) }
    {
        match self.disbanding() {
            Some(place) => ActKind::DisbandRemove(place),
            None => ActKind::Remove,
        }
    }
}

impl Settled<'_> {
    /// The next act of this node is submitted, where it takes part.
    fn submits_next(&self, alloc: Global, kind: ActKind) -> Result<Plan, AllocError>
        requires turn { self.now.bound.turn < 2 ^ 32 - 1 }
        requires due { IsDueAt admin_kind self.now (GroupEvent.Submit (next_act self.now.site.here self.now.bound.turn kind)) }
        ensures { IfOk result (λ p. p ≡ planned self.now.site (submits_next self.now.site self.now.bound kind)) }
    {
        let held = self.held();
        if !held.is_open() {
            return Ok(refuses(alloc, Refusal::Closed));
        }
        let event = GroupEvent::Submit(held.next_act(kind));
        self.goes_on::<Ledger>(alloc, Say::Submitted, &held.site.here, &event)
    }

    /// The node accepts or rejects.
    pub(crate) fn votes(&self, alloc: Global, accept: bool) -> Result<Plan, AllocError>
        ensures { IfOk result (λ p. p ≡ planned self.now.site (votes self.now.site self.now.bound (vote_kind (own_life self.now.bound) accept))) }
    {
        let held = self.held();
        if held.is_act_pending() {
            return Ok(refuses(alloc, Refusal::ActPending));
        }
        if !held.is_asked() {
            return Ok(refuses(alloc, Refusal::NoProposal));
        }
        if held.has_accepted() {
            return Ok(refuses(alloc, Refusal::AlreadyVoted));
        }
        self.submits_next(alloc, held.vote_kind(accept))
    }

    /// The node takes back what it asked for.
    pub(crate) fn removes(&self, alloc: Global) -> Result<Plan, AllocError>
        ensures { IfOk result (λ p. p ≡ planned self.now.site (removes self.now.site self.now.bound (removal_kind (own_life self.now.bound)))) }
    {
        let held = self.held();
        if held.is_act_pending() {
            return Ok(refuses(alloc, Refusal::ActPending));
        }
        if !held.is_asked() {
            return Ok(refuses(alloc, Refusal::NoProposal));
        }
        if !held.is_requester() {
            return Ok(refuses(alloc, Refusal::NotRequester));
        }
        self.submits_next(alloc, held.removal_kind())
    }

    /// The node asks to disband the circuit.
    pub(crate) fn disbands(&self, alloc: Global) -> Result<Plan, AllocError>
        ensures { IfOk result (λ p. p ≡ planned self.now.site (disbands self.now.site self.now.bound)) }
    {
        let held = self.held();
        if held.is_act_pending() {
            return Ok(refuses(alloc, Refusal::ActPending));
        }
        if !held.is_active() {
            return Ok(refuses(alloc, Refusal::NotActive));
        }
        if !held.is_open() {
            return Ok(refuses(alloc, Refusal::Closed));
        }
        if held.definition().version == 1 {
            return Ok(refuses(alloc, Refusal::VersionTooLow));
        }
        self.submits_next(alloc, ActKind::Disband)
    }
}
