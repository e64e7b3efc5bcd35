//! A bound cell.
ghost use Rattle.std.specs.{Prelude.{◌≡◌, [], true, Some, None, IfOk, if◌then◌else◌}, Option.option_copied};
ghost use Rattle.spl_agree.specs.Member.{values, new_member};
ghost use Rattle.spl_circuit.specs.{Nodes.{position, has_node}, Rules.{broken, is_member}, Lifecycle.{current, disbanding_of}, Acts.is_node};
ghost use Rattle.spl_cell_rules.specs.Cells.{fresh, admin_group, service_group, own_life, is_active_here, runs, keeps_batches, accepted_in_order};
ghost use Rattle.spl_cell.specs.{Sites.site_of, Views.IsSeated};

use crate::site::Site;
use spl_admin::Ledger;
use spl_agree::{Generation, Place};
use spl_base::NodeId;
use spl_circuit::{Act, CheckedDefinition, Definition, Lifecycle, Mark, Members};
use spl_command::Batch;
use spl_commit::Member;
use spl_scabbard::Service;
use spl_state::RunCache;
use std::alloc::{AllocError, Global};
use std::marker::Model;

/// What a bound cell keeps: its mark, the turn of the node, and the node's members in the admin
/// group, whose content has the definition, and in the service group.
#[derive(Drop)]
pub struct Held {
    pub(crate) site: Site,
    pub(crate) mark: Mark,
    pub(crate) turn: u32,
    pub(crate) acts: Member<Ledger>,
    pub(crate) batches: Member<Service>,
}

impl Model for Held {
    ghost use Rattle.spl_cell.specs.{Sites.site_of, Views.{HeldView, IsPlaced}};

    ghost Value = { HeldView };

    ghost view = { λ s. record {
      site = site_of s.site;
      bound = record {
        definition = s.acts.content.definition;
        mark = s.mark;
        turn = s.turn;
        acts = s.acts.state;
        batches = s.batches.state;
      };
    } };

    ghost invariant = { λ s. IsPlaced s.site.here s.acts.content.definition s.acts s.batches };
}

/// The fresh member of a node in the admin group of a definition.
#[tactic(auto, using(crate::proofs::Rosters::seat_facts))]
pub(crate) fn first_acts(
    alloc: Global,
    here: &NodeId,
    definition: CheckedDefinition,
) -> Member<Ledger>
    requires valid { broken definition ≡ None }
    requires member { is_member definition here.now ≡ true }
    ensures content { result.content ≡ record { definition = definition; acts = [] } }
    ensures fresh { result.state ≡ new_member }
    ensures seated { IsSeated (admin_group definition) (position definition.members here.now) result }
{
    let terms = definition.get();
    let generation = terms.generation;
    let count = terms.members.len() as u8;
    let coordinator = terms.position(&terms.admin_coordinator());
    let here = terms.position(here);
    let ledger = Ledger::new(alloc, definition);
    Member::new(alloc, ledger, generation, count, coordinator, here)
}

/// The fresh member of a node in the service group of a definition.
#[tactic(auto, using(crate::proofs::Rosters::seat_facts))]
fn first_batches(alloc: Global, here: &NodeId, definition: &Definition) -> Member<Service>
    requires valid { broken definition.now ≡ None }
    requires member { is_member definition.now here.now ≡ true }
    ensures content { result.content ≡ [] }
    ensures fresh { result.state ≡ new_member }
    ensures seated { IsSeated (service_group definition.now) (position definition.now.members here.now) result }
{
    let count = definition.members.len() as u8;
    let coordinator = definition.position(&definition.service_coordinator());
    let here = definition.position(here);
    let service = Service::new(alloc);
    Member::new(
        alloc,
        service,
        definition.generation,
        count,
        coordinator,
        here,
    )
}

impl Held {
    /// A cell that is bound to a definition, open and fresh.
    #[tactic(auto, using(crate::proofs::Rosters::seat_facts))]
    pub(crate) fn new(alloc: Global, site: Site, definition: CheckedDefinition) -> Held
        requires valid { broken definition ≡ None }
        requires member { is_member definition site.here ≡ true }
        ensures { result ≡ record { site = site_of site; bound = fresh definition } }
    {
        let batches = first_batches(alloc, &site.here, definition.get());
        let acts = first_acts(alloc, &site.here, definition);
        Held {
            site,
            mark: Mark::Open,
            turn: 0,
            acts,
            batches,
        }
    }

    /// Renews the digests of the state.
    pub(crate) fn renew(&mut self, cache: &mut RunCache)
        ensures { self.new ≡ self.old }
    {
        self.batches.renew(cache);
    }

    /// The acts that are committed here, and the definition, which breaks no rule.
    pub(crate) fn ledger(&self) -> &Ledger
        ensures definition { result.now.definition ≡ self.now.bound.definition }
        ensures acts { result.now.acts ≡ values self.now.bound.acts.history }
    {
        self.acts.content()
    }

    /// The acts that are committed here, in their order.
    pub fn acts(&self) -> &[Act]
        ensures { result.now ≡ values self.now.bound.acts.history }
    {
        self.ledger().history()
    }

    /// The batches that are committed here, in their order.
    pub fn batches(&self) -> &[Batch]
        ensures { result.now ≡ values self.now.bound.batches.history }
    {
        self.service().batches()
    }

    /// The definition, which breaks no rule, and of which the node is a member.
    pub fn definition(&self) -> &Definition
        ensures value { result.now ≡ self.now.bound.definition }
        ensures valid { broken self.now.bound.definition ≡ None }
        ensures member { is_member self.now.bound.definition self.now.site.here ≡ true }
    {
        self.acts.content().definition()
    }

    /// The same definition, to be shared.
    pub(crate) fn shared_definition(&self) -> &CheckedDefinition
        ensures { result.now ≡ self.now.bound.definition }
    {
        self.acts.content().shared_definition()
    }

    /// What the batches that are committed here have left.
    pub fn service(&self) -> &Service
        ensures { result.now ≡ values self.now.bound.batches.history }
    {
        self.batches.content()
    }

    /// Where the acts that are committed here have brought the circuit.
    pub(crate) fn lifecycle(&self) -> Lifecycle
        ensures { result ≡ (own_life self.now.bound).state }
    {
        self.ledger().lifecycle()
    }

    /// The node that proposed the circuit, if one did.
    pub(crate) fn requester(&self) -> Option<NodeId>
        ensures { result ≡ (own_life self.now.bound).circuit.requester }
    {
        self.ledger().requester()
    }

    /// The place of the disband that is open, if one is.
    pub(crate) fn disbanding(&self) -> Option<Place>
        ensures { result ≡ disbanding_of (own_life self.now.bound) }
    {
        self.ledger().disbanding()
    }

    /// Whether this node asked for what is open.
    pub(crate) fn is_requester(&self) -> bool
        ensures { result ≡ is_node (current (own_life self.now.bound)).requester self.now.site.here }
    {
        self.ledger().requested(&self.site.here)
    }

    /// Whether this node has accepted it.
    pub(crate) fn has_accepted(&self) -> bool
        ensures { result ≡ has_node (current (own_life self.now.bound)).accepted self.now.site.here }
    {
        self.ledger().accepted(&self.site.here)
    }

    /// The members that have accepted, in member order.
    pub(crate) fn accepted_in_order(&self, alloc: Global) -> Result<Members, AllocError>
        ensures { IfOk result (λ ms. ms ≡ accepted_in_order self.now.bound) }
    {
        self.ledger().accepted_members(alloc)
    }

    /// Whether the circuit is active here.
    pub(crate) fn is_active(&self) -> bool
        ensures { result ≡ is_active_here self.now.bound }
    {
        matches!(self.lifecycle(), Lifecycle::Active)
    }

    /// Whether the service group runs.
    pub(crate) fn runs(&self) -> bool
        ensures { result ≡ runs self.now.bound }
    {
        matches!(self.lifecycle(), Lifecycle::Active | Lifecycle::Disbanding)
    }

    /// What the batches that are committed here have left, where the service group runs.
    pub(crate) fn running_service(&self) -> Option<&Service>
        ensures { option_copied result ≡ (if runs self.now.bound then Some (values self.now.bound.batches.history) else None) }
    {
        if !self.runs() {
            return None;
        }
        Some(self.service())
    }

    /// Whether durable changes of the service group fit.
    pub(crate) fn keeps_batches(&self) -> bool
        ensures { result ≡ keeps_batches self.now.bound }
    {
        matches!(
            self.lifecycle(),
            Lifecycle::Active | Lifecycle::Disbanding | Lifecycle::Disbanded
        )
    }

    /// Whether the node takes part.
    pub(crate) fn is_open(&self) -> bool
        ensures { result ≡ Rattle.spl_cell_rules.specs.Cells.is_open_mark self.now.bound.mark }
    {
        matches!(self.mark, Mark::Open)
    }
}
