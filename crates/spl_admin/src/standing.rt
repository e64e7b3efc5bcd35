//! What the committed acts have brought a circuit to, kept from act to act.
ghost use Rattle.std.specs.Prelude.{◌≡◌, ◌&&◌, ◌==◌, [], ◌∷◌, Some, OnOk, OnErr, IfOk};
ghost use Rattle.spl_circuit.specs.{Nodes.has_node, Lifecycle.{no_proposal, no_life, has_all, asked_at, accepted_by, life_after, is_proposed, is_active}};
ghost use Rattle.spl_circuit.specs.{Lifecycle.{current, disbanding_of, is_disbanding_at}, Acts.{is_node, misfit_vote, misfit_removal}};

use spl_agree::{Place, Reason};
use spl_base::NodeId;
use spl_circuit::{Act, ActKind, Definition, Lifecycle};
use std::alloc::{AllocError, Global};
use std::marker::Model;

/// What the members are asked for: at which place, by whom, and who has accepted, in their order.
#[derive(Drop)]
pub(crate) struct Proposal {
    place: u32,
    requester: Option<NodeId>,
    accepted: Vec<NodeId>,
}

impl Model for Proposal {
    ghost use Rattle.spl_circuit.specs.Lifecycle.{Proposal as Asked};

    ghost Value = { Asked };

    ghost view = { λ p. record { place = p.place; requester = p.requester; accepted = p.accepted.items } };
}

impl Proposal {
    /// Nothing was asked for.
    fn none(alloc: Global) -> Proposal
        ensures { result ≡ no_proposal }
    {
        Proposal {
            place: 0,
            requester: None,
            accepted: Vec::new(alloc),
        }
    }

    /// A node asks by its act at this place, and is the first that accepts.
    fn asked(alloc: Global, place: u32, node: NodeId) -> Result<Proposal, AllocError>
        ensures { IfOk result (λ p. p ≡ asked_at place node) }
    {
        let mut accepted = Vec::new(alloc);
        accepted.push(node)?;
        Ok(Proposal {
            place,
            requester: Some(node),
            accepted,
        })
    }

    pub(crate) fn is_requester(&self, node: &NodeId) -> bool
        ensures { result ≡ is_node self.now.requester node.now }
    {
        match &self.requester {
            Some(requester) => *requester == *node,
            None => false,
        }
    }

    pub(crate) fn has_accepted(&self, node: &NodeId) -> bool
        ensures { result ≡ has_node self.now.accepted node.now }
    {
        self.accepted.contains(node)
    }

    fn has_all(&self, definition: &Definition) -> bool
        ensures { result ≡ has_all definition.now.members self.now.accepted }
    {
        definition
            .members
            .as_slice()
            .iter()
            .all(|m| self.has_accepted(m))
    }

    /// Why a node can't accept or reject it, if it can't.
    fn misfit_vote(&self, admitted: bool, node: &NodeId) -> Option<Reason>
        ensures { result ≡ misfit_vote admitted self.now node.now }
    {
        if !admitted {
            return Some(Reason::WRONG_LIFECYCLE);
        }
        if self.has_accepted(node) {
            Some(Reason::ALREADY_ACCEPTED)
        } else {
            None
        }
    }

    /// Why a node can't take it back, if it can't.
    fn misfit_removal(&self, admitted: bool, node: &NodeId) -> Option<Reason>
        ensures { result ≡ misfit_removal admitted self.now node.now }
    {
        if !admitted {
            return Some(Reason::WRONG_LIFECYCLE);
        }
        if self.is_requester(node) {
            None
        } else {
            Some(Reason::NOT_REQUESTER)
        }
    }

    fn accept(&mut self, node: NodeId) -> Result<(), AllocError>
        ensures ok { OnOk result (self.new ≡ accepted_by self.old node) }
        ensures err { OnErr result (self.new ≡ self.old) }
    {
        self.accepted.push(node)?;
        Ok(())
    }
}

/// Where a circuit stands, its proposal, and the last one to disband it (docs/RULES.md, Lifecycle).
#[derive(Drop)]
pub(crate) struct Standing {
    lifecycle: Lifecycle,
    circuit: Proposal,
    disband: Proposal,
}

impl Model for Standing {
    ghost use Rattle.spl_circuit.specs.Lifecycle.{Life};

    ghost Value = { Life };

    ghost view = { λ s. record { state = s.lifecycle; circuit = s.circuit; disband = s.disband } };
}

impl Standing {
    /// Where nothing was proposed.
    pub(crate) fn new(alloc: Global) -> Standing
        ensures { result ≡ no_life }
    {
        Standing {
            lifecycle: Lifecycle::None,
            circuit: Proposal::none(alloc),
            disband: Proposal::none(alloc),
        }
    }

    pub(crate) fn lifecycle(&self) -> Lifecycle
        ensures { result ≡ self.now.state }
    {
        self.lifecycle
    }

    pub(crate) fn requester(&self) -> Option<NodeId>
        ensures { result ≡ self.now.circuit.requester }
    {
        self.circuit.requester
    }

    /// The proposal that is reported.
    pub(crate) fn current(&self) -> &Proposal
        ensures { result.now ≡ current self.now }
    {
        match self.lifecycle {
            Lifecycle::Disbanding | Lifecycle::Disbanded => &self.disband,
            _ => &self.circuit,
        }
    }

    pub(crate) fn is_proposed(&self) -> bool
        ensures { result ≡ is_proposed self.now.state }
    {
        matches!(self.lifecycle, Lifecycle::Proposed)
    }

    pub(crate) fn is_active(&self) -> bool
        ensures { result ≡ is_active self.now.state }
    {
        matches!(self.lifecycle, Lifecycle::Active)
    }

    fn is_disbanding_at(&self, place: Place) -> bool
        ensures { result ≡ is_disbanding_at self.now place }
    {
        matches!(self.lifecycle, Lifecycle::Disbanding) && self.disband.place == place.0
    }

    /// The place of the disband that is open, if one is.
    pub(crate) fn disbanding(&self) -> Option<Place>
        ensures { result ≡ disbanding_of self.now }
    {
        match self.lifecycle {
            Lifecycle::Disbanding => Some(Place(self.disband.place)),
            _ => None,
        }
    }

    /// Why a node can't accept or reject the circuit, if it can't.
    pub(crate) fn misfit_vote(&self, node: &NodeId) -> Option<Reason>
        ensures { result ≡ misfit_vote (is_proposed self.now.state) self.now.circuit node.now }
    {
        self.circuit.misfit_vote(self.is_proposed(), node)
    }

    /// Why a node can't take the circuit back, if it can't.
    pub(crate) fn misfit_removal(&self, node: &NodeId) -> Option<Reason>
        ensures { result ≡ misfit_removal (is_proposed self.now.state) self.now.circuit node.now }
    {
        self.circuit.misfit_removal(self.is_proposed(), node)
    }

    /// Why a node can't accept or reject the disband at this place, if it can't.
    pub(crate) fn misfit_disband_vote(&self, place: Place, node: &NodeId) -> Option<Reason>
        ensures { result ≡ misfit_vote (is_disbanding_at self.now place) self.now.disband node.now }
    {
        self.disband.misfit_vote(self.is_disbanding_at(place), node)
    }

    /// Why a node can't take it back, if it can't.
    pub(crate) fn misfit_disband_removal(&self, place: Place, node: &NodeId) -> Option<Reason>
        ensures { result ≡ misfit_removal (is_disbanding_at self.now place) self.now.disband node.now }
    {
        self.disband
            .misfit_removal(self.is_disbanding_at(place), node)
    }

    fn accept(
        &mut self,
        definition: &Definition,
        place: u32,
        node: NodeId,
    ) -> Result<(), AllocError>
        ensures ok { OnOk result (self.new ≡ life_after definition.now place self.old node ActKind.Accept) }
        ensures err { OnErr result (self.new ≡ self.old) }
    {
        self.circuit.accept(node)?;
        if self.circuit.has_all(definition) {
            self.lifecycle = Lifecycle::Active;
        }
        Ok(())
    }

    fn accept_disband(
        &mut self,
        definition: &Definition,
        place: u32,
        node: NodeId,
        at: Place,
    ) -> Result<(), AllocError>
        ensures ok { OnOk result (self.new ≡ life_after definition.now place self.old node (ActKind.DisbandAccept at)) }
        ensures err { OnErr result (self.new ≡ self.old) }
    {
        self.disband.accept(node)?;
        if self.disband.has_all(definition) {
            self.lifecycle = Lifecycle::Disbanded;
        }
        Ok(())
    }

    /// One act more, at this place. When memory runs out nothing has changed.
    pub(crate) fn take(
        &mut self,
        alloc: Global,
        definition: &Definition,
        place: u32,
        act: &Act,
    ) -> Result<(), AllocError>
        ensures ok { OnOk result (self.new ≡ life_after definition.now place self.old act.now.node act.now.kind) }
        ensures err { OnErr result (self.new ≡ self.old) }
    {
        match &act.kind {
            ActKind::Propose(_) => {
                self.circuit = Proposal::asked(alloc, place, act.node)?;
                self.lifecycle = Lifecycle::Proposed;
            }
            ActKind::Accept => self.accept(definition, place, act.node)?,
            ActKind::Reject => self.lifecycle = Lifecycle::Rejected,
            ActKind::Remove => self.lifecycle = Lifecycle::Removed,
            ActKind::Disband => {
                self.disband = Proposal::asked(alloc, place, act.node)?;
                self.lifecycle = Lifecycle::Disbanding;
            }
            ActKind::DisbandAccept(at) => {
                self.accept_disband(definition, place, act.node, *at)?;
            }
            ActKind::DisbandReject(_) | ActKind::DisbandRemove(_) => {
                self.lifecycle = Lifecycle::Active;
            }
        }
        Ok(())
    }
}
