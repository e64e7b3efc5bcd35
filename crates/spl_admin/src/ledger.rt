//! The acts that the members of a circuit have agreed on.
ghost use Rattle.std.specs.{Prelude.{◌≡◌, [], length, None, IfOk}, Str.bytes_eq};
ghost use Rattle.spl_circuit.specs.{Rules.broken, Nodes.{has_node, node_or}, Lifecycle.{life, current, disbanding_of}, Acts.{is_node, misfit_kind, misfit}};
ghost use Rattle.spl_circuit.specs.{Acts.admits_kind, Equality.same_definition};
ghost use Rattle.spl_admin.specs.Kept.{accepted_members};

use crate::standing::Standing;
use spl_agree::{Admit, Place, Reason};
use spl_base::{NodeId, Value};
use spl_circuit::{
    Act, ActKind, CheckedDefinition, Definition, Lifecycle, Members, VERSION_TOO_LOW,
};
use std::alloc::{AllocError, Global};
use std::marker::Model;

/// The acts applied so far to a circuit of one definition, and what they have brought it to
/// (docs/RULES.md, Lifecycle). Contracts see the definition and the acts.
#[derive(Drop)]
pub struct Ledger {
    pub(crate) definition: CheckedDefinition,
    pub(crate) acts: Vec<Act>,
    pub(crate) standing: Standing,
}

impl Model for Ledger {
    ghost use Rattle.std.specs.Prelude.{◌≡◌, ◌<◌, ◌^◌, length, None};
    ghost use Rattle.spl_circuit.specs.{Rules.broken, Lifecycle.life};
    ghost use Rattle.spl_admin.specs.Kept.{LedgerView};

    ghost Value = { LedgerView };

    ghost view = { λ s. record { definition = s.definition; acts = s.acts.items } };

    ghost invariant = { λ s. (s.standing ≡ life s.definition s.acts.items) × (length s.acts.items < 2 ^ 32) × (broken s.definition ≡ None) };
}

impl Ledger {
    /// No acts, of a circuit of this definition.
    pub fn new(alloc: Global, definition: CheckedDefinition) -> Ledger
        requires valid { broken definition ≡ None }
        ensures { result ≡ record { definition = definition; acts = [] } }
    {
        Ledger {
            definition,
            acts: Vec::new(alloc),
            standing: Standing::new(alloc),
        }
    }

    /// The definition of the circuit, which breaks no rule.
    pub fn definition(&self) -> &Definition
        ensures value { result.now ≡ self.now.definition }
        ensures valid { broken self.now.definition ≡ None }
    {
        self.definition.get()
    }

    /// The same definition, to be shared.
    pub fn shared_definition(&self) -> &CheckedDefinition
        ensures { result.now ≡ self.now.definition }
    {
        &self.definition
    }

    /// How many acts are applied.
    pub fn acts(&self) -> u32
        ensures { result ≡ length self.now.acts }
    {
        self.acts.len() as u32
    }

    /// The acts, in the order in which they were applied.
    pub fn history(&self) -> &[Act]
        ensures { result.now ≡ self.now.acts }
    {
        &self.acts
    }

    /// Where the circuit stands.
    pub fn lifecycle(&self) -> Lifecycle
        ensures { result ≡ (life self.now.definition self.now.acts).state }
    {
        self.standing.lifecycle()
    }

    /// The node that proposed the circuit, if one did.
    pub fn requester(&self) -> Option<NodeId>
        ensures { result ≡ (life self.now.definition self.now.acts).circuit.requester }
    {
        self.standing.requester()
    }

    /// The place of the disband that is open, if one is.
    pub fn disbanding(&self) -> Option<Place>
        ensures { result ≡ disbanding_of (life self.now.definition self.now.acts) }
    {
        self.standing.disbanding()
    }

    /// Whether the node asked for what is open: the circuit, or the disband once there is one.
    pub fn requested(&self, node: &NodeId) -> bool
        ensures { result ≡ is_node (current (life self.now.definition self.now.acts)).requester node.now }
    {
        self.standing.current().is_requester(node)
    }

    /// Whether the node has accepted it.
    pub fn accepted(&self, node: &NodeId) -> bool
        ensures { result ≡ has_node (current (life self.now.definition self.now.acts)).accepted node.now }
    {
        self.standing.current().has_accepted(node)
    }

    /// The members that have accepted it, in member order. The only error is that memory ran out.
    pub fn accepted_members(&self, alloc: Global) -> Result<Members, AllocError>
        ensures { IfOk result (λ ms. ms ≡ accepted_members self.now) }
    {
        let mut members = Members::new(alloc);
        for member in self.definition().members.as_slice() {
            if self.accepted(member) {
                members.push(*member)?;
            }
        }
        Ok(members)
    }

    /// Why the act can't be the next one, if it can't.
    pub(crate) fn misfit(&self, act: &Act) -> Option<Reason>
        ensures { result ≡ misfit self.now.definition self.now.acts act.now }
    {
        if self.definition().is_member(&act.node) {
            self.misfit_kind(&act.node, &act.kind)
        } else {
            Some(Reason::NOT_A_MEMBER)
        }
    }

    fn misfit_kind(&self, node: &NodeId, kind: &ActKind) -> Option<Reason>
        ensures { result ≡ misfit_kind self.now.definition self.now.acts node.now kind.now }
    {
        match kind {
            ActKind::Propose(proposed) => {
                if !is_same(proposed.get(), self.definition()) {
                    return Some(Reason::OTHER_DEFINITION);
                }
                if self.acts.is_empty() {
                    None
                } else {
                    Some(Reason::WRONG_LIFECYCLE)
                }
            }
            ActKind::Accept | ActKind::Reject => self.standing.misfit_vote(node),
            ActKind::Remove => self.standing.misfit_removal(node),
            ActKind::Disband => {
                if self.definition().version != 2 {
                    return Some(VERSION_TOO_LOW);
                }
                if self.standing.is_active() {
                    None
                } else {
                    Some(Reason::WRONG_LIFECYCLE)
                }
            }
            ActKind::DisbandAccept(place) | ActKind::DisbandReject(place) => {
                self.standing.misfit_disband_vote(*place, node)
            }
            ActKind::DisbandRemove(place) => self.standing.misfit_disband_removal(*place, node),
        }
    }

    /// What becomes of an act of this kind that its own node forwards.
    pub(crate) fn admits_kind(&self, kind: &ActKind) -> Admit
        ensures { result ≡ admits_kind self.now.definition kind.now }
    {
        match kind {
            ActKind::Propose(proposed) => {
                if is_same(proposed.get(), self.definition()) {
                    Admit::Take
                } else {
                    Admit::Return(Reason::OTHER_DEFINITION)
                }
            }
            _ => Admit::Take,
        }
    }

    /// Whether the member at a position is this node. After the members there is the empty id,
    /// which is no node's.
    pub(crate) fn is_at(&self, position: u8, node: &NodeId) -> bool
        ensures { result ≡ bytes_eq (node_or self.now.definition.members [] position) node.now }
    {
        match self.definition().members.get(position as usize) {
            Some(member) => *member == *node,
            None => node.bytes().is_empty(),
        }
    }
}

fn is_same(a: &Definition, b: &Definition) -> bool
    ensures { result ≡ same_definition a.now b.now }
{
    a.same(b)
}
