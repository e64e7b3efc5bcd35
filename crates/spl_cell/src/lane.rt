//! The two groups of a cell, each by its content.
ghost use Rattle.std.specs.Prelude.{◌≡◌, true, None};
ghost use Rattle.spl_agree.specs.Fits.{IsSettled};
ghost use Rattle.spl_circuit.specs.Rules.{broken, is_member};
ghost use Rattle.spl_cell_rules.specs.Plans.{service_on};
ghost use Rattle.spl_cell.specs.{Lanes.{LaneKind, lane_at, reaches}, Sites.site_of, Views.{HeldView, IsSettledHeld, IsSeated}};

use crate::held::Held;
use crate::site::Site;
use spl_admin::Ledger;
use spl_agree::{Agreed, CommitMsg, GroupChange, OpenMove};
use spl_base::{NodeId, ServiceId};
use spl_circuit::{Act, Definition};
use spl_command::Batch;
use spl_commit::Member;
use spl_scabbard::Service;
use spl_wire::{Change, Message};

/// The content of a group of a cell: what is the group's own there.
pub(crate) trait Lane: Agreed + Sized {
    ghost kind: { LaneKind Self.Value };

    /// A change of the group as one of the cell.
    fn change(change: GroupChange<Self::Value>) -> Change
        ensures { result ≡ kind.change change };

    /// A message of the group at a site to a node.
    fn message(
        site: &Site,
        definition: &Definition,
        to: &NodeId,
        body: CommitMsg<Self::Value>,
    ) -> Message
        requires valid { broken definition.now ≡ None }
        requires member { is_member definition.now site.now.here ≡ true }
        requires reached { reaches kind definition.now to.now ≡ true }
        ensures { result ≡ kind.message (site_of site.now) definition.now to.now body };

    /// The moves of the open rounds of the admin group and of the service group, where that of this
    /// one is moved.
    fn moves(opening: OpenMove) -> (OpenMove, OpenMove)
        ensures { result ≡ kind.moves opening };

    /// The node's member of the group.
    fn member(held: &Held) -> &Member<Self>
        ensures state { result.now.state ≡ kind.kept held.now.bound }
        ensures ruled { Self.rules result.now.content ≡ kind.rules held.now.bound.definition }
        ensures seated { IsSeated (lane_at kind held.now).group (lane_at kind held.now).here result.now };

    /// What is so in both groups of a settled cell is so in this one.
    ghost settles: { (h : HeldView) → IsSettledHeld h → IsSettled (lane_at kind h).group (lane_at kind h).here (kind.kept h.bound) };
}

impl Lane for Ledger {
    ghost use Rattle.spl_cell.specs.Lanes.{admin_kind};

    ghost kind = { admin_kind };

    ghost settles = { λ h s. s.0 };

    #[inline(always)]
    fn change(change: GroupChange<Act>) -> Change
        ensures { result ≡ admin_kind.change change }
    {
        Change::Admin(change)
    }

    #[inline(always)]
    fn message(site: &Site, _definition: &Definition, _to: &NodeId, body: CommitMsg<Act>) -> Message
        ensures { result ≡ Message.Admin site.now.circuit body }
    {
        let circuit = site.circuit;
        Message::Admin { circuit, body }
    }

    #[inline(always)]
    fn moves(opening: OpenMove) -> (OpenMove, OpenMove) {
        (opening, OpenMove::Keep)
    }

    #[inline(always)]
    fn member(held: &Held) -> &Member<Ledger> {
        &held.acts
    }
}

/// The service on a member.
#[tactic(auto, using(crate::proofs::Rosters::member_served))]
#[inline(always)]
fn service_on(definition: &Definition, node: &NodeId) -> ServiceId
    requires valid { broken definition.now ≡ None }
    requires member { is_member definition.now node.now ≡ true }
    ensures { result ≡ service_on definition.now node.now }
{
    definition.service_of(node).unwrap()
}

impl Lane for Service {
    ghost use Rattle.spl_cell.specs.Lanes.{service_kind};

    ghost kind = { service_kind };

    ghost settles = { λ h s. s.1 };

    #[inline(always)]
    fn change(change: GroupChange<Batch>) -> Change
        ensures { result ≡ service_kind.change change }
    {
        Change::Service(change)
    }

    /// A message goes from the service here to that on the node.
    #[inline(always)]
    fn message(site: &Site, definition: &Definition, to: &NodeId, body: CommitMsg<Batch>) -> Message
        requires valid { broken definition.now ≡ None }
        requires member { is_member definition.now site.now.here ≡ true }
        requires reached { reaches service_kind definition.now to.now ≡ true }
        ensures { result ≡ service_kind.message (site_of site.now) definition.now to.now body }
    {
        Message::Scabbard {
            circuit: site.circuit,
            from: service_on(definition, &site.here),
            to: service_on(definition, to),
            body,
        }
    }

    #[inline(always)]
    fn moves(opening: OpenMove) -> (OpenMove, OpenMove) {
        (OpenMove::Keep, opening)
    }

    #[inline(always)]
    fn member(held: &Held) -> &Member<Service> {
        &held.batches
    }
}
