//! Messages of the groups of a circuit.
ghost use Rattle.std.specs.Prelude.{◌≡◌, ◌++◌, true, None, IfOk};
ghost use Rattle.spl_circuit.specs.Rules.{broken, is_member};
ghost use Rattle.spl_cell_rules.specs.Plans.{outgoing, group_sends};
ghost use Rattle.spl_cell.specs.{Lanes.{lane_of, reaches}, Sites.site_of};

use crate::lane::Lane;
use crate::site::Site;
use spl_agree::{CommitMsg, GroupSends};
use spl_base::{Boxed, NodeId};
use spl_circuit::Definition;
use spl_wire::{Outgoing, SendList};
use std::alloc::{AllocError, Global};

impl Site {
    /// A message of a group to the node at a position, or back where there is none.
    #[inline(always)]
    fn outgoing<L: Lane>(
        &self,
        alloc: Global,
        definition: &Definition,
        back: &NodeId,
        position: u8,
        body: CommitMsg<L::Value>,
    ) -> Result<Outgoing, AllocError>
        requires valid { broken definition.now ≡ None }
        requires member { is_member definition.now self.now.here ≡ true }
        requires answered { reaches L.kind definition.now back.now ≡ true }
        ensures { IfOk result (λ o. o ≡ outgoing (lane_of L.kind (site_of self.now) definition.now) back.now (position, body)) }
    {
        let to = definition.member_or(back, position);
        let message = L::message(self, definition, &to, body);
        let message = Boxed::new(alloc, message)?;
        Ok(Outgoing { to, message })
    }

    /// The messages, and after them those of a group of a definition.
    #[tactic(auto, using(crate::proofs::Steps::sends_more))]
    #[inline(always)]
    pub(crate) fn with_sends<L: Lane>(
        &self,
        alloc: Global,
        first: SendList,
        definition: &Definition,
        back: &NodeId,
        messages: GroupSends<L::Value>,
    ) -> Result<SendList, AllocError>
        requires valid { broken definition.now ≡ None }
        requires member { is_member definition.now self.now.here ≡ true }
        requires answered { reaches L.kind definition.now back.now ≡ true }
        ensures { IfOk result (λ ss. ss ≡ first ++ group_sends (lane_of L.kind (site_of self.now) definition.now) back.now messages) }
    {
        if messages.as_slice().is_empty() {
            return Ok(first);
        }
        let mut sends = first;
        for (position, body) in messages.into_vec() {
            sends.push(self.outgoing::<L>(alloc, definition, back, position, body)?)?;
        }
        Ok(sends)
    }
}
