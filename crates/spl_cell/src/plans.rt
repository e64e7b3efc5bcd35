//! Plans of a cell.
ghost use Rattle.std.specs.Prelude.{◌≡◌, [], true, None, IfOk};
ghost use Rattle.spl_circuit.specs.Rules.{broken, is_member};
ghost use Rattle.spl_wire.specs.declared.answer.Answer.TheVariants as answer;
ghost use Rattle.spl_cell_rules.specs.{Cells.{Replies, said}, Plans.{group_plan, tells_only, planned, both_plans}};
ghost use Rattle.spl_cell.specs.{Lanes.{lane_of, reaches}, Says.say_of, Sites.site_of};

use crate::durable::with_changes;
use crate::lane::Lane;
use crate::site::Site;
use spl_admin::Ledger;
use spl_agree::{GroupPlan, Note, OpenMove};
use spl_base::{Boxed, NodeId};
use spl_circuit::{Act, Definition};
use spl_command::Batch;
use spl_scabbard::Service;
use spl_wire::{Answer, ChangeList, Message, Outgoing, Plan, Refusal, SendList};
use std::alloc::{AllocError, Global};

/// How a note of a group is answered.
#[derive(Clone, Copy)]
pub(crate) enum Say {
    /// As what was submitted.
    Submitted,
    /// As what a message did.
    Delivered,
    /// As what the admin group did where no service group runs.
    Alone,
}

impl Say {
    /// The answer.
    pub(crate) fn answer(self, note: Note) -> Answer
        ensures { result ≡ said (say_of self) note }
    {
        match self {
            Say::Submitted => Answer::Submitted { known: false },
            Say::Delivered => Answer::Delivered(note),
            Say::Alone => Answer::Notes {
                admin: note,
                service: Note::Off,
            },
        }
    }
}

/// An answer alone.
pub(crate) fn tells_only(alloc: Global, answer: Answer) -> Plan
    ensures { result ≡ tells_only answer }
{
    Plan {
        answer,
        changes: ChangeList::new(alloc),
        admin: OpenMove::Keep,
        service: OpenMove::Keep,
        sends: SendList::new(alloc),
    }
}

/// A refusal alone.
pub(crate) fn refuses(alloc: Global, refusal: Refusal) -> Plan
    ensures { result ≡ tells_only (answer.Refused refusal) }
{
    tells_only(alloc, Answer::Refused(refusal))
}

impl Site {
    /// A message to one node, and nothing changes.
    pub(crate) fn replies(
        &self,
        alloc: Global,
        note: Note,
        to: &NodeId,
        message: Message,
    ) -> Result<Plan, AllocError>
        ensures { IfOk result (λ p. p ≡ planned (site_of self.now) (Replies note to.now message)) }
    {
        let mut sends = SendList::new(alloc);
        let message = Boxed::new(alloc, message)?;
        sends.push(Outgoing { to: *to, message })?;
        Ok(Plan {
            answer: Answer::Delivered(note),
            changes: ChangeList::new(alloc),
            admin: OpenMove::Keep,
            service: OpenMove::Keep,
            sends,
        })
    }

    /// What a group of a definition gives, after first changes. A message came from `back`.
    #[inline(always)]
    pub(crate) fn lane_plan<L: Lane>(
        &self,
        alloc: Global,
        say: Say,
        first: ChangeList,
        definition: &Definition,
        back: &NodeId,
        plan: GroupPlan<L::Value>,
    ) -> Result<Plan, AllocError>
        requires valid { broken definition.now ≡ None }
        requires member { is_member definition.now self.now.here ≡ true }
        requires answered { reaches L.kind definition.now back.now ≡ true }
        ensures { IfOk result (λ p. p ≡ group_plan (lane_of L.kind (site_of self.now) definition.now) (say_of say) first back.now plan) }
    {
        let GroupPlan {
            note,
            changes,
            opening,
            sends,
        } = plan;
        let none = SendList::new(alloc);
        let (admin, service) = L::moves(opening);
        Ok(Plan {
            answer: say.answer(note),
            changes: with_changes::<L>(first, changes)?,
            admin,
            service,
            sends: self.with_sends::<L>(alloc, none, definition, back, sends)?,
        })
    }

    /// What both groups of a definition give, the admin group first.
    pub(crate) fn both_plans(
        &self,
        alloc: Global,
        definition: &Definition,
        acts: GroupPlan<Act>,
        batches: GroupPlan<Batch>,
    ) -> Result<Plan, AllocError>
        requires valid { broken definition.now ≡ None }
        requires member { is_member definition.now self.now.here ≡ true }
        ensures { IfOk result (λ p. p ≡ both_plans (site_of self.now) definition.now acts batches) }
    {
        let changes = with_changes::<Ledger>(ChangeList::new(alloc), acts.changes)?;
        let none = SendList::new(alloc);
        let sends = self.with_sends::<Ledger>(alloc, none, definition, &self.here, acts.sends)?;
        Ok(Plan {
            answer: Answer::Notes {
                admin: acts.note,
                service: batches.note,
            },
            changes: with_changes::<Service>(changes, batches.changes)?,
            admin: acts.opening,
            service: batches.opening,
            sends: self.with_sends::<Service>(alloc, sends, definition, &self.here, batches.sends)?,
        })
    }
}
