//! What a tick, an expire and a submitted value give.
ghost use Rattle.std.specs.Prelude.{◌≡◌, ◌↔◌, ◌&&◌, ◌||◌, true, slice_get, is_none, IfOk};
ghost use Rattle.spl_agree.specs.{Member.below_but, Rows.{row, nothing, on_tick, coordinator_tick, ask_again, try_first, judge_first, refuse_first}};
ghost use Rattle.spl_agree.specs.Rows.{begin_at, member_tick, forward_first, on_expire, expire_open, on_submit};
ghost use Rattle.spl_agree.specs.declared.event.GroupEvent.TheVariants as event;
ghost use Rattle.spl_agree.specs.declared.event.Note.TheVariants as note;
ghost use Rattle.spl_coord.specs.Positions.{positions};
ghost use Rattle.spl_commit.specs.Views.{group_by};

use crate::Member;
use crate::plans::{both, changes_one, nothing, sends_one};
use crate::sends::{decide_each, refuse_each, request_each};
use spl_agree::{
    Agreed, GroupChange, GroupChanges, GroupPlan, Note, OpenMove, Place, Reason, Round,
};
use std::alloc::{AllocError, Global};

impl<M: Agreed> Member<M> {
    /// A tick.
    pub(crate) fn on_tick(&self, alloc: Global) -> Result<GroupPlan<M::Value>, AllocError>
        ensures { IfOk result (λ p. p ≡ on_tick (group_by (M.rules self.now.content) self.now) self.now.here self.now.state) }
    {
        if self.here == self.coordinator {
            self.coordinator_tick(alloc)
        } else {
            self.member_tick(alloc)
        }
    }

    /// A tick at the coordinator.
    fn coordinator_tick(&self, alloc: Global) -> Result<GroupPlan<M::Value>, AllocError>
        ensures { IfOk result (λ p. p ≡ coordinator_tick (group_by (M.rules self.now.content) self.now) self.now.here self.now.state self.now.state.opened) }
    {
        match self.opened {
            Some((round, missing)) => self.ask_again(alloc, round, missing),
            None => {
                if self.is_spent() {
                    return Ok(nothing(alloc, Note::Idle));
                }
                self.try_first(alloc)
            }
        }
    }

    /// Whether the last round is spent, or the last place.
    fn is_spent(&self) -> bool
        ensures { result ≡ Rattle.spl_agree.specs.Member.is_spent self.now.state }
    {
        self.next.0 == u64::MAX || self.place() == u32::MAX
    }

    /// The request of the open round again, to those that have not voted yes.
    fn ask_again(
        &self,
        alloc: Global,
        round: Round,
        missing: u8,
    ) -> Result<GroupPlan<M::Value>, AllocError>
        ensures { IfOk result (λ p. p ≡ ask_again (group_by (M.rules self.now.content) self.now) self.now.here self.now.state
            (round, positions missing) self.now.state.pending) }
    {
        match self.first() {
            None => Ok(nothing(alloc, Note::Idle)),
            Some(value) => {
                let place = Place(self.place());
                Ok(GroupPlan {
                    note: Note::Asked(round),
                    changes: GroupChanges::new(alloc),
                    opening: OpenMove::Keep,
                    sends: request_each::<M>(alloc, self.generation, round, place, value, missing)?,
                })
            }
        }
    }

    /// The first pending value is tried.
    fn try_first(&self, alloc: Global) -> Result<GroupPlan<M::Value>, AllocError>
        ensures { IfOk result (λ p. p ≡ try_first (group_by (M.rules self.now.content) self.now) self.now.here self.now.state self.now.state.pending) }
    {
        match self.first() {
            None => Ok(nothing(alloc, Note::Idle)),
            Some(value) => match self.content.check(alloc, value)? {
                Some(reason) => self.refuse_first(alloc, value, reason),
                None => self.begin_at(alloc, Place(self.place()), value),
            },
        }
    }

    /// The first pending value is refused.
    fn refuse_first(
        &self,
        alloc: Global,
        value: &M::Value,
        reason: Reason,
    ) -> Result<GroupPlan<M::Value>, AllocError>
        ensures { IfOk result (λ p. p ≡ refuse_first (group_by (M.rules self.now.content) self.now) self.now.here value.now reason) }
    {
        let refused = M::copy(alloc, value)?;
        Ok(GroupPlan {
            note: Note::Refused(reason),
            changes: GroupChanges::one(alloc, GroupChange::Refuse(refused, reason))?,
            opening: OpenMove::Keep,
            sends: refuse_each::<M>(alloc, self.generation, value, reason, self.others())?,
        })
    }

    /// A round begins with the first pending value.
    fn begin_at(
        &self,
        alloc: Global,
        place: Place,
        value: &M::Value,
    ) -> Result<GroupPlan<M::Value>, AllocError>
        ensures { IfOk result (λ p. p ≡ begin_at self.now.generation (below_but self.now.members self.now.here) self.now.state.next place value.now) }
    {
        Ok(GroupPlan {
            note: Note::Begun(self.next),
            changes: GroupChanges::one(alloc, GroupChange::Begin(self.next))?,
            opening: OpenMove::Begin(self.next),
            sends: request_each::<M>(
                alloc,
                self.generation,
                self.next,
                place,
                value,
                self.others(),
            )?,
        })
    }

    /// A tick at another member than the coordinator.
    fn member_tick(&self, alloc: Global) -> Result<GroupPlan<M::Value>, AllocError>
        ensures { IfOk result (λ p. p ≡ member_tick (group_by (M.rules self.now.content) self.now) self.now.state self.now.state.promise) }
    {
        let Some(promise) = &self.promise else {
            return self.forward_first(alloc);
        };
        let round = promise.tick();
        sends_one(
            alloc,
            Note::Asked(round),
            self.coordinator,
            self.decision_request(round),
        )
    }

    /// The first pending value goes to the coordinator.
    fn forward_first(&self, alloc: Global) -> Result<GroupPlan<M::Value>, AllocError>
        ensures { IfOk result (λ p. p ≡ forward_first (group_by (M.rules self.now.content) self.now) self.now.state.pending) }
    {
        match self.first() {
            None => Ok(nothing(alloc, Note::Idle)),
            Some(value) => sends_one(
                alloc,
                Note::Forwarded,
                self.coordinator,
                self.forward(alloc, value)?,
            ),
        }
    }

    /// Whether a tick finds nothing to do.
    pub fn rests(&self) -> bool
        ensures { (result ≡ true) ↔ (row (group_by (M.rules self.now.content) self.now) self.now.here self.now.state event.Tick ≡ nothing note.Idle) }
    {
        if self.here == self.coordinator {
            self.leads_nothing()
        } else {
            self.follows_nothing()
        }
    }

    /// At the coordinator: nothing is pending, or no round can begin.
    fn leads_nothing(&self) -> bool
        ensures { result ≡ (is_none (slice_get self.now.state.pending 0)
            || (is_none self.now.state.opened && Rattle.spl_agree.specs.Member.is_spent self.now.state)) }
    {
        match self.first() {
            None => true,
            Some(_) => self.opened.is_none() && self.is_spent(),
        }
    }

    /// At another member: nothing is promised, and nothing is pending.
    fn follows_nothing(&self) -> bool
        ensures { result ≡ (is_none self.now.state.promise && is_none (slice_get self.now.state.pending 0)) }
    {
        match self.promise {
            Some(_) => false,
            None => self.first().is_none(),
        }
    }

    /// An expire.
    pub(crate) fn on_expire(&self, alloc: Global) -> Result<GroupPlan<M::Value>, AllocError>
        ensures { IfOk result (λ p. p ≡ on_expire (group_by (M.rules self.now.content) self.now) self.now.here self.now.state) }
    {
        if self.here == self.coordinator {
            self.expire_open(alloc)
        } else {
            Ok(nothing(alloc, Note::Idle))
        }
    }

    /// The open round is given up.
    fn expire_open(&self, alloc: Global) -> Result<GroupPlan<M::Value>, AllocError>
        ensures { IfOk result (λ p. p ≡ expire_open (group_by (M.rules self.now.content) self.now) self.now.here self.now.state.opened) }
    {
        match self.opened {
            None => Ok(nothing(alloc, Note::Idle)),
            Some((round, _)) => Ok(GroupPlan {
                note: Note::Expired(round),
                changes: GroupChanges::new(alloc),
                opening: OpenMove::Close,
                sends: decide_each(alloc, self.generation, round, false, self.others())?,
            }),
        }
    }

    /// A value of this node.
    pub(crate) fn on_submit(
        &self,
        alloc: Global,
        value: &M::Value,
    ) -> Result<GroupPlan<M::Value>, AllocError>
        ensures { IfOk result (λ p. p ≡ on_submit (group_by (M.rules self.now.content) self.now) self.now.here value.now) }
    {
        let queued = M::copy(alloc, value)?;
        if self.here == self.coordinator {
            return changes_one(alloc, Note::Queued, GroupChange::Queue(queued));
        }
        both(
            alloc,
            Note::Queued,
            GroupChange::Queue(queued),
            self.coordinator,
            self.forward(alloc, value)?,
        )
    }
}
