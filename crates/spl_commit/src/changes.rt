//! Durable changes and moves of the open round.
ghost use Rattle.std.specs.Prelude.{◌≡◌, ◌+◌, ◌-◌, ◌^◌, ◌<◌, ◌++◌, ◌∷◌, [], true, false, Some, OnOk, OnErr};
ghost use Rattle.spl_agree.specs.{Member.{changed, moved, has, but, none_left}, Fits.{fits, any_value, FitsMove}};
ghost use Rattle.spl_coord.specs.Positions.{positions};
ghost use Rattle.spl_commit.specs.Views.{group_by, IsFixed};

use crate::Member;
use spl_agree::{Agreed, GroupChange, OpenMove, Reason, Round};
use spl_coord::without_position;
use spl_part::Promised;
use spl_queue::OfferFault;
use std::alloc::{AllocError, Global};

/// Why a queue with room for a value more did not take one.
fn no_memory<V: Drop>(fault: OfferFault<V>) -> AllocError
    requires room { (value : V) → fault ≡ OfferFault.Full value → ⊥ }
{
    match fault {
        OfferFault::Full { .. } => unreachable!(),
        OfferFault::NoMemory => AllocError,
    }
}

impl<M: Agreed> Member<M> {
    /// Makes a durable change that fits. The only error is that memory ran out; the member keeps
    /// what it kept then, so that it goes on.
    pub fn apply(&mut self, alloc: Global, change: GroupChange<M::Value>) -> Result<(), AllocError>
        requires { fits (M.rules self.old.content) any_value self.old.state change ≡ true }
        ensures ok { OnOk result (self.new.state ≡ changed (M.rules self.old.content) self.old.state change) }
        ensures unchanged { OnErr result (self.new.state ≡ self.old.state) }
        ensures ruled { M.rules self.new.content ≡ M.rules self.old.content }
        ensures fixed { IsFixed self.old self.new }
    {
        match change {
            GroupChange::Queue(value) => self.queue_value(value),
            GroupChange::Refuse(value, reason) => self.refuse(value, reason),
            GroupChange::Begin(round) => {
                self.begin(round);
                Ok(())
            }
            GroupChange::Seen(round) => {
                self.seen = round;
                Ok(())
            }
            GroupChange::Promise(round, value) => {
                self.seen = round;
                self.promise = Some(Promised::kept(round, value));
                Ok(())
            }
            GroupChange::Abort => {
                self.promise = None;
                Ok(())
            }
            GroupChange::Commit(round, value) => self.commit(alloc, round, value),
            GroupChange::Restore { next, seen } => {
                self.next = next;
                self.seen = seen;
                Ok(())
            }
            GroupChange::Kept(value, reason) => self.keep(value, reason),
        }
    }

    /// A value joins the refused ones of a member that has no more.
    fn keep(&mut self, value: M::Value, reason: Reason) -> Result<(), AllocError>
        requires { fits (M.rules self.old.content) any_value self.old.state (GroupChange.Kept value reason) ≡ true }
        ensures ok { OnOk result (self.new.state ≡ changed (M.rules self.old.content) self.old.state (GroupChange.Kept value reason)) }
        ensures unchanged { OnErr result (self.new.state ≡ self.old.state) }
        ensures content { self.new.content ≡ self.old.content }
        ensures fixed { IsFixed self.old self.new }
    {
        let key = M::key(&value);
        self.queue.keep(key, value, reason)?;
        Ok(())
    }

    /// The next round is one more.
    fn begin(&mut self, round: Round)
        requires { round < 2 ^ 64 - 1 }
        ensures state { self.new.state ≡ record self.old.state { next = round + 1 } }
        ensures content { self.new.content ≡ self.old.content }
        ensures fixed { IsFixed self.old self.new }
    {
        self.next = Round(round.0 + 1);
    }

    /// A value joins the pending ones.
    fn queue_value(&mut self, value: M::Value) -> Result<(), AllocError>
        requires { fits (M.rules self.old.content) any_value self.old.state (GroupChange.Queue value) ≡ true }
        ensures ok { OnOk result (self.new.state ≡ changed (M.rules self.old.content) self.old.state (GroupChange.Queue value)) }
        ensures unchanged { OnErr result (self.new.state ≡ self.old.state) }
        ensures content { self.new.content ≡ self.old.content }
        ensures fixed { IsFixed self.old self.new }
    {
        let key = M::key(&value);
        match self.queue.offer(key, value) {
            Ok(_) => {}
            Err(fault) => return Err(no_memory(fault)),
        }
        Ok(())
    }

    /// A value leaves the pending ones and joins the refused ones.
    fn refuse(&mut self, value: M::Value, reason: Reason) -> Result<(), AllocError>
        requires { fits (M.rules self.old.content) any_value self.old.state (GroupChange.Refuse value reason) ≡ true }
        ensures ok { OnOk result (self.new.state ≡ changed (M.rules self.old.content) self.old.state (GroupChange.Refuse value reason)) }
        ensures unchanged { OnErr result (self.new.state ≡ self.old.state) }
        ensures content { self.new.content ≡ self.old.content }
        ensures fixed { IsFixed self.old self.new }
    {
        self.queue.keys_differ();
        let key = M::key(&value);
        self.queue.settle(&key, Some(reason))?;
        Ok(())
    }

    /// A value joins the history, the promise is kept, and the pending value of its key goes.
    fn commit(&mut self, alloc: Global, round: Round, value: M::Value) -> Result<(), AllocError>
        requires { fits (M.rules self.old.content) any_value self.old.state (GroupChange.Commit round value) ≡ true }
        ensures ok { OnOk result (self.new.state ≡ changed (M.rules self.old.content) self.old.state (GroupChange.Commit round value)) }
        ensures unchanged { OnErr result (self.new.state ≡ self.old.state) }
        ensures ruled { M.rules self.new.content ≡ M.rules self.old.content }
        ensures fixed { IsFixed self.old self.new }
    {
        let key = M::key(&value);
        self.history.commit(alloc, &mut self.content, round, value)?;
        self.promise = None;
        self.queue.settle(&key, None)?;
        Ok(())
    }

    /// Moves the open round by a move that fits: then the member is settled.
    #[tactic(auto, using(crate::proofs::Positions::miss_facts))]
    pub fn move_open(&mut self, x: OpenMove)
        requires { FitsMove (group_by (M.rules self.old.content) self.old) self.old.here self.old.state x }
        ensures { self.new ≡ record self.old { state = moved (group_by (M.rules self.old.content) self.old) self.old.here self.old.state x } }
    {
        match x {
            OpenMove::Keep => {}
            OpenMove::Begin(round) => self.opened = Some((round, self.others())),
            OpenMove::Yes(member) => {
                if let Some((round, missing)) = self.opened {
                    self.count(round, missing, member);
                }
            }
            OpenMove::Close => self.opened = None,
        }
    }

    /// A member that is missing, and isn't the last one, voted yes.
    #[tactic(auto, using(crate::proofs::Positions::position_small))]
    fn count(&mut self, round: Round, missing: u8, member: u8)
        requires opened { self.old.state.opened ≡ Some (round, positions missing) }
        requires there { has member (positions missing) ≡ true }
        requires more { none_left (but member (positions missing)) ≡ false }
        ensures { self.new ≡ record self.old { state = record self.old.state { opened = Some (round, but member (positions missing)) } } }
    {
        self.opened = Some((round, without_position(missing, member)));
    }
}
