//! What a member reports of itself.
ghost use Rattle.std.specs.{Prelude.{◌≡◌, option_copied, slice_get, length, Some, None}, Option.option_map};
ghost use Rattle.spl_agree.specs.Member.{known_by, found, found_refused, values};
ghost use Rattle.spl_commit.specs.{Views.seconds, Waiting.IsWaiting};

use crate::Member;
use spl_agree::{Agreed, Place, Round};
use spl_queue::{Known, Queue};

impl<M: Agreed> Member<M> {
    /// How many values are committed.
    pub fn history_len(&self) -> Place
        ensures { result ≡ length self.now.state.history }
    {
        Place(self.place())
    }

    /// The round and the value that are committed at a place; None exactly where there is no such
    /// place.
    pub fn history_at(&self, place: Place) -> Option<(Round, &M::Value)>
        ensures { option_map (λ e. (e.0, e.1.now)) result ≡ slice_get self.now.state.history place }
    {
        self.history.get(place.0 as usize)
    }

    /// The promised round, if there is one.
    pub fn promised(&self) -> Option<Round>
        ensures { result ≡ option_map (λ p. p.0) self.now.state.promise }
    {
        match &self.promise {
            Some(promise) => Some(promise.tick()),
            None => None,
        }
    }

    /// The promised round and its value, if there is one.
    pub fn promise(&self) -> Option<(Round, &M::Value)>
        ensures { option_map (λ e. (e.0, e.1.now)) result ≡ self.now.state.promise }
    {
        match &self.promise {
            Some(promise) => Some((promise.tick(), promise.value())),
            None => None,
        }
    }

    /// The last round seen.
    pub fn seen(&self) -> Round
        ensures { result ≡ self.now.state.seen }
    {
        self.seen
    }

    /// The next round.
    pub fn next(&self) -> Round
        ensures { result ≡ self.now.state.next }
    {
        self.next
    }

    /// The content.
    pub fn content(&self) -> &M
        ensures content { result.now ≡ self.now.content }
        ensures applied { M.items result.now ≡ values self.now.state.history }
    {
        &self.content
    }

    /// The pending and the refused values.
    pub fn queue(&self) -> &Queue<M::Key, M::Value>
        ensures pending { seconds result.now.pending ≡ self.now.state.pending }
        ensures refused { seconds result.now.refused ≡ self.now.state.refused }
    {
        &self.queue
    }

    /// What is known of a key: the first value of the history, the pending and the refused ones
    /// that has it.
    pub fn known(&self, key: &M::Key) -> Option<&M::Value>
        ensures { option_copied result ≡ known_by (λ v. M.Key.eq key.now (M.key_of v)) self.now.state }
    {
        match self.history.find(key) {
            Some(value) => Some(value),
            None => match self.queue.status(key) {
                Known::Pending(value) => Some(value),
                Known::Refused(value, _) => Some(value),
                Known::No => None,
            },
        }
    }

    /// What is pending or was refused under a key.
    pub fn waiting(&self, key: &M::Key) -> Known<'_, M::Value>
        ensures { IsWaiting (found (λ v. M.Key.eq key.now (M.key_of v)) self.now.state.pending)
            (found_refused (λ v. M.Key.eq key.now (M.key_of v)) self.now.state.refused) result }
    {
        self.queue.status(key)
    }

    /// The first pending value, if there is one.
    #[tactic(auto, using(crate::proofs::Keyed::view_facts))]
    pub(crate) fn first(&self) -> Option<&M::Value>
        ensures { option_copied result ≡ slice_get self.now.state.pending 0 }
    {
        self.queue.first()
    }

    /// The value of the history with the key of this one, if there is one.
    pub(crate) fn in_history(&self, value: &M::Value) -> Option<&M::Value>
        ensures { option_copied result ≡ found ((M.rules self.now.content).same_key value.now) (values self.now.state.history) }
    {
        self.history.find(&M::key(value))
    }

    /// What the queue has under the key of this value.
    pub(crate) fn in_queue(&self, value: &M::Value) -> Known<'_, M::Value>
        ensures { IsWaiting (found ((M.rules self.now.content).same_key value.now) self.now.state.pending)
            (found_refused ((M.rules self.now.content).same_key value.now) self.now.state.refused) result }
    {
        self.queue.status(&M::key(value))
    }
}
