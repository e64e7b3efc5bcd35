//! A member, and what changes it at once.
ghost use Rattle.std.specs.Prelude.{◌≡◌, ◌<◌, ◌≤◌, [], length, true};
ghost use Rattle.spl_agree.specs.Member.{new_member, restarted, below_but, has};
ghost use Rattle.spl_coord.specs.Positions.{positions};
ghost use Rattle.spl_commit.specs.Views.{IsFixed};

use crate::history::History;
use spl_agree::{Agreed, Generation, Renew, Round};
use spl_coord::{first_positions, without_position};
use spl_part::Promised;
use spl_queue::Queue;
use std::alloc::Global;
use std::marker::Model;

/// What one member of a group keeps: its content, which stands for its history, the pending and the
/// refused values, its promise, the last round seen, the next round, and the open round. All but
/// the open round is made durable by its changes.
#[derive(Drop)]
pub struct Member<M: Agreed> {
    pub(crate) content: M,
    pub(crate) history: History<M>,
    pub(crate) queue: Queue<M::Key, M::Value>,
    pub(crate) promise: Option<Promised<M::Value>>,
    pub(crate) seen: Round,
    pub(crate) next: Round,
    /// The open round, and the bits of those that have not voted yes.
    pub(crate) opened: Option<(Round, u8)>,
    pub(crate) generation: Generation,
    pub(crate) members: u8,
    pub(crate) coordinator: u8,
    pub(crate) here: u8,
}

impl<M: Agreed> Model for Member<M> {
    ghost use Rattle.std.specs.{Prelude.{◌≡◌, List}, Option.option_map};
    ghost use Rattle.spl_coord.specs.Positions.{positions};
    ghost use Rattle.spl_commit.specs.Views.{MemberView, IsKept, seconds};

    ghost Value = { MemberView M M.Value };

    ghost view = { λ s. record {
      content = s.content;
      state = record {
        history = s.history;
        pending = seconds s.queue.pending;
        refused = seconds s.queue.refused;
        promise = s.promise;
        seen = s.seen;
        next = s.next;
        opened = option_map (λ o. (o.0, positions o.1)) s.opened;
      };
      generation = s.generation;
      members = s.members;
      coordinator = s.coordinator;
      here = s.here;
    } };

    ghost invariant = { λ s. IsKept M.key_of (M.items s.content) s.history s.queue.pending s.queue.refused s.opened s.members s.coordinator s.here };
}

impl<M: Agreed> Member<M> {
    /// A new member of a group of 2 to 8, with a content that stands for the empty list.
    pub fn new(
        alloc: Global,
        content: M,
        generation: Generation,
        members: u8,
        coordinator: u8,
        here: u8,
    ) -> Self
        requires empty { M.items content ≡ [] }
        requires two { 2 ≤ members }
        requires eight { members ≤ 8 }
        requires led { coordinator < members }
        requires placed { here < members }
        ensures { result ≡ record {
          content = content;
          state = new_member;
          generation = generation;
          members = members;
          coordinator = coordinator;
          here = here;
        } }
    {
        Member {
            content,
            history: History::new(alloc),
            queue: Queue::new(alloc),
            promise: None,
            seen: Round(0),
            next: Round(1),
            opened: None,
            generation,
            members,
            coordinator,
            here,
        }
    }

    /// A stop forgets the open round, and nothing else.
    pub fn restart(&mut self)
        ensures { self.new ≡ record self.old { state = restarted self.old.state } }
    {
        self.opened = None;
    }

    /// The bits of the other members.
    #[tactic(auto, using(crate::proofs::Positions::but_facts))]
    pub(crate) fn others(&self) -> u8
        ensures { positions result ≡ below_but self.now.members self.now.here }
    {
        without_position(first_positions(self.members), self.here)
    }

    /// Whether a position is that of another member.
    #[tactic(auto, using(crate::proofs::Positions::others_facts))]
    pub(crate) fn is_other(&self, sender: u8) -> bool
        ensures other { result ≡ has sender (below_but self.now.members self.now.here) }
        ensures small { result ≡ true → sender < 8 }
    {
        sender < self.members && sender != self.here
    }

    /// The place of the next value.
    pub(crate) fn place(&self) -> u32
        ensures { result ≡ length self.now.state.history }
    {
        self.history.len() as u32
    }
}

impl<M: Agreed + Renew> Member<M> {
    /// Makes again what its content keeps beside the list; nothing that is seen changes.
    pub fn renew(&mut self, cache: &mut M::Cache)
        ensures { self.new ≡ self.old }
    {
        self.content.renew(cache);
    }
}
