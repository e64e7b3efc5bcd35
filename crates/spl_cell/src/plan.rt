//! What any event gives at a cell.
ghost use Rattle.std.specs.Prelude.{◌≡◌, IfOk};
ghost use Rattle.spl_cell_rules.specs.{Events.other_does, Plans.{planned, plan_of}, Valid.{IsValid, IsFor}};
ghost use Rattle.spl_cell.specs.{States.{cell_of, IsAt}, Sites.site_of};

use crate::batches::Question;
use crate::plans::refuses;
use crate::settled::Settled;
use crate::site::Site;
use crate::state::State;
use spl_agree::GroupEvent;
use spl_wire::{Event, Plan, Refusal};
use std::alloc::{AllocError, Global};

impl Site {
    /// What an event gives at a cell that isn't bound.
    fn other_plan(&self, alloc: Global, state: &State, event: &Event) -> Result<Plan, AllocError>
        requires own { IsFor (site_of self.now) event.now }
        ensures { IfOk result (λ p. p ≡ planned (site_of self.now) (other_does (site_of self.now) (cell_of state.now) event.now)) }
    {
        match event {
            Event::Propose(definition) => self.proposes(alloc, state, definition),
            Event::Deliver { from, message } => {
                self.other_hears(alloc, state, from, message.get())
            }
            Event::Route { .. } => Ok(refuses(alloc, Refusal::NO_WAY)),
            _ => Ok(refuses(alloc, Refusal::NoCircuit)),
        }
    }

    /// What any event gives at a cell.
    #[inline(always)]
    pub(crate) fn plan(
        &self,
        alloc: Global,
        state: &State,
        event: &Event,
    ) -> Result<Plan, AllocError>
        requires at { IsAt (site_of self.now) state.now }
        requires valid { IsValid (site_of self.now) (cell_of state.now) }
        requires own { IsFor (site_of self.now) event.now }
        ensures { IfOk result (λ p. p ≡ plan_of (site_of self.now) (cell_of state.now) event.now) }
    {
        let State::Held(held) = state else {
            return self.other_plan(alloc, state, event);
        };
        let settled = Settled::new(held);
        match event {
            Event::Propose(definition) => self.proposes(alloc, state, definition),
            Event::Vote { accept } => settled.votes(alloc, *accept),
            Event::Remove => settled.removes(alloc),
            Event::Disband => settled.disbands(alloc),
            Event::Abandon => held.abandons(alloc),
            Event::Purge => held.purges(alloc),
            Event::Submit(batch) => settled.submits(alloc, batch.get()),
            Event::Show => held.shows(alloc),
            Event::Detail => held.details(alloc),
            Event::Root => held.asks(alloc, Question::Root),
            Event::History => held.asks(alloc, Question::History),
            Event::Get(address) => held.asks(alloc, Question::Value(*address)),
            Event::Prove(address) => held.proves(alloc, address),
            Event::List(prefix) => held.asks(alloc, Question::Listed(*prefix)),
            Event::Status(id) => held.asks(alloc, Question::Status(*id)),
            Event::Receipt(id) => held.asks(alloc, Question::Receipt(*id)),
            Event::Route {
                from,
                from_service,
                to_service,
            } => Ok(held.routes(alloc, from, from_service, to_service)),
            Event::Tick => settled.turns(alloc, &GroupEvent::Tick, &GroupEvent::Tick),
            Event::Expire => settled.turns(alloc, &GroupEvent::Expire, &GroupEvent::Expire),
            Event::Deliver { from, message } => self.hears(
                alloc,
                state,
                &settled,
                from,
                message.get(),
            ),
        }
    }
}
