//! Moves of the open rounds, and stops.
ghost use Rattle.std.specs.Prelude.{◌≡◌};
ghost use Rattle.spl_agree.specs.{Member.{moved, restarted}, Fits.FitsMove};
ghost use Rattle.spl_circuit.specs.Nodes.{position};
ghost use Rattle.spl_cell_rules.specs.{Cells.{admin_group, service_group}, Changes.{moved_cell, stopped_cell}, Valid.FitsMoveAt};
ghost use Rattle.spl_cell.specs.{States.{cell_of, IsAt}, Sites.site_of};

use crate::held::Held;
use crate::site::Site;
use crate::state::State;
use spl_agree::OpenMove;

impl Held {
    /// Moves the open round of the admin group by a move that fits.
    #[tactic(auto, using(crate::proofs::Seats::move_facts))]
    fn move_acts(&mut self, x: OpenMove)
        requires { FitsMove (admin_group self.old.bound.definition) (position self.old.bound.definition.members self.old.site.here) self.old.bound.acts x }
        ensures { self.new ≡
            record self.old {
              bound = record self.old.bound {
                acts =
                    moved (admin_group self.old.bound.definition) (position self.old.bound.definition.members self.old.site.here) self.old.bound.acts x;
              };
            } }
    {
        self.acts.move_open(x);
    }

    /// Moves the open round of the service group by a move that fits.
    #[tactic(auto, using(crate::proofs::Seats::move_facts))]
    fn move_batches(&mut self, x: OpenMove)
        requires { FitsMove (service_group self.old.bound.definition) (position self.old.bound.definition.members self.old.site.here) self.old.bound.batches x }
        ensures { self.new ≡
            record self.old {
              bound = record self.old.bound {
                batches =
                    moved (service_group self.old.bound.definition) (position self.old.bound.definition.members self.old.site.here) self.old.bound.batches x;
              };
            } }
    {
        self.batches.move_open(x);
    }

    /// A stop forgets the open rounds.
    fn restart(&mut self)
        ensures { self.new ≡
            record self.old { bound = record self.old.bound { acts = restarted self.old.bound.acts; batches = restarted self.old.bound.batches } } }
    {
        self.acts.restart();
        self.batches.restart();
    }
}

impl Site {
    /// Moves the open rounds of a cell, that of the admin group by the first move.
    #[inline(always)]
    pub(crate) fn move_rounds(&self, state: &mut State, x: OpenMove, y: OpenMove)
        requires at { IsAt (site_of self.now) state.old }
        requires fits { FitsMoveAt self.now.here (cell_of state.old) x y }
        ensures cell { cell_of state.new ≡ moved_cell self.now.here (cell_of state.old) x y }
        ensures at { IsAt (site_of self.now) state.new }
    {
        if let State::Held(held) = state {
            held.move_acts(x);
            held.move_batches(y);
        }
    }

    /// A cell stops.
    pub(crate) fn stop(&self, state: &mut State)
        requires at { IsAt (site_of self.now) state.old }
        ensures cell { cell_of state.new ≡ stopped_cell (cell_of state.old) }
        ensures at { IsAt (site_of self.now) state.new }
    {
        if let State::Held(held) = state {
            held.restart();
        }
    }
}
