//! A node proposes a circuit.
ghost use Rattle.std.specs.Prelude.{◌≡◌, true, None, IfOk};
ghost use Rattle.spl_circuit.specs.Rules.{broken, is_member};
ghost use Rattle.spl_cell_rules.specs.{Cells.{Binds, Submitted, proposal, stale_or_held, proposes, proposes_at}, Plans.planned};
ghost use Rattle.spl_cell.specs.{States.cell_of, Sites.site_of};

use crate::plans::{Say, refuses};
use crate::site::Site;
use crate::state::State;
use spl_agree::{Generation, GroupEvent};
use spl_base::Value;
use spl_circuit::{Act, ActKind, CheckedDefinition, Definition};
use spl_wire::{Plan, Refusal};
use std::alloc::{AllocError, Global};

/// Why a definition can't be proposed at a cell that is bound with a generation.
fn stale_or_held(bound: Generation, definition: &Definition) -> Refusal
    ensures { result ≡ stale_or_held bound definition.now }
{
    if bound.0 < definition.generation.0 {
        Refusal::CircuitHeld
    } else {
        Refusal::StaleGeneration { bound }
    }
}

impl Site {
    /// The proposal of a definition by the node: its first act.
    fn proposal(&self, alloc: Global, definition: &CheckedDefinition) -> Result<Act, AllocError>
        ensures { IfOk result (λ a. a ≡ proposal self.now.here definition.now) }
    {
        Ok(Act {
            node: self.here,
            turn: 1,
            kind: ActKind::Propose(definition.copy(alloc)?),
        })
    }

    /// The cell is bound, and the proposal is submitted.
    fn submits(&self, alloc: Global, definition: &CheckedDefinition) -> Result<Plan, AllocError>
        requires valid { broken definition.now ≡ None }
        requires member { is_member definition.now self.now.here ≡ true }
        ensures { IfOk result (λ p. p ≡
            planned (site_of self.now) (Binds Submitted definition.now self.now.here (GroupEvent.Submit (proposal self.now.here definition.now)))) }
    {
        let event = GroupEvent::Submit(self.proposal(alloc, definition)?);
        self.binds(alloc, Say::Submitted, definition, &self.here, &event)
    }

    /// A definition that breaks no rule is proposed at one of its members.
    fn proposes_at(
        &self,
        alloc: Global,
        state: &State,
        definition: &CheckedDefinition,
    ) -> Result<Plan, AllocError>
        requires valid { broken definition.now ≡ None }
        requires member { is_member definition.now self.now.here ≡ true }
        ensures { IfOk result (λ p. p ≡ planned (site_of self.now) (proposes_at (site_of self.now) definition.now (cell_of state.now))) }
    {
        match state {
            State::Empty => self.submits(alloc, definition),
            State::Held(held) => {
                let bound = held.definition().generation;
                Ok(refuses(alloc, stale_or_held(bound, definition.get())))
            }
            State::Purged(old) => {
                if old.0 < definition.get().generation.0 {
                    return self.submits(alloc, definition);
                }
                let bound = *old;
                Ok(refuses(alloc, Refusal::StaleGeneration { bound }))
            }
        }
    }

    /// The node proposes a circuit with a definition.
    pub(crate) fn proposes(
        &self,
        alloc: Global,
        state: &State,
        definition: &CheckedDefinition,
    ) -> Result<Plan, AllocError>
        ensures { IfOk result (λ p. p ≡
            planned (site_of self.now) (proposes (site_of self.now) definition.now (cell_of state.now) (broken definition.now))) }
    {
        if let Some(rule) = definition.fault() {
            return Ok(refuses(alloc, Refusal::BadDefinition(rule)));
        }
        if !definition.get().is_member(&self.here) {
            return Ok(refuses(alloc, Refusal::NotMember));
        }
        self.proposes_at(alloc, state, definition)
    }
}
