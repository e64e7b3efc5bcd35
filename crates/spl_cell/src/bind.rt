//! A cell is bound.
ghost use Rattle.std.specs.Prelude.{◌≡◌, ◌∷◌, [], true, None, IfOk};
ghost use Rattle.spl_agree.specs.{Member.new_member, Fits.IsDue};
ghost use Rattle.spl_circuit.specs.{Nodes.position, Rules.{broken, is_member}};
ghost use Rattle.spl_cell_rules.specs.{Cells.{Binds, admin_group}, Plans.{admin_lane, group_row, planned}};
ghost use Rattle.spl_cell.specs.{Says.say_of, Sites.site_of};

use crate::held::first_acts;
use crate::plans::Say;
use crate::site::Site;
use spl_admin::Ledger;
use spl_agree::{GroupEvent, GroupPlan};
use spl_base::{NodeId, Value};
use spl_circuit::{Act, CheckedDefinition};
use spl_wire::{Change, ChangeList, Plan};
use std::alloc::{AllocError, Global};

/// The change that binds a cell to a definition.
fn binding(alloc: Global, definition: &CheckedDefinition) -> Result<ChangeList, AllocError>
    ensures { IfOk result (λ cs. cs ≡ Change.Bind definition.now ∷ []) }
{
    let mut changes = ChangeList::new(alloc);
    changes.push(Change::Bind(definition.copy(alloc)?))?;
    Ok(changes)
}

impl Site {
    /// What an event gives in the admin group of a cell that is bound just now.
    #[tactic(auto, using(crate::proofs::Seats::settled_new, crate::proofs::Seats::group_here))]
    fn first_row(
        &self,
        alloc: Global,
        definition: &CheckedDefinition,
        event: &GroupEvent<Act>,
    ) -> Result<GroupPlan<Act>, AllocError>
        requires valid { broken definition.now ≡ None }
        requires member { is_member definition.now self.now.here ≡ true }
        requires due { IsDue (admin_group definition.now) (position definition.now.members self.now.here) new_member event.now }
        ensures { IfOk result (λ p. p ≡ group_row (admin_lane (site_of self.now) definition.now) new_member event.now) }
    {
        let acts = first_acts(alloc, &self.here, definition.copy(alloc)?);
        acts.plan(alloc, event)
    }

    /// The cell is bound to a definition, and its admin group goes on by an event. A message came
    /// from `back`.
    pub(crate) fn binds(
        &self,
        alloc: Global,
        say: Say,
        definition: &CheckedDefinition,
        back: &NodeId,
        event: &GroupEvent<Act>,
    ) -> Result<Plan, AllocError>
        requires valid { broken definition.now ≡ None }
        requires member { is_member definition.now self.now.here ≡ true }
        requires due { IsDue (admin_group definition.now) (position definition.now.members self.now.here) new_member event.now }
        ensures { IfOk result (λ p. p ≡ planned (site_of self.now) (Binds (say_of say) definition.now back.now event.now)) }
    {
        let plan = self.first_row(alloc, definition, event)?;
        let first = binding(alloc, definition)?;
        self.lane_plan::<Ledger>(alloc, say, first, definition.get(), back, plan)
    }
}
