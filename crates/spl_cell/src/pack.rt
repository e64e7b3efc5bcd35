//! The packed form of a cell.
ghost use Rattle.std.specs.Prelude.{◌≡◌, ◌++◌, [], ◌∷◌, map, IfOk};
ghost use Rattle.spl_agree.specs.Pack.{packed_member};
ghost use Rattle.spl_cell_rules.specs.Pack.{packed_batches, packed_mark, packed};
ghost use Rattle.spl_cell_rules.specs.Cells as rules;
ghost use Rattle.spl_wire.specs.declared.change.Change.TheVariants as durable;
ghost use Rattle.spl_cell.specs.States.{cell_of};

use crate::held::Held;
use crate::lane::Lane;
use crate::state::State;
use spl_admin::Ledger;
use spl_agree::GroupChanges;
use spl_base::Value;
use spl_circuit::Mark;
use spl_scabbard::Service;
use spl_wire::Change;
use std::alloc::{AllocError, Global};

/// The changes that memory is taken for before a cell is packed: most cells have no more.
const ROOM: usize = 8;

/// The changes, and after them those of a group.
#[tactic(auto, using(crate::proofs::Steps::changes_more))]
fn after<L: Lane>(
    first: Vec<Change>,
    changes: GroupChanges<L::Value>,
) -> Result<Vec<Change>, AllocError>
    ensures { IfOk result (λ cs. cs.items ≡ first.items ++ map L.kind.change changes) }
{
    let mut all = first;
    let changes = changes.into_vec();
    all.try_reserve(changes.len())?;
    for change in changes {
        all.push(L::change(change))?;
    }
    Ok(all)
}

/// The changes, and after them that of a mark.
fn mark_after(first: Vec<Change>, mark: Mark) -> Result<Vec<Change>, AllocError>
    ensures { IfOk result (λ cs. cs.items ≡ first.items ++ packed_mark mark) }
{
    let mut all = first;
    match mark {
        Mark::Abandoned => all.push(Change::Abandon)?,
        _ => {}
    }
    Ok(all)
}

impl Held {
    /// The changes, and after them those of the service group, where it goes on.
    fn batches_packed(&self, alloc: Global, first: Vec<Change>) -> Result<Vec<Change>, AllocError>
        ensures { IfOk result (λ cs. cs.items ≡ first.items ++ packed_batches self.now.bound) }
    {
        if !self.keeps_batches() {
            return Ok(first);
        }
        after::<Service>(first, self.batches.pack(alloc)?)
    }

    /// The changes that bind the cell, and set its turn.
    fn bound_packed(&self, alloc: Global) -> Result<Vec<Change>, AllocError>
        ensures { IfOk result (λ cs. cs.items ≡ Change.Bind self.now.bound.definition ∷ Change.Turn self.now.bound.turn ∷ []) }
    {
        let mut all = Vec::with_capacity(alloc, ROOM)?;
        let definition = self.shared_definition().copy(alloc)?;
        all.push(Change::Bind(definition))?;
        all.push(Change::Turn(self.turn))?;
        Ok(all)
    }

    /// The changes, and after them those of the admin group.
    fn acts_packed(&self, alloc: Global, first: Vec<Change>) -> Result<Vec<Change>, AllocError>
        ensures { IfOk result (λ cs. cs.items ≡ first.items ++ map durable.Admin (packed_member self.now.bound.acts)) }
    {
        after::<Ledger>(first, self.acts.pack(alloc)?)
    }

    /// The changes that make the cell of an empty one.
    #[tactic(auto, using(crate::proofs::Packs::packed_parts))]
    fn packed(&self, alloc: Global) -> Result<Vec<Change>, AllocError>
        ensures { IfOk result (λ cs. cs.items ≡ packed (rules.Held self.now.bound)) }
    {
        let all = self.bound_packed(alloc)?;
        let all = self.acts_packed(alloc, all)?;
        let all = self.batches_packed(alloc, all)?;
        mark_after(all, self.mark)
    }
}

impl State {
    /// The changes that make the cell of an empty one.
    pub(crate) fn packed(&self, alloc: Global) -> Result<Vec<Change>, AllocError>
        ensures { IfOk result (λ cs. cs.items ≡ packed (cell_of self.now)) }
    {
        match self {
            State::Empty => Ok(Vec::new(alloc)),
            State::Held(held) => held.packed(alloc),
            State::Purged(old) => {
                let mut all = Vec::new(alloc);
                all.push(Change::Gone(*old))?;
                Ok(all)
            }
        }
    }
}
