//! A node leaves a circuit.
ghost use Rattle.std.specs.Prelude.{◌≡◌, ◌∷◌, [], IfOk};
ghost use Rattle.spl_wire.specs.declared.answer.Answer.TheVariants as answer;
ghost use Rattle.spl_cell_rules.specs.{Cells.{abandons, purges, is_waiting, own_life}, Plans.planned};

use crate::held::Held;
use crate::plans::refuses;
use spl_admin::Ledger;
use spl_agree::OpenMove;
use spl_circuit::Lifecycle;
use spl_wire::{Answer, Change, ChangeList, Plan, Refusal, SendList};
use std::alloc::{AllocError, Global};

/// A change that is answered, and nothing is sent. The open round of each group is moved.
fn leaves(
    alloc: Global,
    purged: bool,
    change: Change,
    admin: OpenMove,
    service: OpenMove,
) -> Result<Plan, AllocError>
    ensures { IfOk result (λ p. p ≡ record { answer = answer.Left purged; changes = change ∷ []; admin = admin; service = service; sends = [] }) }
{
    let mut changes = ChangeList::new(alloc);
    changes.push(change)?;
    Ok(Plan {
        answer: Answer::Left { purged },
        changes,
        admin,
        service,
        sends: SendList::new(alloc),
    })
}

impl Held {
    /// The node takes no further part.
    pub(crate) fn abandons(&self, alloc: Global) -> Result<Plan, AllocError>
        ensures { IfOk result (λ p. p ≡ planned self.now.site (abandons self.now.bound)) }
    {
        if !self.runs() {
            return Ok(refuses(alloc, Refusal::NotActive));
        }
        if !self.is_open() {
            return Ok(refuses(alloc, Refusal::Closed));
        }
        leaves(
            alloc,
            false,
            Change::Abandon,
            OpenMove::Close,
            OpenMove::Close,
        )
    }

    /// What keeps an open cell from being purged.
    fn is_waiting(&self) -> bool
        ensures { result ≡ is_waiting (own_life self.now.bound).state self.now.bound.acts }
    {
        match self.lifecycle() {
            Lifecycle::None => self.pending::<Ledger>() > 0 || self.has_promised(),
            Lifecycle::Rejected | Lifecycle::Removed | Lifecycle::Disbanded => false,
            _ => true,
        }
    }

    /// The node forgets the circuit, all but its generation.
    pub(crate) fn purges(&self, alloc: Global) -> Result<Plan, AllocError>
        ensures { IfOk result (λ p. p ≡ planned self.now.site (purges self.now.bound)) }
    {
        if self.is_open() && self.is_waiting() {
            return Ok(refuses(alloc, Refusal::NotPurgeable));
        }
        leaves(alloc, true, Change::Purge, OpenMove::Keep, OpenMove::Keep)
    }
}
