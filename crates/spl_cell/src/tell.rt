//! What a bound cell reports of itself.
ghost use Rattle.std.specs.Prelude.{◌≡◌, ◌≤◌, length, is_some, IfOk};
ghost use Rattle.spl_agree.specs.declared.limit.TheConstants.{MOST_PENDING};
ghost use Rattle.spl_cell_rules.specs.{Cells.{Tells, shows, details}, Plans.planned};

use crate::held::Held;
use crate::lane::Lane;
use crate::plans::tells_only;
use spl_admin::Ledger;
use spl_agree::Agreed;
use spl_base::{Boxed, Value};
use spl_commit::Member;
use spl_scabbard::Service;
use spl_wire::{Answer, Plan};
use std::alloc::{AllocError, Global};

/// How many values are pending at a member.
#[tactic(auto, using(crate::proofs::Pendings::length_seconds))]
fn pending_len<M: Agreed>(member: &Member<M>) -> u32
    ensures value { result ≡ length member.now.state.pending }
    ensures few { length member.now.state.pending ≤ MOST_PENDING }
{
    let queue = member.queue();
    queue.keys_differ();
    queue.len()
}

impl Held {
    /// How many values of a group are committed here.
    pub(crate) fn committed<L: Lane>(&self) -> u32
        ensures { result ≡ length (L.kind.kept self.now.bound).history }
    {
        L::member(self).history_len().0
    }

    /// How many values of a group are pending here.
    pub(crate) fn pending<L: Lane>(&self) -> u32
        ensures value { result ≡ length (L.kind.kept self.now.bound).pending }
        ensures few { length (L.kind.kept self.now.bound).pending ≤ MOST_PENDING }
    {
        pending_len(L::member(self))
    }

    /// Whether a value is promised.
    pub(crate) fn has_promised(&self) -> bool
        ensures { result ≡ is_some self.now.bound.acts.promise }
    {
        self.acts.promised().is_some()
    }

    /// What the cell keeps, in numbers.
    pub(crate) fn shows(&self, alloc: Global) -> Result<Plan, AllocError>
        ensures { IfOk result (λ p. p ≡ planned self.now.site (Tells (shows self.now.bound))) }
    {
        let answer = Answer::Show {
            generation: self.definition().generation,
            lifecycle: self.lifecycle(),
            mark: self.mark,
            accepted: self.accepted_in_order(alloc)?,
            acts: self.committed::<Ledger>(),
            acts_pending: self.pending::<Ledger>(),
            batches: self.committed::<Service>(),
            batches_pending: self.pending::<Service>(),
        };
        Ok(tells_only(alloc, answer))
    }

    /// The definition, and where the circuit stands here.
    #[tactic(auto, using(spl_circuit::proofs::Valid::bounded_from_valid))]
    pub(crate) fn details(&self, alloc: Global) -> Result<Plan, AllocError>
        ensures { IfOk result (λ p. p ≡ planned self.now.site (Tells (details self.now.bound))) }
    {
        // It breaks no rule, so it has a byte form.
        let _ = self.definition();
        let hash = self.shared_definition().hash(alloc)?;
        let answer = Answer::Detail {
            definition: self.shared_definition().copy(alloc)?,
            hash: Boxed::new(alloc, hash)?,
            lifecycle: self.lifecycle(),
            mark: self.mark,
            accepted: self.accepted_in_order(alloc)?,
            requester: Boxed::new(alloc, self.requester())?,
        };
        Ok(tells_only(alloc, answer))
    }
}
