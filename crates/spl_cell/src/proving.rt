//! Proofs of what the state of a bound cell has.
ghost use Rattle.std.specs.{Prelude.{◌≡◌, true, IfOk}, List.list_all};
ghost use Rattle.spl_agree.specs.Member.{values};
ghost use Rattle.spl_cell_rules.specs.{Cells.Tells, Batches.{when_active, proof_told}, Changes.may_serve, Plans.planned};

use crate::held::Held;
use crate::plans::{refuses, tells_only};
use spl_base::Boxed;
use spl_proof::prove;
use spl_state::Address;
use spl_wire::{Answer, Plan, Refusal};
use std::alloc::{AllocError, Global};

impl Held {
    /// The root of the state, and the byte form of its proof of an address.
    #[tactic(auto, using(crate::proofs::Proofs::has_form))]
    fn proof_told(&self, alloc: Global, address: &Address) -> Result<Answer, AllocError>
        requires lawful { list_all may_serve (values self.now.bound.batches.history) ≡ true }
        ensures { IfOk result (λ a. a ≡ proof_told self.now.bound.batches address.now) }
    {
        let proof = prove(alloc, self.service().state(), address)?;
        Ok(Answer::Proof {
            root: Boxed::new(alloc, self.service().root())?,
            bytes: proof.write(alloc)?,
        })
    }

    /// A proof of an address, at an active circuit alone.
    pub(crate) fn proves(&self, alloc: Global, address: &Address) -> Result<Plan, AllocError>
        requires lawful { list_all may_serve (values self.now.bound.batches.history) ≡ true }
        ensures { IfOk result (λ p. p ≡ planned self.now.site (when_active self.now.bound (Tells (proof_told self.now.bound.batches address.now)))) }
    {
        if !self.runs() {
            return Ok(refuses(alloc, Refusal::NotActive));
        }
        Ok(tells_only(alloc, self.proof_told(alloc, address)?))
    }
}
