//! Acts are what the admin group of a circuit agrees on.
use crate::key::ActKey;
use crate::ledger::Ledger;
use spl_agree::{Admit, Agreed, Reason};
use spl_base::Value;
use spl_circuit::{Act, ActKind};
use std::alloc::{AllocError, Global};

impl Agreed for Ledger {
    ghost use Rattle.std.specs.Prelude.{◌≡◌, refl};
    ghost use Rattle.spl_circuit.specs.{Equality.same_act, Acts.{act_rules, stray_act}, Same.same_acts};

    type Key = ActKey;

    type Value = Act;

    ghost items = { λ s. s.acts };

    ghost rules = { λ s. act_rules s.definition };

    ghost key_of = { λ a. record { node = a.node; turn = a.turn } };

    ghost same_of = { same_act };

    ghost stray_of = { λ a. stray_act a.kind };

    ghost keyed = { λ s u v. refl };

    ghost samed = { λ s u v. refl };

    ghost same_is = { same_acts };

    ghost strayed = { λ s v. refl };

    fn key(value: &Act) -> ActKey {
        ActKey {
            node: value.node,
            turn: value.turn,
        }
    }

    fn same(a: &Act, b: &Act) -> bool {
        a.same(b)
    }

    fn stray(value: &Act) -> Option<Reason> {
        match value.kind {
            ActKind::Propose(_) => Some(Reason::CANNOT_BIND),
            _ => None,
        }
    }

    fn admits(&self, sender: u8, value: &Act) -> Admit {
        if self.is_at(sender, &value.node) {
            self.admits_kind(&value.kind)
        } else {
            Admit::Ignore
        }
    }

    fn copy(alloc: Global, value: &Act) -> Result<Act, AllocError> {
        value.copy(alloc)
    }

    fn check(&self, _alloc: Global, value: &Act) -> Result<Option<Reason>, AllocError> {
        Ok(self.misfit(value))
    }

    #[tactic(auto, using(spl_circuit::proofs::Lives::life_more))]
    fn apply(&mut self, alloc: Global, value: Act) -> Result<(), AllocError> {
        self.acts.reserve(1)?;
        let place = self.acts.len() as u32;
        self.standing
            .take(alloc, self.definition.get(), place, &value)?;
        self.acts.push(value).unwrap();
        Ok(())
    }
}
