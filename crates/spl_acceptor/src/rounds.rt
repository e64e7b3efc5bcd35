//! What an acceptor keeps of all rounds.
ghost use Rattle.std.specs.Prelude.{◌≡◌, OnOk};
ghost use Rattle.spl_acceptor.specs.{Held.acceptor_in, Records.{acceptor_with, round_kept, IsChangedAt}, Worlds.round_of};

use crate::held::Held;
use crate::{AcceptorPlan, Group, Keeps, Name, PaxosMsg, PaxosRecord, Stepped};
use spl_agree::Round;
use std::alloc::{AllocError, Global};
use std::collections::BTreeMap;

/// What an acceptor keeps of all rounds. A look-up takes time by the logarithm of the number of rounds.
#[derive(Drop)]
pub struct AcceptorRounds {
    pub(crate) rounds: BTreeMap<u64, Held>,
}

/// The round that a message is about.
pub fn round_of(message: &PaxosMsg) -> Round
    ensures { result ≡ round_of message.now }
{
    match message {
        PaxosMsg::Ask { round, .. } => *round,
        PaxosMsg::Accept { round, .. } => *round,
        PaxosMsg::Promise { round, .. } => *round,
        PaxosMsg::Higher { round, .. } => *round,
        PaxosMsg::Accepted { round, .. } => *round,
    }
}

/// The round of a record.
pub fn round_kept(change: &PaxosRecord) -> Round
    ensures { result ≡ round_kept change.now }
{
    match change {
        PaxosRecord::Promised { round, .. } => *round,
        PaxosRecord::Accepted { round, .. } => *round,
        PaxosRecord::Voted { round, .. } => *round,
        PaxosRecord::Used { round, .. } => *round,
        PaxosRecord::Decided { round, .. } => *round,
    }
}

impl AcceptorRounds {
    fn keep(&mut self, alloc: Global, round: Round, change: &PaxosRecord) -> Result<(), AllocError>
        ensures { OnOk result (IsChangedAt (acceptor_in self.old) round (λ a. acceptor_with a change.now) (acceptor_in self.new)) }
    {
        if let Some(held) = self.rounds.get_mut(&round.0) {
            return held.apply(change);
        }
        let mut held = Held::new(alloc);
        held.apply(change)?;
        self.rounds.insert(round.0, held)?;
        Ok(())
    }
}

impl Keeps for AcceptorRounds {
    ghost use Rattle.std.specs.Prelude.{IsTrue, refl};
    ghost use Rattle.spl_acceptor.specs.{Acceptors.orders_own, Fitting.acceptor_fits, Held.acceptor_in, Plans.acceptor_plan};
    ghost use Rattle.spl_acceptor.specs.{Processes.{Acceptor, new_acceptor}, Records.acceptor_with, Rows.{acceptor_after, acceptor_row}};

    ghost Kept = { Acceptor };

    ghost kept = { acceptor_in };

    ghost first = { new_acceptor };

    ghost with = { acceptor_with };

    ghost after = { acceptor_after };

    ghost stopped = { λ a. a };

    ghost heard = { acceptor_row };

    ghost may_hear = { λ n m. IsTrue (orders_own n m) };

    type Plan = AcceptorPlan;

    ghost plan_of = { acceptor_plan };

    ghost lasts = { λ a p. refl };

    ghost alike = { λ a x. refl };

    ghost blank = { refl };

    ghost writes = { acceptor_fits };

    fn new(alloc: Global) -> AcceptorRounds {
        AcceptorRounds {
            rounds: BTreeMap::new(alloc),
        }
    }

    fn plan(
        &self,
        alloc: Global,
        group: Group,
        from: Name,
        message: &PaxosMsg,
    ) -> Result<AcceptorPlan, AllocError> {
        match self.rounds.get(&round_of(message).0) {
            None => Held::new(alloc).plan(alloc, group, from, message),
            Some(held) => held.plan(alloc, group, from, message),
        }
    }

    fn change(plan: &AcceptorPlan) -> &Option<PaxosRecord> {
        &plan.change
    }

    fn apply(
        &mut self,
        alloc: Global,
        round: Round,
        plan: AcceptorPlan,
    ) -> Result<Stepped, AllocError> {
        let AcceptorPlan {
            note,
            change,
            sends,
        } = plan;
        if let Some(change) = change {
            self.keep(alloc, round, &change)?;
        }
        Ok(Stepped { note, sends })
    }

    fn replay(&mut self, alloc: Global, change: &PaxosRecord) -> Result<(), AllocError> {
        self.keep(alloc, round_kept(change), change)
    }
}
