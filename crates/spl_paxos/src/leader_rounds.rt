//! What a leader keeps of all rounds, and what its steps give there.

use crate::heard::{HeardPromise, OpenBallot};
use crate::leader_row::{noted, on_higher, on_lead, on_promise};
use crate::{LeaderMove, LeaderPlan};
use spl_acceptor::{
    Group, Keeps, Name, PaxosMsg, PaxosNote, PaxosRecord, PledgeList, Stepped, round_kept,
};
use spl_agree::Round;
use std::alloc::{AllocError, Global};
use std::collections::BTreeMap;

/// Of each round the last ballot that a leader used, which is durable, and its open ballot, which is in memory alone. A
/// look-up takes time by the logarithm of the number of rounds.
#[derive(Drop)]
pub struct LeaderRounds {
    pub(crate) used: BTreeMap<u64, u64>,
    pub(crate) opened: BTreeMap<u64, OpenBallot>,
}

impl LeaderRounds {
    ghost use Rattle.std.specs.Prelude.{◌≡◌, ◌<◌, OnOk, IfOk};
    ghost use Rattle.spl_acceptor.specs.{Records.{leader_with, IsChangedAt}, Rows.{Begin, Close, Hear, pair_among, on_lead, on_promise, leader_moved}};
    ghost use Rattle.spl_paxos.specs.{Leaders.leader_in, Plans.{leader_plan, move_of}};

    /// The last ballot that the leader used in a round; 0 where it used none.
    pub fn used(&self, round: Round) -> u64
        ensures { result ≡ (leader_in self.now round).used }
    {
        match self.used.get(&round.0) {
            None => 0,
            Some(ballot) => *ballot,
        }
    }

    /// What leading gives at the leader of this number in this run; nothing is changed yet. An error comes for want of
    /// memory alone.
    pub fn plan_lead(
        &self,
        alloc: Global,
        group: Group,
        here: u8,
        round: Round,
    ) -> Result<LeaderPlan, AllocError>
        requires few { group.faults < 128 }
        ensures { IfOk result (λ p. leader_plan p ≡ on_lead group here (leader_in self.now round) round) }
    {
        on_lead(alloc, group, here, self.used(round), round)
    }

    /// What a promise gives.
    fn plan_promise(
        &self,
        alloc: Global,
        group: Group,
        acceptor: u8,
        round: Round,
        ballot: u64,
        pairs: &PledgeList,
    ) -> Result<LeaderPlan, AllocError>
        requires few { group.faults < 128 }
        ensures { IfOk result (λ p. leader_plan p ≡ on_promise group (leader_in self.now round).opened round acceptor ballot (pair_among pairs.now)) }
    {
        match self.opened.get(&round.0) {
            None => Ok(noted(alloc, PaxosNote::Ignored)),
            Some(open) => on_promise(alloc, group, open, round, acceptor, ballot, pairs),
        }
    }

    fn keep(&mut self, round: Round, change: &PaxosRecord) -> Result<(), AllocError>
        ensures { OnOk result (IsChangedAt (leader_in self.old) round (λ l. leader_with l change.now) (leader_in self.new)) }
    {
        if let PaxosRecord::Used { ballot, .. } = change {
            self.used.insert(round.0, *ballot)?;
        }
        Ok(())
    }

    fn begin(&mut self, alloc: Global, round: Round, ballot: u64) -> Result<(), AllocError>
        ensures { OnOk result (IsChangedAt (leader_in self.old) round (λ l. leader_moved l (Begin ballot)) (leader_in self.new)) }
    {
        let number = ballot;
        let heard = Vec::new(alloc);
        self.opened.insert(round.0, OpenBallot { number, heard })?;
        Ok(())
    }

    fn hear(&mut self, round: Round, acceptor: u8, pairs: PledgeList) -> Result<(), AllocError>
        ensures { OnOk result (IsChangedAt (leader_in self.old) round (λ l. leader_moved l (Hear acceptor (pair_among pairs))) (leader_in self.new)) }
    {
        if let Some(open) = self.opened.get_mut(&round.0) {
            open.heard.insert(0, HeardPromise { acceptor, pairs })?;
        }
        Ok(())
    }

    fn close(&mut self, round: Round)
        ensures { IsChangedAt (leader_in self.old) round (λ l. leader_moved l Close) (leader_in self.new) }
    {
        let _ = self.opened.remove(&round.0);
    }

    fn go_on(&mut self, alloc: Global, round: Round, opening: LeaderMove) -> Result<(), AllocError>
        ensures { OnOk result (IsChangedAt (leader_in self.old) round (λ l. leader_moved l (move_of opening)) (leader_in self.new)) }
    {
        match opening {
            LeaderMove::Keep => Ok(()),
            LeaderMove::Begin { ballot } => self.begin(alloc, round, ballot),
            LeaderMove::Hear { acceptor, pairs } => self.hear(round, acceptor, pairs),
            LeaderMove::Close => {
                self.close(round);
                Ok(())
            }
        }
    }
}

impl Keeps for LeaderRounds {
    ghost use Rattle.std.specs.Prelude.{⊤, refl};
    ghost use Rattle.spl_acceptor.specs.{Processes.{Leader, new_leader, stopped_leader}, Records.leader_with, Rows.{leader_after, leader_row}};
    ghost use Rattle.spl_paxos.specs.{Durable.{leader_lasts, leader_alike, leader_writes}, Leaders.leader_in, Plans.leader_plan};

    ghost Kept = { Leader };

    ghost kept = { leader_in };

    ghost first = { new_leader };

    ghost with = { leader_with };

    ghost after = { leader_after };

    ghost stopped = { stopped_leader };

    ghost heard = { leader_row };

    ghost may_hear = { λ n m. ⊤ };

    type Plan = LeaderPlan;

    ghost plan_of = { leader_plan };

    ghost lasts = { leader_lasts };

    ghost alike = { leader_alike };

    ghost blank = { refl };

    ghost writes = { λ g n l from m may. leader_writes g n l from m };

    fn new(alloc: Global) -> LeaderRounds {
        LeaderRounds {
            used: BTreeMap::new(alloc),
            opened: BTreeMap::new(alloc),
        }
    }

    fn plan(
        &self,
        alloc: Global,
        group: Group,
        from: Name,
        message: &PaxosMsg,
    ) -> Result<LeaderPlan, AllocError> {
        match message {
            PaxosMsg::Promise {
                round,
                ballot,
                pairs,
            } => self.plan_promise(alloc, group, from.number, *round, *ballot, pairs),
            PaxosMsg::Higher { round, ballot } => {
                Ok(on_higher(alloc, self.used(*round), *round, *ballot))
            }
            _ => Ok(noted(alloc, PaxosNote::Ignored)),
        }
    }

    fn change(plan: &LeaderPlan) -> &Option<PaxosRecord> {
        &plan.change
    }

    fn apply(
        &mut self,
        alloc: Global,
        round: Round,
        plan: LeaderPlan,
    ) -> Result<Stepped, AllocError> {
        let LeaderPlan {
            note,
            change,
            opening,
            sends,
        } = plan;
        if let Some(change) = change {
            self.keep(round, &change)?;
        }
        self.go_on(alloc, round, opening)?;
        Ok(Stepped { note, sends })
    }

    fn replay(&mut self, _alloc: Global, change: &PaxosRecord) -> Result<(), AllocError> {
        self.keep(round_kept(change), change)
    }
}
