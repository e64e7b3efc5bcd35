//! What a member keeps of all rounds, and what messages give there.

use crate::MemberPlan;
use crate::kept::Kept;
use crate::member_row::member_row;
use spl_acceptor::{
    Acceptance, Group, Keeps, Name, PaxosMsg, PaxosRecord, Stepped, round_kept, round_of,
};
use spl_agree::Round;
use std::alloc::{AllocError, Global};
use std::collections::BTreeMap;

/// Of each round what a member keeps durably and, in memory alone, what it counted. A look-up takes time by the logarithm
/// of the number of rounds.
#[derive(Drop)]
pub struct MemberRounds {
    pub(crate) kept: BTreeMap<u64, Kept>,
    pub(crate) counted: BTreeMap<u64, Vec<Acceptance>>,
}

impl MemberRounds {
    ghost use Rattle.std.specs.Prelude.{◌≡◌, OnOk};
    ghost use Rattle.spl_acceptor.specs.{Records.{member_with, IsChangedAt}, Rows.member_moved};
    ghost use Rattle.spl_paxos.specs.{Members.member_in, Plans.counting};

    /// The vote that is kept in a round; None exactly where the member has none there.
    pub fn voted(&self, round: Round) -> Option<bool>
        ensures { result ≡ (member_in self.now round).vote }
    {
        match self.kept.get(&round.0) {
            None => None,
            Some(kept) => kept.vote,
        }
    }

    /// The decision that is kept in a round; None exactly where the member has none there.
    pub fn decision(&self, round: Round) -> Option<bool>
        ensures { result ≡ (member_in self.now round).decision }
    {
        match self.kept.get(&round.0) {
            None => None,
            Some(kept) => kept.decision,
        }
    }

    fn keep(&mut self, round: Round, change: &PaxosRecord) -> Result<(), AllocError>
        ensures { OnOk result (IsChangedAt (member_in self.old) round (λ m. member_with m change.now) (member_in self.new)) }
    {
        let kept = match self.kept.get(&round.0) {
            None => Kept::NONE,
            Some(kept) => *kept,
        };
        self.kept.insert(round.0, kept.with(change))?;
        Ok(())
    }

    fn count(&mut self, alloc: Global, round: Round, heard: Acceptance) -> Result<(), AllocError>
        ensures { OnOk result (IsChangedAt (member_in self.old) round (λ m. member_moved m (counting (Some heard))) (member_in self.new)) }
    {
        if let Some(counted) = self.counted.get_mut(&round.0) {
            counted.insert(0, heard)?;
            return Ok(());
        }
        let mut counted = Vec::new(alloc);
        counted.push(heard)?;
        self.counted.insert(round.0, counted)?;
        Ok(())
    }
}

impl Keeps for MemberRounds {
    ghost use Rattle.std.specs.Prelude.{⊤, refl};
    ghost use Rattle.spl_acceptor.specs.Processes.{VotingMember, new_paxos_member, stopped_member};
    ghost use Rattle.spl_acceptor.specs.{Records.member_with, Rows.{member_after, member_row}};
    ghost use Rattle.spl_paxos.specs.{Durable.{member_lasts, member_alike, member_writes}, Members.member_in, Plans.member_plan};

    ghost Kept = { VotingMember };

    ghost kept = { member_in };

    ghost first = { new_paxos_member };

    ghost with = { member_with };

    ghost after = { member_after };

    ghost stopped = { stopped_member };

    ghost heard = { member_row };

    ghost may_hear = { λ n m. ⊤ };

    type Plan = MemberPlan;

    ghost plan_of = { member_plan };

    ghost lasts = { member_lasts };

    ghost alike = { member_alike };

    ghost blank = { refl };

    ghost writes = { λ g n m from x may. member_writes g n m from x };

    fn new(alloc: Global) -> MemberRounds {
        MemberRounds {
            kept: BTreeMap::new(alloc),
            counted: BTreeMap::new(alloc),
        }
    }

    fn plan(
        &self,
        alloc: Global,
        group: Group,
        from: Name,
        message: &PaxosMsg,
    ) -> Result<MemberPlan, AllocError> {
        let round = round_of(message);
        let decision = self.decision(round);
        match self.counted.get(&round.0) {
            None => Ok(member_row(alloc, group, decision, &[], from, message)),
            Some(counted) => Ok(member_row(alloc, group, decision, counted, from, message)),
        }
    }

    fn change(plan: &MemberPlan) -> &Option<PaxosRecord> {
        &plan.change
    }

    fn apply(
        &mut self,
        alloc: Global,
        round: Round,
        plan: MemberPlan,
    ) -> Result<Stepped, AllocError> {
        let MemberPlan {
            note,
            change,
            count,
            sends,
        } = plan;
        if let Some(change) = change {
            self.keep(round, &change)?;
        }
        if let Some(heard) = count {
            self.count(alloc, round, heard)?;
        }
        Ok(Stepped { note, sends })
    }

    fn replay(&mut self, _alloc: Global, change: &PaxosRecord) -> Result<(), AllocError> {
        self.keep(round_kept(change), change)
    }
}
