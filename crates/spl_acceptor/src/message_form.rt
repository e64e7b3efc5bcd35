//! The byte form of messages.
ghost use Rattle.std.specs.Prelude.{◌≡◌};

use crate::form::{put_ballot, put_pledge, take_round};
use crate::{PaxosMsg, Pledge, PledgeList};
use spl_agree::Round;
use spl_base::{
    Field, Malformed, Piece, Reader, Writer, put_list, read_prefix, spelled, take_list,
};
use std::alloc::{AllocError, Global};

/// The most pledges of a promise: one of each member.
const MOST_PLEDGES: u16 = 8;

fn pledge(member: u8, ballot: u64, prepared: bool) -> Pledge
    ensures { result ≡ record { member = member; ballot = ballot; prepared = prepared } }
{
    Pledge {
        member,
        ballot,
        prepared,
    }
}

fn promise(round: Round, ballot: u64, pairs: PledgeList) -> PaxosMsg
    ensures { result ≡ PaxosMsg.Promise round ballot pairs }
{
    PaxosMsg::Promise {
        round,
        ballot,
        pairs,
    }
}

fn accept(round: Round, order: Pledge) -> PaxosMsg
    ensures { result ≡ PaxosMsg.Accept round order.member order.ballot order.prepared }
{
    PaxosMsg::Accept {
        round,
        member: order.member,
        ballot: order.ballot,
        prepared: order.prepared,
    }
}

fn accepted(round: Round, order: Pledge) -> PaxosMsg
    ensures { result ≡ PaxosMsg.Accepted round order.member order.ballot order.prepared }
{
    PaxosMsg::Accepted {
        round,
        member: order.member,
        ballot: order.ballot,
        prepared: order.prepared,
    }
}

impl Field for PaxosMsg {
    ghost use Rattle.spl_acceptor.specs.Forms.{paxos_message_form, exact_paxos_message};

    ghost form = { paxos_message_form };

    fn put_parts(&self, w: &mut Writer) -> Result<(), AllocError> {
        match self {
            PaxosMsg::Ask { round, ballot } => put_ballot(1, *round, *ballot, w),
            PaxosMsg::Accept {
                round,
                member,
                ballot,
                prepared,
            } => put_pledge(2, *round, pledge(*member, *ballot, *prepared), w),
            PaxosMsg::Promise {
                round,
                ballot,
                pairs,
            } => {
                put_ballot(3, *round, *ballot, w)?;
                put_list(pairs.as_slice(), w)
            }
            PaxosMsg::Higher { round, ballot } => put_ballot(4, *round, *ballot, w),
            PaxosMsg::Accepted {
                round,
                member,
                ballot,
                prepared,
            } => put_pledge(5, *round, pledge(*member, *ballot, *prepared), w),
        }
    }

    fn take_parts(alloc: Global, r: &mut Reader) -> Result<PaxosMsg, Malformed> {
        let at = r.place();
        match u8::take_parts(alloc, r)? {
            1 => {
                let round = take_round(alloc, r)?;
                let ballot = u64::take_parts(alloc, r)?;
                Ok(PaxosMsg::Ask { round, ballot })
            }
            2 => {
                let round = take_round(alloc, r)?;
                let order = Pledge::take_parts(alloc, r)?;
                Ok(accept(round, order))
            }
            3 => {
                let round = take_round(alloc, r)?;
                let ballot = u64::take_parts(alloc, r)?;
                let pairs = take_list(alloc, r, MOST_PLEDGES)?;
                Ok(promise(round, ballot, pairs))
            }
            4 => {
                let round = take_round(alloc, r)?;
                let ballot = u64::take_parts(alloc, r)?;
                Ok(PaxosMsg::Higher { round, ballot })
            }
            5 => {
                let round = take_round(alloc, r)?;
                let order = Pledge::take_parts(alloc, r)?;
                Ok(accepted(round, order))
            }
            _ => Err(Malformed::At { at }),
        }
    }

    ghost exact = { exact_paxos_message };
}

impl PaxosMsg {
    ghost use Rattle.std.specs.Prelude.{◌≡◌, ◌++◌, IsTrue, IfOk, OnOk, drop};
    ghost use Rattle.spl_base.specs.Prefix.{prefix_of, Answers, ReadsBack};
    ghost use Rattle.spl_acceptor.specs.Forms.{paxos_message_form};

    /// The byte form, which a message has where members in it have numbers from 1 to 8 and a promise at most 8 pledges.
    /// Fails only where memory runs out.
    pub fn write(&self, alloc: Global) -> Result<Piece, AllocError>
        requires few { IsTrue (paxos_message_form.bounded self.now) }
        ensures spelled { IfOk result (λ p. p ≡ paxos_message_form.spell self.now) }
        ensures fits { OnOk result (IsTrue (paxos_message_form.fits self.now)) }
    {
        spelled(alloc, self)
    }

    /// The message at the beginning, and how many bytes it takes. The fault is the place of the first field that cannot be
    /// read, or that memory ran out.
    pub fn read(alloc: Global, bytes: &[u8]) -> Result<(PaxosMsg, usize), Malformed>
        ensures exact { Answers result (prefix_of paxos_message_form bytes.now) }
        ensures found { IfOk result (λ x. (bytes.now ≡ paxos_message_form.spell x.0 ++ drop x.1 bytes.now) × IsTrue (paxos_message_form.fits x.0)) }
        ensures bounded { IfOk result (λ x. IsTrue (paxos_message_form.bounded x.0)) }
        ensures only { ReadsBack paxos_message_form bytes.now result }
    {
        read_prefix(alloc, bytes)
    }
}
