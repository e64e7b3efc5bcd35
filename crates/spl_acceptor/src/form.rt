//! The byte forms of records and messages.
ghost use Rattle.std.specs.{Prelude.{◌≡◌, ◌++◌, IsTrue, OnOk}, Int.w8};
ghost use Rattle.spl_base.specs.Form.{Reads, ◌&◌, number_bytes};
ghost use Rattle.spl_acceptor.specs.Forms.{is_member_number, round_or_ballot, pledge};

use crate::{PaxosRecord, Pledge};
use spl_agree::Round;
use spl_base::{Field, Malformed, Piece, Reader, Writer, read_prefix, spelled};
use std::alloc::{AllocError, Global};

/// The highest number of a member.
const MOST_MEMBERS: u8 = 8;

fn is_member(number: u8) -> bool
    ensures { result ≡ is_member_number number }
{
    0 < number && number <= MOST_MEMBERS
}

impl Field for Pledge {
    ghost use Rattle.spl_acceptor.specs.Forms.{pledge, exact_pledge};

    ghost form = { pledge };

    fn put_parts(&self, w: &mut Writer) -> Result<(), AllocError> {
        self.member.put_parts(w)?;
        self.ballot.put_parts(w)?;
        self.prepared.put_parts(w)
    }

    fn take_parts(alloc: Global, r: &mut Reader) -> Result<Pledge, Malformed> {
        let at = r.place();
        let member = u8::take_parts(alloc, r)?;
        if !is_member(member) {
            return Err(Malformed::At { at });
        }
        let ballot = u64::take_parts(alloc, r)?;
        let prepared = bool::take_parts(alloc, r)?;
        Ok(Pledge {
            member,
            ballot,
            prepared,
        })
    }

    ghost exact = { exact_pledge };
}

/// Appends a tag, a round and a ballot.
pub(crate) fn put_ballot(
    tag: u8,
    round: Round,
    ballot: u64,
    w: &mut Writer,
) -> Result<(), AllocError>
    ensures ok { OnOk result (w.new ≡ w.old ++ (number_bytes w8 tag ++ (round_or_ballot & round_or_ballot).spell (round, ballot))) }
    ensures fits { OnOk result (IsTrue ((round_or_ballot & round_or_ballot).fits (round, ballot))) }
{
    tag.put_parts(w)?;
    round.0.put_parts(w)?;
    ballot.put_parts(w)
}

/// Appends a tag, a round and a pledge.
pub(crate) fn put_pledge(
    tag: u8,
    round: Round,
    order: Pledge,
    w: &mut Writer,
) -> Result<(), AllocError>
    requires { IsTrue (pledge.bounded order) }
    ensures ok { OnOk result (w.new ≡ w.old ++ (number_bytes w8 tag ++ (round_or_ballot & pledge).spell (round, order))) }
    ensures fits { OnOk result (IsTrue ((round_or_ballot & pledge).fits (round, order))) }
{
    tag.put_parts(w)?;
    round.0.put_parts(w)?;
    order.put_parts(w)
}

/// Reads a round.
pub(crate) fn take_round(alloc: Global, r: &mut Reader) -> Result<Round, Malformed>
    ensures { Reads (λ x. x) result r.new (round_or_ballot.parse r.old) }
{
    Ok(Round(u64::take_parts(alloc, r)?))
}

fn accepted(round: Round, order: Pledge) -> PaxosRecord
    ensures { result ≡ PaxosRecord.Accepted round order.member order.ballot order.prepared }
{
    PaxosRecord::Accepted {
        round,
        member: order.member,
        ballot: order.ballot,
        prepared: order.prepared,
    }
}

impl Field for PaxosRecord {
    ghost use Rattle.spl_acceptor.specs.Forms.{paxos_record_form, exact_paxos_record};

    ghost form = { paxos_record_form };

    fn put_parts(&self, w: &mut Writer) -> Result<(), AllocError> {
        match self {
            PaxosRecord::Promised { round, ballot } => put_ballot(1, *round, *ballot, w),
            PaxosRecord::Accepted {
                round,
                member,
                ballot,
                prepared,
            } => {
                let order = Pledge {
                    member: *member,
                    ballot: *ballot,
                    prepared: *prepared,
                };
                put_pledge(2, *round, order, w)
            }
            PaxosRecord::Voted { round, yes } => {
                3u8.put_parts(w)?;
                round.0.put_parts(w)?;
                yes.put_parts(w)
            }
            PaxosRecord::Used { round, ballot } => put_ballot(4, *round, *ballot, w),
            PaxosRecord::Decided { round, commit } => {
                5u8.put_parts(w)?;
                round.0.put_parts(w)?;
                commit.put_parts(w)
            }
        }
    }

    fn take_parts(alloc: Global, r: &mut Reader) -> Result<PaxosRecord, Malformed> {
        let at = r.place();
        match u8::take_parts(alloc, r)? {
            1 => {
                let round = take_round(alloc, r)?;
                let ballot = u64::take_parts(alloc, r)?;
                Ok(PaxosRecord::Promised { round, ballot })
            }
            2 => {
                let round = take_round(alloc, r)?;
                let order = Pledge::take_parts(alloc, r)?;
                Ok(accepted(round, order))
            }
            3 => {
                let round = take_round(alloc, r)?;
                let yes = bool::take_parts(alloc, r)?;
                Ok(PaxosRecord::Voted { round, yes })
            }
            4 => {
                let round = take_round(alloc, r)?;
                let ballot = u64::take_parts(alloc, r)?;
                Ok(PaxosRecord::Used { round, ballot })
            }
            5 => {
                let round = take_round(alloc, r)?;
                let commit = bool::take_parts(alloc, r)?;
                Ok(PaxosRecord::Decided { round, commit })
            }
            _ => Err(Malformed::At { at }),
        }
    }

    ghost exact = { exact_paxos_record };
}

impl PaxosRecord {
    ghost use Rattle.std.specs.Prelude.{◌≡◌, ◌++◌, IsTrue, IfOk, OnOk, drop};
    ghost use Rattle.spl_base.specs.Prefix.{prefix_of, Answers, ReadsBack};
    ghost use Rattle.spl_acceptor.specs.Forms.{paxos_record_form};

    /// The byte form, which a record has where a member in it has a number from 1 to 8. Fails only where memory runs out.
    pub fn write(&self, alloc: Global) -> Result<Piece, AllocError>
        requires named { IsTrue (paxos_record_form.bounded self.now) }
        ensures spelled { IfOk result (λ p. p ≡ paxos_record_form.spell self.now) }
        ensures fits { OnOk result (IsTrue (paxos_record_form.fits self.now)) }
    {
        spelled(alloc, self)
    }

    /// The record at the beginning, and how many bytes it takes. The fault is the place of the first field that cannot be
    /// read, or that memory ran out.
    pub fn read(alloc: Global, bytes: &[u8]) -> Result<(PaxosRecord, usize), Malformed>
        ensures exact { Answers result (prefix_of paxos_record_form bytes.now) }
        ensures found { IfOk result (λ x. (bytes.now ≡ paxos_record_form.spell x.0 ++ drop x.1 bytes.now) × IsTrue (paxos_record_form.fits x.0)) }
        ensures bounded { IfOk result (λ x. IsTrue (paxos_record_form.bounded x.0)) }
        ensures only { ReadsBack paxos_record_form bytes.now result }
    {
        read_prefix(alloc, bytes)
    }
}
