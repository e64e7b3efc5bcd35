//! What F + 1 acceptors accepted: the acceptances that a member counted, and one that it hears.
ghost use Rattle.std.specs.Prelude.{◌≡◌, ◌+◌, ◌<◌, ◌∷◌};
ghost use Rattle.spl_acceptor.specs.{Quorums.{count, all_within}, Rows.{is_acceptance_by, any_of, has_accepted, is_chosen, is_prepared}};
ghost use Rattle.spl_paxos.specs.Members.{has_ballot, is_acceptance_of};

use spl_acceptor::{Acceptance, Group};

/// Whether this is what an acceptor accepted.
fn is_about(member: u8, ballot: u64, prepared: bool, x: &Acceptance) -> bool
    ensures { result ≡ is_acceptance_of member ballot prepared x.now }
{
    x.member == member && x.ballot == ballot && x.prepared == prepared
}

fn is_of(acceptor: u8, member: u8, ballot: u64, prepared: bool, x: &Acceptance) -> bool
    ensures { result ≡ is_acceptance_by acceptor member ballot prepared x.now }
{
    x.acceptor == acceptor && is_about(member, ballot, prepared, x)
}

/// Whether this was counted that an acceptor accepted.
pub(crate) fn is_counted(
    counted: &[Acceptance],
    acceptor: u8,
    member: u8,
    ballot: u64,
    prepared: bool,
) -> bool
    ensures { result ≡ has_accepted counted.now member ballot prepared acceptor }
{
    for x in counted {
        if is_of(acceptor, member, ballot, prepared, x) {
            return true;
        }
    }
    false
}

/// By how much an acceptance makes the acceptors from 1 to `most` more that accepted this: by one, or by none where the others have
/// its acceptor.
fn added_by(
    x: &Acceptance,
    others: &[Acceptance],
    member: u8,
    ballot: u64,
    prepared: bool,
    most: u8,
) -> u8
    ensures { count most (has_accepted (x.now ∷ others.now) member ballot prepared)
        ≡ result + count most (has_accepted others.now member ballot prepared) }
{
    if !is_about(member, ballot, prepared, x) {
        return 0;
    }
    if x.acceptor == 0 {
        return 0;
    }
    if most < x.acceptor {
        return 0;
    }
    if is_counted(others, x.acceptor, member, ballot, prepared) {
        return 0;
    }
    1
}

/// How many of the acceptors from 1 to `most` accepted this, by what was counted. One pass, in which only an acceptance of this is
/// looked for among those after it.
fn count_in(counted: &[Acceptance], member: u8, ballot: u64, prepared: bool, most: u8) -> u8
    ensures { result ≡ count most (has_accepted counted.now member ballot prepared) }
{
    match counted.split_first() {
        None => 0,
        Some((x, others)) => {
            let added = added_by(x, others, member, ballot, prepared, most);
            added + count_in(others, member, ballot, prepared, most)
        }
    }
}

/// The same, by what is heard and what was counted.
fn count_accepted(
    heard: &Acceptance,
    counted: &[Acceptance],
    member: u8,
    ballot: u64,
    prepared: bool,
    most: u8,
) -> u8
    ensures { result ≡ count most (has_accepted (heard.now ∷ counted.now) member ballot prepared) }
{
    let added = added_by(heard, counted, member, ballot, prepared, most);
    added + count_in(counted, member, ballot, prepared, most)
}

/// Whether F + 1 acceptors accepted this.
pub(crate) fn is_chosen(
    heard: &Acceptance,
    counted: &[Acceptance],
    group: Group,
    member: u8,
    ballot: u64,
    prepared: bool,
) -> bool
    requires few { group.faults < 128 }
    ensures { result ≡ is_chosen group (heard.now ∷ counted.now) member ballot prepared }
{
    let most = group.acceptors();
    group.faults < count_accepted(heard, counted, member, ballot, prepared, most)
}

/// Whether an acceptance is of a member, with yes, at a ballot that F + 1 acceptors accepted so.
fn has_ballot(
    heard: &Acceptance,
    counted: &[Acceptance],
    group: Group,
    member: u8,
    x: &Acceptance,
) -> bool
    requires few { group.faults < 128 }
    ensures { result ≡ has_ballot group (heard.now ∷ counted.now) member x.now }
{
    x.member == member && x.prepared && is_chosen(heard, counted, group, member, x.ballot, true)
}

/// Whether one of the acceptances has such a ballot.
fn any_has_ballot(heard: &Acceptance, counted: &[Acceptance], group: Group, member: u8) -> bool
    requires few { group.faults < 128 }
    ensures { result ≡ any_of (has_ballot group (heard.now ∷ counted.now) member) (heard.now ∷ counted.now) }
{
    if has_ballot(heard, counted, group, member, heard) {
        return true;
    }
    for x in counted {
        if has_ballot(heard, counted, group, member, x) {
            return true;
        }
    }
    false
}

/// Whether a member has a ballot that F + 1 acceptors accepted with yes. Only the ballots of its own acceptances are tried: what F + 1
/// acceptors accepted is among them.
fn is_prepared(heard: &Acceptance, counted: &[Acceptance], group: Group, member: u8) -> bool
    requires few { group.faults < 128 }
    ensures { result ≡ is_prepared group (heard.now ∷ counted.now) member }
{
    any_has_ballot(heard, counted, group, member)
}

/// Whether each of the members from 1 to `most` has such a ballot. The last one is tried first: where votes come in the order of
/// their members it is the last to have one.
pub(crate) fn are_prepared(
    heard: &Acceptance,
    counted: &[Acceptance],
    group: Group,
    most: u8,
) -> bool
    requires few { group.faults < 128 }
    ensures { result ≡ all_within most (is_prepared group (heard.now ∷ counted.now)) }
{
    most == 0
        || (is_prepared(heard, counted, group, most)
            && are_prepared(heard, counted, group, most - 1))
}
