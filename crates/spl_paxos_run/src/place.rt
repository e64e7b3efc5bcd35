//! The processes of a run by their places.
ghost use Rattle.std.specs.Prelude.{◌≡◌, ◌<◌, ◌≤◌, IsTrue};
ghost use Rattle.spl_acceptor.specs.Worlds.{is_in_range, has_name};
ghost use Rattle.spl_paxos.specs.Lines.{happening_of};
ghost use Rattle.spl_paxos_safety.specs.Written.{process_of};
ghost use Rattle.spl_paxos_run.specs.Places.{process_count, process_place, name_at, has_line_names};

use spl_acceptor::{ACCEPTOR, Group, LEADER, MEMBER, Name};
use spl_paxos::PaxosLine;

/// How many processes a run has.
pub fn process_count(group: Group) -> u8
    requires members { group.members ≤ 8 }
    requires faults { group.faults ≤ 2 }
    ensures { result ≡ process_count group }
{
    group.members + group.acceptors() + 3
}

/// The place of a process of a run.
pub(crate) fn place_of(group: Group, name: Name) -> u8
    requires members { group.members ≤ 8 }
    requires faults { group.faults ≤ 2 }
    requires named { IsTrue (has_name group name) }
    ensures place { result ≡ process_place group name }
    ensures below { result < process_count group }
{
    match name.kind {
        MEMBER => name.number - 1,
        ACCEPTOR => group.members + name.number - 1,
        _ => group.members + group.acceptors() + name.number - 1,
    }
}

/// The process at a place of a run.
pub(crate) fn name_at(group: Group, place: u8) -> Name
    requires members { group.members ≤ 8 }
    requires faults { group.faults ≤ 2 }
    requires below { place < process_count group }
    ensures name { result ≡ name_at group place }
    ensures named { IsTrue (has_name group result) }
{
    let number = place + 1;
    if place < group.members {
        return Name {
            kind: MEMBER,
            number,
        };
    }
    let before = group.members + group.acceptors();
    if place < before {
        return Name {
            kind: ACCEPTOR,
            number: number - group.members,
        };
    }
    Name {
        kind: LEADER,
        number: number - before,
    }
}

/// The process that a line is for.
pub(crate) fn process_of(line: &PaxosLine) -> Name
    ensures { result ≡ process_of (happening_of line.now) }
{
    match line {
        PaxosLine::Vote { member, .. } | PaxosLine::Show { member, .. } => Name {
            kind: MEMBER,
            number: *member,
        },
        PaxosLine::Lead { leader, .. } => Name {
            kind: LEADER,
            number: *leader,
        },
        PaxosLine::Deliver { to, .. } => *to,
        PaxosLine::Stop(name) | PaxosLine::Start(name) => *name,
    }
}

// Whether a number is one of those from 1 to `most`.
fn is_within(most: u8, number: u8) -> bool
    ensures { result ≡ is_in_range most number }
{
    0 < number && number <= most
}

// Whether a run has a process.
fn has_name(group: Group, name: Name) -> bool
    requires faults { group.faults ≤ 2 }
    ensures { result ≡ has_name group name }
{
    (name.kind == MEMBER && is_within(group.members, name.number))
        || ((name.kind == ACCEPTOR && is_within(group.acceptors(), name.number))
            || (name.kind == LEADER && is_within(3, name.number)))
}

/// Whether a line names no other processes than those of a run.
pub(crate) fn knows(group: Group, line: &PaxosLine) -> bool
    requires faults { group.faults ≤ 2 }
    ensures { result ≡ has_line_names group line.now }
{
    match line {
        PaxosLine::Deliver { from, to, .. } => has_name(group, *from) && has_name(group, *to),
        _ => has_name(group, process_of(line)),
    }
}
