//! Durable changes of a cell.
ghost use Rattle.std.specs.Prelude.{◌≡◌, ◌++◌, IsTrue, OnOk};
ghost use Rattle.spl_base.specs.Form.{Reads, ◌&◌};
ghost use Rattle.spl_wire.specs.Bodies as form;

use crate::body::{put_reason, put_two, take_reason, take_two};
use spl_agree::{Generation, GroupChange, Reason, Round};
use spl_base::{Field, Malformed, Reader, Writer};
use spl_circuit::{Act, CheckedDefinition};
use spl_command::Batch;
use std::alloc::{AllocError, Global};

/// A durable change of a cell.
#[derive(Drop)]
pub enum Change {
    /// The cell is bound to the definition, open and fresh.
    Bind(CheckedDefinition),
    /// A change of the node's member in the admin group.
    Admin(GroupChange<Act>),
    /// A change of the node's member in the service group.
    Service(GroupChange<Batch>),
    /// The node takes no further part.
    Abandon,
    /// The cell forgets all but the generation.
    Purge,
    /// The node's turn is this one. No plan gives it.
    Turn(u32),
    /// The cell is purged with this generation. No plan gives it.
    Gone(Generation),
}

fn put_refused<V: Field>(value: &V, reason: Reason, w: &mut Writer) -> Result<(), AllocError>
    requires { IsTrue (V.form.bounded value.now) }
    ensures ok { OnOk result (w.new ≡ w.old ++ (V.form & form.reason_form).spell (value.now, reason)) }
    ensures fits { OnOk result (IsTrue ((V.form & form.reason_form).fits (value.now, reason))) }
{
    value.put_parts(w)?;
    put_reason(reason, w)
}

fn take_refused<V: Field>(alloc: Global, r: &mut Reader) -> Result<(V, Reason), Malformed>
    ensures { Reads (λ x. x) result r.new ((V.form & form.reason_form).parse r.old) }
{
    let value = V::take_parts(alloc, r)?;
    let reason = take_reason(alloc, r)?;
    Ok((value, reason))
}

impl Change {
    ghost use Rattle.std.specs.{Prelude.{◌≡◌, ◌++◌, IsTrue, OnOk}, Int.w8};
    ghost use Rattle.spl_base.specs.Form.{Reads, numbered, number_bytes};
    ghost use Rattle.spl_wire.specs.Changes.{group_tags, put_change, of_group};

    /// The tag of a change of a group.
    fn tag<V: Field>(change: &GroupChange<V>) -> u8
        ensures { result ≡ (put_change V.form change.now).tag }
    {
        match change {
            GroupChange::Queue(_) => 2,
            GroupChange::Refuse(_, _) => 3,
            GroupChange::Begin(_) => 4,
            GroupChange::Seen(_) => 5,
            GroupChange::Promise(_, _) => 6,
            GroupChange::Abort => 7,
            GroupChange::Commit(_, _) => 8,
            GroupChange::Restore { .. } => 11,
            GroupChange::Kept(_, _) => 12,
        }
    }

    /// Appends the fields of a change of a group.
    fn put_fields<V: Field>(change: &GroupChange<V>, w: &mut Writer) -> Result<(), AllocError>
        requires { IsTrue (put_change V.form change.now).bounded }
        ensures ok { OnOk result (w.new ≡ w.old ++ (put_change V.form change.now).bytes) }
        ensures fits { OnOk result (IsTrue (put_change V.form change.now).fits) }
    {
        match change {
            GroupChange::Queue(value) => value.put_parts(w),
            GroupChange::Refuse(value, reason) => put_refused(value, *reason, w),
            GroupChange::Begin(round) => round.0.put_parts(w),
            GroupChange::Seen(round) => round.0.put_parts(w),
            GroupChange::Promise(round, value) => put_two(&round.0, value, w),
            GroupChange::Abort => Ok(()),
            GroupChange::Commit(round, value) => put_two(&round.0, value, w),
            GroupChange::Restore { next, seen } => put_two(&next.0, &seen.0, w),
            GroupChange::Kept(value, reason) => put_refused(value, *reason, w),
        }
    }

    /// Appends the byte form of a change of the group of this number.
    fn put_group<V: Field>(
        group: u8,
        change: &GroupChange<V>,
        w: &mut Writer,
    ) -> Result<(), AllocError>
        requires { IsTrue (put_change V.form change.now).bounded }
        ensures ok { let c = put_change V.form change.now in OnOk result (w.new ≡ w.old ++ (number_bytes w8 c.tag ++ (number_bytes w8 group ++ c.bytes))) }
        ensures fits { OnOk result (IsTrue (put_change V.form change.now).fits) }
    {
        put_two(&Change::tag(change), &group, w)?;
        Change::put_fields(change, w)
    }

    /// Reads the fields of a change of a group with this tag.
    fn take_fields<V: Field>(
        tag: u8,
        alloc: Global,
        r: &mut Reader,
    ) -> Result<GroupChange<V>, Malformed>
        ensures { Reads (λ x. x) result r.new ((group_tags V.form).take tag r.old.place r.old) }
    {
        let at = r.place();
        match tag {
            2 => Ok(GroupChange::Queue(V::take_parts(alloc, r)?)),
            3 => {
                let (value, reason) = take_refused(alloc, r)?;
                Ok(GroupChange::Refuse(value, reason))
            }
            4 => Ok(GroupChange::Begin(Round(u64::take_parts(alloc, r)?))),
            5 => Ok(GroupChange::Seen(Round(u64::take_parts(alloc, r)?))),
            6 => {
                let (round, value) = take_two(alloc, r)?;
                Ok(GroupChange::Promise(Round(round), value))
            }
            7 => Ok(GroupChange::Abort),
            8 => {
                let (round, value) = take_two(alloc, r)?;
                Ok(GroupChange::Commit(Round(round), value))
            }
            11 => {
                let (next, seen) = take_two(alloc, r)?;
                Ok(GroupChange::Restore {
                    next: Round(next),
                    seen: Round(seen),
                })
            }
            12 => {
                let (value, reason) = take_refused(alloc, r)?;
                Ok(GroupChange::Kept(value, reason))
            }
            _ => Err(Malformed::At { at }),
        }
    }

    /// Reads the group of a change with this tag, and its fields.
    fn take_group(tag: u8, alloc: Global, r: &mut Reader) -> Result<Change, Malformed>
        ensures { Reads (λ x. x) result r.new (numbered (of_group tag) r.old) }
    {
        let at = r.place();
        match u8::take_parts(alloc, r)? {
            1 => Ok(Change::Admin(Change::take_fields(tag, alloc, r)?)),
            2 => Ok(Change::Service(Change::take_fields(tag, alloc, r)?)),
            _ => Err(Malformed::At { at }),
        }
    }
}

impl Field for Change {
    ghost use Rattle.spl_wire.specs.Changes.{change_form, exact_change};

    ghost form = { change_form };

    fn put_parts(&self, w: &mut Writer) -> Result<(), AllocError> {
        match self {
            Change::Bind(definition) => {
                1u8.put_parts(w)?;
                definition.put_parts(w)
            }
            Change::Admin(change) => Change::put_group(1, change, w),
            Change::Service(change) => Change::put_group(2, change, w),
            Change::Abandon => 9u8.put_parts(w),
            Change::Purge => 10u8.put_parts(w),
            Change::Turn(turn) => {
                13u8.put_parts(w)?;
                turn.put_parts(w)
            }
            Change::Gone(generation) => {
                14u8.put_parts(w)?;
                generation.0.put_parts(w)
            }
        }
    }

    fn take_parts(alloc: Global, r: &mut Reader) -> Result<Change, Malformed> {
        let at = r.place();
        let tag = u8::take_parts(alloc, r)?;
        match tag {
            1 => Ok(Change::Bind(CheckedDefinition::take_parts(alloc, r)?)),
            2..=8 | 11 | 12 => Change::take_group(tag, alloc, r),
            9 => Ok(Change::Abandon),
            10 => Ok(Change::Purge),
            13 => Ok(Change::Turn(u32::take_parts(alloc, r)?)),
            14 => Ok(Change::Gone(Generation(u32::take_parts(alloc, r)?))),
            _ => Err(Malformed::At { at }),
        }
    }

    ghost exact = { exact_change };
}
