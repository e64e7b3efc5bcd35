//! What waits at a circuit of a node, and for which member.
ghost use Rattle.std.specs.{Prelude.{◌≡◌, ◌++◌, false, IfOk, OnOk, decimal}, List.flat_map};
ghost use Rattle.spl_cell.specs.Reading.{bound_definition};
ghost use Rattle.spl_circuit.specs.Nodes.{has_node};
ghost use Rattle.spl_serve.specs.Waits.{acceptances, act_waits, batch_waits, definition_members, message_waits, send_waits, unless_accepted, waits_at};
ghost use Rattle.spl_serve.specs.Waits.{waits_text};

use itoa::Buffer;
use spl_agree::CommitMsg;
use spl_answer::append_text;
use spl_base::{BatchId, NodeId, Piece};
use spl_cell::Cell;
use spl_circuit::{Act, Lifecycle};
use spl_command::Batch;
use spl_wire::{Answer, Event, Message, Outgoing};
use std::alloc::{AllocError, Global};

fn append(bytes: &[u8], out: &mut Vec<u8>) -> Result<(), AllocError>
    ensures { OnOk result (out.new.items ≡ out.old.items ++ bytes.now) }
{
    out.extend_from_slice(bytes)
}

fn append_id(id: BatchId, out: &mut Vec<u8>) -> Result<(), AllocError>
    ensures { OnOk result (out.new.items ≡ out.old.items ++ decimal id) }
{
    let mut buffer = Buffer::new();
    append(buffer.format(id.0).as_bytes(), out)
}

fn has_node(nodes: &[NodeId], node: &NodeId) -> bool
    ensures { result ≡ has_node nodes.now node.now }
{
    for other in nodes {
        if other == node {
            return true;
        }
    }
    false
}

// A node, unless it has accepted.
fn append_unless_accepted(
    words: &[u8],
    accepted: &[NodeId],
    node: &NodeId,
    out: &mut Vec<u8>,
) -> Result<(), AllocError>
    ensures { OnOk result (out.new.items ≡ out.old.items ++ unless_accepted words.now accepted.now node.now) }
{
    if has_node(accepted, node) {
        return Ok(());
    }
    append(words, out)?;
    append(node.bytes(), out)
}

fn append_missing(
    words: &[u8],
    accepted: &[NodeId],
    members: &[NodeId],
    out: &mut Vec<u8>,
) -> Result<(), AllocError>
    ensures { OnOk result (out.new.items ≡ out.old.items ++ flat_map (unless_accepted words.now accepted.now) members.now) }
{
    for member in members {
        append_unless_accepted(words, accepted, member, out)?;
    }
    Ok(())
}

// The members whose acceptance is missing.
fn append_acceptances(
    lifecycle: Lifecycle,
    accepted: &[NodeId],
    members: &[NodeId],
    out: &mut Vec<u8>,
) -> Result<(), AllocError>
    ensures { OnOk result (out.new.items ≡ out.old.items ++ acceptances lifecycle accepted.now members.now) }
{
    match lifecycle {
        Lifecycle::Proposed => {
            append_missing(b" circuit:proposal:accept:", accepted, members, out)
        }
        Lifecycle::Disbanding => {
            append_missing(b" circuit:disband:accept:", accepted, members, out)
        }
        _ => Ok(()),
    }
}

fn append_act(to: &NodeId, body: &CommitMsg<Act>, out: &mut Vec<u8>) -> Result<(), AllocError>
    ensures { OnOk result (out.new.items ≡ out.old.items ++ act_waits to.now body.now) }
{
    match body {
        CommitMsg::VoteRequest { value, .. } => {
            append(b" act:", out)?;
            append(value.node.bytes(), out)?;
            append(b":vote:", out)?;
        }
        CommitMsg::DecisionRequest { .. } => append(b" act:-:decision:", out)?,
        CommitMsg::Forward { value, .. } => {
            append(b" act:", out)?;
            append(value.node.bytes(), out)?;
            append(b":round:", out)?;
        }
        _ => return Ok(()),
    }
    append(to.bytes(), out)
}

fn append_batch(to: &NodeId, body: &CommitMsg<Batch>, out: &mut Vec<u8>) -> Result<(), AllocError>
    ensures { OnOk result (out.new.items ≡ out.old.items ++ batch_waits to.now body.now) }
{
    match body {
        CommitMsg::VoteRequest { value, .. } => {
            append(b" batch:", out)?;
            append_id(value.id, out)?;
            append(b":vote:", out)?;
        }
        CommitMsg::DecisionRequest { .. } => append(b" batch:-:decision:", out)?,
        CommitMsg::Forward { value, .. } => {
            append(b" batch:", out)?;
            append_id(value.id, out)?;
            append(b":round:", out)?;
        }
        _ => return Ok(()),
    }
    append(to.bytes(), out)
}

// Whom a message that a tick would send asks for what.
fn append_asking(to: &NodeId, message: &Message, out: &mut Vec<u8>) -> Result<(), AllocError>
    ensures { OnOk result (out.new.items ≡ out.old.items ++ message_waits to.now message.now) }
{
    match message {
        Message::Admin { body, .. } => append_act(to, body, out),
        Message::Scabbard { body, .. } => append_batch(to, body, out),
    }
}

fn append_sends(sends: &[Outgoing], out: &mut Vec<u8>) -> Result<(), AllocError>
    ensures { OnOk result (out.new.items ≡ out.old.items ++ flat_map send_waits sends.now) }
{
    for send in sends {
        append_asking(&send.to, send.message.get(), out)?;
    }
    Ok(())
}

// By what show answers, and what a tick would send.
fn append_waits(
    members: &[NodeId],
    shown: &Answer,
    sends: &[Outgoing],
    out: &mut Vec<u8>,
) -> Result<(), AllocError>
    ensures { OnOk result (out.new.items ≡ out.old.items ++ waits_text members.now shown.now sends.now) }
{
    match shown {
        Answer::Show {
            lifecycle,
            accepted,
            ..
        } => {
            append(b"ok waits", out)?;
            append_acceptances(*lifecycle, accepted.as_slice(), members, out)?;
            append_sends(sends, out)
        }
        _ => append_text(shown, out),
    }
}

fn members_of(cell: &Cell) -> &[NodeId]
    ensures { result.now ≡ definition_members (bound_definition cell.now.state) }
{
    match cell.definition() {
        Some(definition) => definition.members.as_slice(),
        None => &[],
    }
}

/// What a node tells that waits at a cell: for which member's acceptance, and whom the next tick would ask for what. Nothing
/// changes. The only error is that memory ran out.
pub(crate) fn waits_of(alloc: Global, cell: &Cell) -> Result<Vec<u8>, AllocError>
    requires running { cell.now.halted ≡ false }
    ensures { IfOk result (λ v. v.items ≡ waits_at cell.now.site cell.now.state) }
{
    let shown = cell.plan(alloc, &Event::Show)?;
    let next = cell.plan(alloc, &Event::Tick)?;
    let mut out = Vec::new(alloc);
    append_waits(
        members_of(cell),
        &shown.answer,
        next.sends.as_slice(),
        &mut out,
    )?;
    Ok(out)
}
