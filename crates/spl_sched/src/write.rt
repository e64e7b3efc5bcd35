//! Writing a line.
ghost use Rattle.std.specs.{Prelude.{◌≡◌, ◌++◌, ◌∷◌, OnOk, IfOk, IsTrue, Some, decimal}, List.join_with_byte};
ghost use Rattle.spl_words.specs.Words.{after_spaces};
ghost use Rattle.spl_sched.specs.{Transactions.words_of_transactions, Grammar.{accept_or_reject, words_of_terms, event_name, event_words, step_words}};
ghost use Rattle.spl_sched.specs.Grammar.{spelling, line_of, is_line};

use crate::address::{AddressText, PrefixText};
use crate::check::put_check;
use crate::fill::FillText;
use crate::line::{Line, Step};
use crate::service::ServiceText;
use crate::transaction::put_transactions;
use spl_base::{BatchId, CircuitId, NodeId, Piece, ServiceId, Writer};
use spl_circuit::{Definition, Members};
use spl_command::Batch;
use spl_wire::Event;
use spl_words::{ListOf, Name, put_next};
use std::alloc::{AllocError, Global};

#[tactic(auto, using(crate::proofs::GrammarLaws::members_spelled))]
fn put_members(members: &Members, w: &mut Writer) -> Result<(), AllocError>
    ensures { OnOk result (w.new ≡ w.old ++ 32 ∷ join_with_byte 44 members.now) }
{
    put_next::<ListOf<NodeId>>(members, w)
}

fn put_terms(definition: &Definition, w: &mut Writer) -> Result<(), AllocError>
    ensures { OnOk result (w.new ≡ w.old ++ after_spaces (words_of_terms definition.now)) }
{
    put_next::<u32>(&definition.generation.0, w)?;
    put_next::<u8>(&definition.version, w)?;
    put_next::<Name>(&definition.management, w)?;
    put_next::<Name>(&definition.name, w)?;
    put_members(&definition.members, w)?;
    put_next::<ListOf<ServiceText>>(&definition.services, w)
}

fn put_answer(accept: bool, w: &mut Writer) -> Result<(), AllocError>
    ensures { OnOk result (w.new ≡ w.old ++ accept_or_reject.spell accept) }
{
    if accept {
        w.put_raw(b"accept")
    } else {
        w.put_raw(b"reject")
    }
}

fn put_batch(batch: &Batch, w: &mut Writer) -> Result<(), AllocError>
    ensures { OnOk result (w.new ≡ w.old ++ after_spaces (decimal batch.now.id ∷ words_of_transactions batch.now.transactions)) }
{
    put_next::<BatchId>(&batch.id, w)?;
    put_transactions(batch.transactions.get().as_slice(), w)
}

fn event_name(event: &Event) -> &'static [u8]
    ensures { result.now ≡ event_name event.now }
{
    match event {
        Event::Propose(_) => b"propose",
        Event::Vote { .. } => b"vote",
        Event::Remove => b"remove",
        Event::Disband => b"disband",
        Event::Abandon => b"abandon",
        Event::Purge => b"purge",
        Event::Submit(_) => b"submit",
        Event::Show => b"show",
        Event::Detail => b"detail",
        Event::Root => b"root",
        Event::History => b"history",
        Event::Get(_) => b"get",
        Event::Prove(_) => b"prove",
        Event::List(_) => b"list",
        Event::Status(_) => b"status",
        Event::Receipt(_) => b"receipt",
        Event::Route { .. } => b"route",
        Event::Tick => b"tick",
        Event::Expire => b"expire",
        Event::Deliver { .. } => b"deliver",
    }
}

fn put_event(event: &Event, w: &mut Writer) -> Result<(), AllocError>
    ensures { OnOk result (w.new ≡ w.old ++ after_spaces (event_words event.now)) }
{
    match event {
        Event::Propose(definition) => put_terms(definition.get(), w),
        Event::Vote { accept } => {
            w.put_u8(b' ')?;
            put_answer(*accept, w)
        }
        Event::Submit(batch) => put_batch(batch.get(), w),
        Event::Get(address) => put_next::<AddressText>(address, w),
        Event::Prove(address) => put_next::<AddressText>(address, w),
        Event::List(prefix) => put_next::<PrefixText>(prefix, w),
        Event::Status(batch) => put_next::<BatchId>(batch, w),
        Event::Receipt(batch) => put_next::<BatchId>(batch, w),
        Event::Route {
            from,
            from_service,
            to_service,
        } => {
            put_next::<NodeId>(from, w)?;
            put_next::<ServiceId>(from_service, w)?;
            put_next::<ServiceId>(to_service, w)
        }
        _ => Ok(()),
    }
}

fn put_step(step: &Step, w: &mut Writer) -> Result<(), AllocError>
    ensures { OnOk result (w.new ≡ w.old ++ join_with_byte 32 (step_words step.now)) }
{
    match step {
        Step::At {
            node,
            circuit,
            event,
        } => {
            w.put_raw(event_name(event))?;
            put_next::<NodeId>(node, w)?;
            put_next::<CircuitId>(circuit, w)?;
            put_event(event, w)
        }
        Step::Deliver {
            from,
            to,
            circuit,
            number,
        } => {
            w.put_raw(b"deliver")?;
            put_next::<NodeId>(from, w)?;
            put_next::<NodeId>(to, w)?;
            put_next::<CircuitId>(circuit, w)?;
            put_next::<u32>(number, w)
        }
    }
}

fn put_line(line: &Line, w: &mut Writer) -> Result<(), AllocError>
    ensures { OnOk result (w.new ≡ w.old ++ spelling line.now) }
{
    match line {
        Line::Step(step) => put_step(step, w),
        Line::Calm { circuit, passes } => {
            w.put_raw(b"calm")?;
            put_next::<CircuitId>(circuit, w)?;
            put_next::<u8>(passes, w)
        }
        Line::Stop(node) => {
            w.put_raw(b"stop")?;
            put_next::<NodeId>(node, w)
        }
        Line::Start(node) => {
            w.put_raw(b"start")?;
            put_next::<NodeId>(node, w)
        }
        Line::Roll(node) => {
            w.put_raw(b"roll")?;
            put_next::<NodeId>(node, w)
        }
        Line::Check(check) => put_check(check.get(), w),
        Line::Cut { calls, fill, step } => {
            w.put_raw(b"cut")?;
            put_next::<u8>(calls, w)?;
            put_next::<FillText>(fill, w)?;
            w.put_u8(b' ')?;
            put_step(step, w)
        }
        Line::Fail { call, step } => {
            w.put_raw(b"fail")?;
            put_next::<u8>(call, w)?;
            w.put_u8(b' ')?;
            put_step(step, w)
        }
    }
}

/// The spelling of the line (docs/RULES.md, Schedules). It is read back where the line is within
/// its bounds. Fails only where memory runs out.
pub fn write_line(alloc: Global, line: &Line) -> Result<Piece, AllocError>
    ensures spelled { IfOk result (λ p. p ≡ spelling line.now) }
    ensures read_back { IfOk result (λ p. IsTrue (is_line line.now) → line_of p ≡ Some line.now) }
{
    let mut w = Writer::new(alloc);
    put_line(line, &mut w)?;
    Ok(w.into_piece())
}
