//! Reading a step.
ghost use Rattle.std.specs.{Prelude.{◌≡◌, ◌∷◌, None, nat_le, ◌^◌}, Option.option_map};
ghost use Rattle.spl_wire.specs.declared.event.Event.TheVariants as event;
ghost use Rattle.spl_words.specs.Words.{Reads, Takes, read_first, read_kind, that, number, end};
ghost use Rattle.spl_sched.specs.Grammar.{accept_or_reject, terms, proposed, answer, work, submitted, place, places, batch_words, way_words, delivery};
ghost use Rattle.spl_sched.specs.Grammar.{delivered, worded_kinds, read_acting, read_event, read_at, read_step};

use crate::address::{AddressText, PrefixText};
use crate::line::Step;
use crate::service::ServiceText;
use crate::transaction::read_transactions;
use spl_agree::Generation;
use spl_base::{BatchId, Boxed, CircuitId, NodeId, ServiceId, is_text};
use spl_circuit::{CheckedDefinition, Definition};
use spl_command::{Batch, CheckedTransactions};
use spl_wire::Event;
use spl_words::{LineFault, ListOf, Name, WordReader, take};
use std::alloc::Global;

fn read_proposal(alloc: Global, id: CircuitId, words: &mut WordReader) -> Result<Event, LineFault>
    ensures { Reads result (option_map (proposed id) (terms.read words.old)) }
{
    let generation = take::<u32>(alloc, words)?;
    let version = take::<u8>(alloc, words)?;
    let management = take::<Name>(alloc, words)?;
    let name = take::<Name>(alloc, words)?;
    let members = take::<ListOf<NodeId>>(alloc, words)?;
    let services = take::<ListOf<ServiceText>>(alloc, words)?;
    words.end()?;
    let definition = Definition {
        id,
        generation: Generation(generation),
        version,
        management,
        name,
        members,
        services,
    };
    Ok(Event::Propose(CheckedDefinition::new(alloc, definition)?))
}

/// Takes `accept` or `reject`.
fn take_answer(words: &mut WordReader) -> Result<bool, LineFault>
    ensures { Takes result words.new (read_first accept_or_reject words.old) }
{
    match words.next() {
        Some(word) => {
            if is_text(word, b"accept") {
                Ok(true)
            } else if is_text(word, b"reject") {
                Ok(false)
            } else {
                Err(LineFault::BadLine)
            }
        }
        None => Err(LineFault::BadLine),
    }
}

fn read_vote(words: &mut WordReader) -> Result<Event, LineFault>
    ensures { Reads result (option_map (λ x. event.Vote x.0) (answer.read words.old)) }
{
    let accept = take_answer(words)?;
    words.end()?;
    Ok(Event::Vote { accept })
}

fn read_batch(alloc: Global, words: &mut WordReader) -> Result<Event, LineFault>
    ensures { Reads result (option_map submitted (work.read words.old)) }
{
    let id = take::<BatchId>(alloc, words)?;
    let transactions = CheckedTransactions::new(alloc, read_transactions(alloc, words)?)?;
    let batch = Boxed::new(alloc, Batch { id, transactions })?;
    Ok(Event::Submit(batch))
}

fn read_get(alloc: Global, words: &mut WordReader) -> Result<Event, LineFault>
    ensures { Reads result (option_map (λ x. event.Get x.0) (place.read words.old)) }
{
    let address = take::<AddressText>(alloc, words)?;
    words.end()?;
    Ok(Event::Get(address))
}

fn read_prove(alloc: Global, words: &mut WordReader) -> Result<Event, LineFault>
    ensures { Reads result (option_map (λ x. event.Prove x.0) (place.read words.old)) }
{
    let address = take::<AddressText>(alloc, words)?;
    words.end()?;
    Ok(Event::Prove(address))
}

fn read_list(alloc: Global, words: &mut WordReader) -> Result<Event, LineFault>
    ensures { Reads result (option_map (λ x. event.List x.0) (places.read words.old)) }
{
    let prefix = take::<PrefixText>(alloc, words)?;
    words.end()?;
    Ok(Event::List(prefix))
}

fn read_status(alloc: Global, words: &mut WordReader) -> Result<Event, LineFault>
    ensures { Reads result (option_map (λ x. event.Status x.0) (batch_words.read words.old)) }
{
    let batch = take::<BatchId>(alloc, words)?;
    words.end()?;
    Ok(Event::Status(batch))
}

fn read_receipt(alloc: Global, words: &mut WordReader) -> Result<Event, LineFault>
    ensures { Reads result (option_map (λ x. event.Receipt x.0) (batch_words.read words.old)) }
{
    let batch = take::<BatchId>(alloc, words)?;
    words.end()?;
    Ok(Event::Receipt(batch))
}

fn read_route(alloc: Global, words: &mut WordReader) -> Result<Event, LineFault>
    ensures { Reads result (option_map (λ x. event.Route x.0 x.1.0 x.1.1.0) (way_words.read words.old)) }
{
    let from = take::<NodeId>(alloc, words)?;
    let from_service = take::<ServiceId>(alloc, words)?;
    let to_service = take::<ServiceId>(alloc, words)?;
    words.end()?;
    Ok(Event::Route {
        from,
        from_service,
        to_service,
    })
}

/// The event of this name at the circuit, where it is one with words after node and id.
fn read_worded(
    alloc: Global,
    name: &[u8],
    id: CircuitId,
    words: &mut WordReader,
) -> Result<Event, LineFault>
    ensures { Reads result (read_kind (worded_kinds id) None name.now words.old) }
{
    if is_text(name, b"propose") {
        return read_proposal(alloc, id, words);
    }
    if is_text(name, b"vote") {
        return read_vote(words);
    }
    if is_text(name, b"submit") {
        return read_batch(alloc, words);
    }
    if is_text(name, b"get") {
        return read_get(alloc, words);
    }
    if is_text(name, b"prove") {
        return read_prove(alloc, words);
    }
    if is_text(name, b"list") {
        return read_list(alloc, words);
    }
    if is_text(name, b"status") {
        return read_status(alloc, words);
    }
    if is_text(name, b"receipt") {
        return read_receipt(alloc, words);
    }
    if is_text(name, b"route") {
        return read_route(alloc, words);
    }
    Err(LineFault::BadLine)
}

/// The event of this name at the circuit, where it asks for nothing or has words after node and id.
fn read_acting(
    alloc: Global,
    name: &[u8],
    id: CircuitId,
    words: &mut WordReader,
) -> Result<Event, LineFault>
    ensures { Reads result (read_acting id name.now words.old) }
{
    if is_text(name, b"tick") {
        words.end()?;
        return Ok(Event::Tick);
    }
    if is_text(name, b"expire") {
        words.end()?;
        return Ok(Event::Expire);
    }
    if is_text(name, b"remove") {
        words.end()?;
        return Ok(Event::Remove);
    }
    if is_text(name, b"disband") {
        words.end()?;
        return Ok(Event::Disband);
    }
    if is_text(name, b"abandon") {
        words.end()?;
        return Ok(Event::Abandon);
    }
    if is_text(name, b"purge") {
        words.end()?;
        return Ok(Event::Purge);
    }
    read_worded(alloc, name, id, words)
}

/// The event of this name at the circuit. Those without words come first, so that they pay for no
/// others.
fn read_event(
    alloc: Global,
    name: &[u8],
    id: CircuitId,
    words: &mut WordReader,
) -> Result<Event, LineFault>
    ensures { Reads result (read_event id name.now words.old) }
{
    if is_text(name, b"show") {
        words.end()?;
        return Ok(Event::Show);
    }
    if is_text(name, b"root") {
        words.end()?;
        return Ok(Event::Root);
    }
    if is_text(name, b"history") {
        words.end()?;
        return Ok(Event::History);
    }
    if is_text(name, b"detail") {
        words.end()?;
        return Ok(Event::Detail);
    }
    read_acting(alloc, name, id, words)
}

/// Takes a number from 1.
fn take_number(alloc: Global, words: &mut WordReader) -> Result<u32, LineFault>
    ensures { Takes result words.new (read_first (that (nat_le 1) (number (2 ^ 32))) words.old) }
{
    let number = take::<u32>(alloc, words)?;
    if number < 1 {
        return Err(LineFault::BadLine);
    }
    Ok(number)
}

fn read_delivery(alloc: Global, words: &mut WordReader) -> Result<Step, LineFault>
    ensures { Reads result (option_map delivered (delivery.read words.old)) }
{
    let from = take::<NodeId>(alloc, words)?;
    let to = take::<NodeId>(alloc, words)?;
    let circuit = take::<CircuitId>(alloc, words)?;
    let number = take_number(alloc, words)?;
    words.end()?;
    if from == to {
        return Err(LineFault::BadLine);
    }
    Ok(Step::Deliver {
        from,
        to,
        circuit,
        number,
    })
}

/// A node, a circuit, and the event of this name there.
#[inline(always)]
fn read_at(alloc: Global, name: &[u8], words: &mut WordReader) -> Result<Step, LineFault>
    ensures { Reads result (read_at name.now words.old) }
{
    let node = take::<NodeId>(alloc, words)?;
    let circuit = take::<CircuitId>(alloc, words)?;
    let event = read_event(alloc, name, circuit, words)?;
    Ok(Step::At {
        node,
        circuit,
        event,
    })
}

/// The step that the words after its name spell.
#[inline(always)]
pub(crate) fn read_step(
    alloc: Global,
    name: &[u8],
    words: &mut WordReader,
) -> Result<Step, LineFault>
    ensures { Reads result (read_step (name.now ∷ words.old)) }
{
    if is_text(name, b"deliver") {
        return read_delivery(alloc, words);
    }
    read_at(alloc, name, words)
}
