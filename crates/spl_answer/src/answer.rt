//! The text of an answer.
ghost use Rattle.std.specs.Prelude.{◌≡◌, ◌++◌, OnOk, IfOk, decimal};
ghost use Rattle.spl_answer.specs.{Names.{lifecycle_text, mark_text}, Texts.{answer_spelling, refusal_text, counts_text, standing_text}};

use crate::batches::{
    append_entries, append_history, append_proof, append_root, append_status, append_value,
};
use crate::detail::append_detail;
use crate::names::{bit_name, fault_name, lifecycle_name, mark_name};
use crate::nodes::{append_power, append_roll};
use crate::note::append_note;
use crate::part::{append, append_nodes, append_number, append_numbered};
use crate::receipts::append_receipts;
use spl_agree::Generation;
use spl_base::Piece;
use spl_circuit::{Lifecycle, Mark};
use spl_wire::{Answer, Refusal};
use std::alloc::{AllocError, Global};

fn append_lifecycle(lifecycle: Lifecycle, out: &mut Vec<u8>) -> Result<(), AllocError>
    ensures { OnOk result (out.new.items ≡ out.old.items ++ lifecycle_text lifecycle) }
{
    append(lifecycle_name(lifecycle).as_bytes(), out)
}

fn append_mark(mark: Mark, out: &mut Vec<u8>) -> Result<(), AllocError>
    ensures { OnOk result (out.new.items ≡ out.old.items ++ mark_text mark) }
{
    append(mark_name(mark).as_bytes(), out)
}

fn append_generation(generation: Generation, out: &mut Vec<u8>) -> Result<(), AllocError>
    ensures { OnOk result (out.new.items ≡ out.old.items ++ decimal generation) }
{
    append_number(u64::from(generation.0), out)
}

fn append_refusal(refusal: Refusal, out: &mut Vec<u8>) -> Result<(), AllocError>
    ensures { OnOk result (out.new.items ≡ out.old.items ++ refusal_text refusal) }
{
    match refusal {
        Refusal::Down => append(b"1", out),
        Refusal::NoCircuit => append(b"2", out),
        Refusal::BadDefinition(rule) => append_numbered(b"3 ", u64::from(rule), out),
        Refusal::NotMember => append(b"4", out),
        Refusal::StaleGeneration { bound } => append_numbered(b"5 ", u64::from(bound.0), out),
        Refusal::CircuitHeld => append(b"6", out),
        Refusal::ActPending => append(b"7", out),
        Refusal::NoProposal => append(b"8", out),
        Refusal::AlreadyVoted => append(b"9", out),
        Refusal::NotRequester => append(b"10", out),
        Refusal::NotActive => append(b"11", out),
        Refusal::Closed => append(b"12", out),
        Refusal::BadBatch(rule) => append_numbered(b"13 ", u64::from(rule), out),
        Refusal::IdTaken => append(b"14", out),
        Refusal::QueueFull => append(b"15", out),
        Refusal::NotPurgeable => append(b"16", out),
        Refusal::NoMessage => append(b"17", out),
        Refusal::NotRouted(fault) => {
            append(b"18 ", out)?;
            append(fault_name(fault), out)
        }
        Refusal::UnknownId => append(b"19", out),
        Refusal::VersionTooLow => append(b"20", out),
        Refusal::NotProof { at } => append_numbered(b"26 ", at as u64, out),
    }
}

fn append_counts(
    name: &[u8],
    committed: u32,
    pending: u32,
    out: &mut Vec<u8>,
) -> Result<(), AllocError>
    ensures { OnOk result (out.new.items ≡ out.old.items ++ counts_text name.now committed pending) }
{
    append(name, out)?;
    append_number(u64::from(committed), out)?;
    append(b" ", out)?;
    append_number(u64::from(pending), out)
}

fn append_standing(
    generation: Generation,
    lifecycle: Lifecycle,
    mark: Mark,
    out: &mut Vec<u8>,
) -> Result<(), AllocError>
    ensures { OnOk result (out.new.items ≡ out.old.items ++ standing_text generation lifecycle mark) }
{
    append(b"generation ", out)?;
    append_generation(generation, out)?;
    append(b" lifecycle ", out)?;
    append_lifecycle(lifecycle, out)?;
    append(b" mark ", out)?;
    append_mark(mark, out)?;
    Ok(())
}

/// Appends the text of the answer (docs/RULES.md, Answers), without number and line feed. Where
/// memory runs out, a part of it may stand there.
pub fn append_text(answer: &Answer, out: &mut Vec<u8>) -> Result<(), AllocError>
    ensures { OnOk result (out.new.items ≡ out.old.items ++ answer_spelling answer.now) }
{
    match answer {
        Answer::Submitted { known: true } => append(b"ok known", out),
        Answer::Submitted { known: false } => append(b"ok queued", out),
        Answer::Show {
            generation,
            lifecycle,
            mark,
            accepted,
            acts,
            acts_pending,
            batches,
            batches_pending,
        } => {
            append(b"ok circuit ", out)?;
            append_standing(*generation, *lifecycle, *mark, out)?;
            append(b" accepted ", out)?;
            append_nodes(accepted, out)?;
            append_counts(b" acts ", *acts, *acts_pending, out)?;
            append_counts(b" batches ", *batches, *batches_pending, out)?;
            Ok(())
        }
        Answer::Left { purged: true } => append(b"ok purged", out),
        Answer::Left { purged: false } => append(b"ok abandoned", out),
        Answer::Detail {
            definition,
            hash,
            lifecycle,
            mark,
            accepted,
            requester,
        } => {
            append(b"ok detail ", out)?;
            append_detail(
                definition.get(),
                hash.get(),
                *lifecycle,
                *mark,
                accepted,
                requester.get(),
                out,
            )
        }
        Answer::Root { count, root } => append_root(*count, root, out),
        Answer::Proof { root, bytes } => append_proof(root.get(), bytes.bytes(), out),
        Answer::Checked { accepted: true } => append(b"ok yes", out),
        Answer::Checked { accepted: false } => append(b"ok no", out),
        Answer::History(ids) => append_history(ids.as_slice(), out),
        Answer::Value(value) => append_value(value, out),
        Answer::Listed(entries) => append_entries(entries.as_slice(), out),
        Answer::Status(status) => append_status(*status, out),
        Answer::Receipt {
            batch,
            place,
            receipts,
        } => {
            append(b"ok receipt ", out)?;
            append_receipts(*batch, *place, receipts, out)
        }
        Answer::Routed => append(b"ok routed", out),
        Answer::Notes { admin, service } => {
            append(b"ok ", out)?;
            append_note(*admin, out)?;
            append(b" / ", out)?;
            append_note(*service, out)
        }
        Answer::Delivered(note) => {
            append(b"ok ", out)?;
            append_note(*note, out)
        }
        Answer::Calm { passes } => {
            append(b"ok calm ", out)?;
            append_number(u64::from(*passes), out)
        }
        Answer::Power { up } => append_power(*up, out),
        Answer::Roll(circuits) => append_roll(circuits.as_slice(), out),
        Answer::Cut(bit) => {
            append(b"cut ", out)?;
            append(bit_name(*bit), out)
        }
        Answer::Fault(bit) => {
            append(b"fault ", out)?;
            append(bit_name(*bit), out)
        }
        Answer::Refused(refusal) => {
            append(b"refused ", out)?;
            append_refusal(*refusal, out)
        }
    }
}

/// The text of the answer (docs/RULES.md, Answers), without number and line feed. Fails only where
/// memory runs out.
pub fn text(alloc: Global, answer: &Answer) -> Result<Piece, AllocError>
    ensures { IfOk result (λ p. p ≡ answer_spelling answer.now) }
{
    let mut out = Vec::new(alloc);
    append_text(answer, &mut out)?;
    Piece::from(alloc, out.as_slice())
}
