//! Reading a line of a schedule of Paxos Commit.
ghost use Rattle.std.specs.{Prelude.{◌≡◌, ◌∷◌, Some, None, IfOk, IsTrue, nat_le, ◌^◌}, Result.IsErrOf, Option.option_map};
ghost use Rattle.spl_words.specs.Words.{Reads, Takes, read_first, that, number};
ghost use Rattle.spl_paxos.specs.Lines.{number_to, name, member_name, leader_name, round, yes_or_no, vote, lead_words, deliver, show, one_name};
ghost use Rattle.spl_paxos.specs.Lines.{read_paxos_words, paxos_line_of, paxos_spelling, is_paxos_line};
ghost use Rattle.spl_paxos.specs.declared.line.PaxosLine.TheVariants as line;

use crate::line::PaxosLine;
use spl_acceptor::{ACCEPTOR, LEADER, MEMBER, Name};
use spl_agree::Round;
use spl_base::BatchId;
use spl_words::{LineFault, Word, WordReader, after, take};
use std::alloc::Global;

/// A number from 1 to `most`.
fn read_number(alloc: Global, word: &[u8], most: u8) -> Result<u8, LineFault>
    ensures { Reads result ((number_to most).read word.now) }
{
    let number = <u8 as Word>::read(alloc, word)?;
    if number < 1 || number > most {
        return Err(LineFault::BadLine);
    }
    Ok(number)
}

/// The process of a kind that a number names, from 1 to `most`.
fn read_named(alloc: Global, kind: u8, word: &[u8], most: u8) -> Result<Name, LineFault>
    ensures { Reads result (option_map (λ i. record { kind = kind; number = i }) ((number_to most).read word.now)) }
{
    let number = read_number(alloc, word, most)?;
    Ok(Name { kind, number })
}

fn read_name(alloc: Global, word: &[u8]) -> Result<Name, LineFault>
    ensures { Reads result (name.read word.now) }
{
    if let Some(number) = after(b"m", word) {
        return read_named(alloc, MEMBER, number, 8);
    }
    if let Some(number) = after(b"c", word) {
        return read_named(alloc, ACCEPTOR, number, 5);
    }
    match after(b"l", word) {
        Some(number) => read_named(alloc, LEADER, number, 3),
        None => Err(LineFault::BadLine),
    }
}

fn take_name(alloc: Global, words: &mut WordReader) -> Result<Name, LineFault>
    ensures { Takes result words.new (read_first name words.old) }
{
    match words.next() {
        Some(word) => read_name(alloc, word),
        None => Err(LineFault::BadLine),
    }
}

fn read_member(alloc: Global, word: &[u8]) -> Result<u8, LineFault>
    ensures { Reads result (member_name.read word.now) }
{
    match after(b"m", word) {
        Some(number) => read_number(alloc, number, 8),
        None => Err(LineFault::BadLine),
    }
}

fn take_member(alloc: Global, words: &mut WordReader) -> Result<u8, LineFault>
    ensures { Takes result words.new (read_first member_name words.old) }
{
    match words.next() {
        Some(word) => read_member(alloc, word),
        None => Err(LineFault::BadLine),
    }
}

fn read_leader(alloc: Global, word: &[u8]) -> Result<u8, LineFault>
    ensures { Reads result (leader_name.read word.now) }
{
    match after(b"l", word) {
        Some(number) => read_number(alloc, number, 3),
        None => Err(LineFault::BadLine),
    }
}

fn take_leader(alloc: Global, words: &mut WordReader) -> Result<u8, LineFault>
    ensures { Takes result words.new (read_first leader_name words.old) }
{
    match words.next() {
        Some(word) => read_leader(alloc, word),
        None => Err(LineFault::BadLine),
    }
}

/// Takes a number of 64 bits from 1, which is spelled as that of a batch.
fn take_round(alloc: Global, words: &mut WordReader) -> Result<Round, LineFault>
    ensures { Takes result words.new (read_first round words.old) }
{
    let BatchId(number) = take::<BatchId>(alloc, words)?;
    if number < 1 {
        return Err(LineFault::BadLine);
    }
    Ok(Round(number))
}

/// Takes a number from 1.
fn take_place(alloc: Global, words: &mut WordReader) -> Result<u32, LineFault>
    ensures { Takes result words.new (read_first (that (nat_le 1) (number (2 ^ 32))) words.old) }
{
    let place = take::<u32>(alloc, words)?;
    if place < 1 {
        return Err(LineFault::BadLine);
    }
    Ok(place)
}

/// Takes `yes` or `no`.
fn take_yes(words: &mut WordReader) -> Result<bool, LineFault>
    ensures { Takes result words.new (read_first yes_or_no words.old) }
{
    match words.next() {
        Some(word) => {
            if word == b"yes".as_slice() {
                Ok(true)
            } else if word == b"no".as_slice() {
                Ok(false)
            } else {
                Err(LineFault::BadLine)
            }
        }
        None => Err(LineFault::BadLine),
    }
}

fn read_vote(alloc: Global, words: &mut WordReader) -> Result<PaxosLine, LineFault>
    ensures { Reads result (option_map (λ x. line.Vote x.0 x.1.0 x.1.1.0) (vote.read words.old)) }
{
    let member = take_member(alloc, words)?;
    let round = take_round(alloc, words)?;
    let yes = take_yes(words)?;
    words.end()?;
    Ok(PaxosLine::Vote { member, round, yes })
}

fn read_lead(alloc: Global, words: &mut WordReader) -> Result<PaxosLine, LineFault>
    ensures { Reads result (option_map (λ x. line.Lead x.0 x.1.0) (lead_words.read words.old)) }
{
    let leader = take_leader(alloc, words)?;
    let round = take_round(alloc, words)?;
    words.end()?;
    Ok(PaxosLine::Lead { leader, round })
}

fn read_deliver(alloc: Global, words: &mut WordReader) -> Result<PaxosLine, LineFault>
    ensures { Reads result (option_map (λ x. line.Deliver x.0 x.1.0 x.1.1.0) (deliver.read words.old)) }
{
    let from = take_name(alloc, words)?;
    let to = take_name(alloc, words)?;
    let number = take_place(alloc, words)?;
    words.end()?;
    Ok(PaxosLine::Deliver { from, to, number })
}

fn read_show(alloc: Global, words: &mut WordReader) -> Result<PaxosLine, LineFault>
    ensures { Reads result (option_map (λ x. line.Show x.0 x.1.0) (show.read words.old)) }
{
    let member = take_member(alloc, words)?;
    let round = take_round(alloc, words)?;
    words.end()?;
    Ok(PaxosLine::Show { member, round })
}

/// A name and nothing after it.
fn read_one_name(alloc: Global, words: &mut WordReader) -> Result<Name, LineFault>
    ensures { Reads result (option_map (λ x. x.0) (one_name.read words.old)) }
{
    let name = take_name(alloc, words)?;
    words.end()?;
    Ok(name)
}

/// The line that the words after its name spell.
fn read_after(alloc: Global, name: &[u8], words: &mut WordReader) -> Result<PaxosLine, LineFault>
    ensures { Reads result (read_paxos_words (name.now ∷ words.old)) }
{
    if name == b"vote".as_slice() {
        return read_vote(alloc, words);
    }
    if name == b"lead".as_slice() {
        return read_lead(alloc, words);
    }
    if name == b"deliver".as_slice() {
        return read_deliver(alloc, words);
    }
    if name == b"show".as_slice() {
        return read_show(alloc, words);
    }
    if name == b"stop".as_slice() {
        return Ok(PaxosLine::Stop(read_one_name(alloc, words)?));
    }
    if name == b"start".as_slice() {
        return Ok(PaxosLine::Start(read_one_name(alloc, words)?));
    }
    Err(LineFault::BadLine)
}

/// The line that the bytes spell, or `BadLine` where they spell none. Names are those of the run with the most processes.
/// Fails besides only where memory runs out.
pub fn read_step(alloc: Global, line: &[u8]) -> Result<PaxosLine, LineFault>
    ensures ok { IfOk result (λ l. paxos_line_of line.now ≡ Some l) }
    ensures bad { IsErrOf result LineFault.BadLine → paxos_line_of line.now ≡ None }
    ensures spelled { IfOk result (λ l. (line.now ≡ paxos_spelling l) × IsTrue (is_paxos_line l)) }
{
    let mut words = WordReader::new(line, b' ');
    match words.next() {
        Some(name) => read_after(alloc, name, &mut words),
        None => Err(LineFault::BadLine),
    }
}
