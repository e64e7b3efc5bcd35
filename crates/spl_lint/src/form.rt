//! The words of each kind of line, with an example of each.
ghost use Rattle.std.specs.Prelude.{◌≤◌, length, IfSome};

use crate::wanted::Wanted;
use spl_base::{NodeId, is_text};
use std::alloc::{AllocError, Global};

// The place of the first space.
fn place_of_space(bytes: &[u8]) -> Option<usize>
    ensures { IfSome result (λ place. place ≤ length bytes.now) }
{
    bytes.iter().position(|b| *b == b' ')
}

// How many bytes the first word has.
fn first_word(bytes: &[u8]) -> usize
    ensures { result ≤ length bytes.now }
{
    match place_of_space(bytes) {
        Some(place) => place,
        None => bytes.len(),
    }
}

/// Where a word begins; they are counted from 0. Where there are fewer, it is the end.
pub(crate) fn start_of(line: &[u8], word: usize) -> usize
    ensures { result ≤ length line.now }
{
    let mut spaces = 0usize;
    for place in 0..line.len() {
        if spaces == word {
            return place;
        }
        if line[place] == b' ' {
            spaces = spaces.saturating_add(1);
        }
    }
    line.len()
}

/// Where a word ends.
pub(crate) fn end_of(line: &[u8], word: usize) -> usize
    ensures { result ≤ length line.now }
{
    let start = start_of(line, word);
    start + first_word(&line[start..])
}

/// A word of a line, empty where there are fewer.
pub(crate) fn word_at(line: &[u8], word: usize) -> &[u8] {
    let rest = &line[start_of(line, word)..];
    &rest[..first_word(rest)]
}

/// How many words a line has.
pub(crate) fn count_of(line: &[u8]) -> usize {
    let mut words = 1usize;
    for byte in line {
        if *byte == b' ' {
            words = words.saturating_add(1);
        }
    }
    words
}

static ASK: [Wanted; 2] = [Wanted::Node, Wanted::Circuit];

static PROPOSE: [Wanted; 8] = [
    Wanted::Node,
    Wanted::Circuit,
    Wanted::Number,
    Wanted::Small,
    Wanted::Name,
    Wanted::Name,
    Wanted::Members,
    Wanted::Services,
];

static VOTE: [Wanted; 3] = [Wanted::Node, Wanted::Circuit, Wanted::Vote];

static BATCH: [Wanted; 3] = [Wanted::Node, Wanted::Circuit, Wanted::Batch];

static ADDRESS: [Wanted; 3] = [Wanted::Node, Wanted::Circuit, Wanted::Address];

static PREFIX: [Wanted; 3] = [Wanted::Node, Wanted::Circuit, Wanted::Prefix];

static ROUTE: [Wanted; 5] = [
    Wanted::Node,
    Wanted::Circuit,
    Wanted::Node,
    Wanted::ServiceId,
    Wanted::ServiceId,
];

static DELIVER: [Wanted; 4] = [
    Wanted::From,
    Wanted::To,
    Wanted::Circuit,
    Wanted::NumberFromOne,
];

static CALM: [Wanted; 2] = [Wanted::Circuit, Wanted::Passes];

static NODE: [Wanted; 1] = [Wanted::Node];

static WATCH: [Wanted; 4] = [
    Wanted::Node,
    Wanted::Circuit,
    Wanted::WatcherName,
    Wanted::Number,
];

static PULL: [Wanted; 4] = [
    Wanted::Node,
    Wanted::Circuit,
    Wanted::WatcherName,
    Wanted::Passes,
];

static CHECK: [Wanted; 4] = [Wanted::Root, Wanted::Address, Wanted::Claim, Wanted::Proof];

static CUT: [Wanted; 2] = [Wanted::Small, Wanted::Fill];

static FAIL: [Wanted; 1] = [Wanted::SmallFromOne];

static NONE: [Wanted; 0] = [];

// Whether a word is one of two.
fn is_either(word: &[u8], one: &[u8], other: &[u8]) -> bool {
    is_text(word, one) || is_text(word, other)
}

// Whether a step of this name has no words behind its circuit.
fn is_bare(name: &[u8]) -> bool {
    is_either(name, b"show", b"detail")
        || is_either(name, b"root", b"history")
        || is_either(name, b"tick", b"expire")
        || is_either(name, b"remove", b"disband")
        || is_either(name, b"abandon", b"purge")
}

// Those behind the name of a step, which may stand in a cut or a fail; None where it is the name of none.
fn step_words(name: &[u8]) -> Option<&'static [Wanted]> {
    if is_bare(name) {
        return Some(&ASK);
    }
    if is_text(name, b"propose") {
        return Some(&PROPOSE);
    }
    if is_text(name, b"vote") {
        return Some(&VOTE);
    }
    if is_text(name, b"submit") || is_either(name, b"status", b"receipt") {
        return Some(&BATCH);
    }
    if is_text(name, b"get") {
        return Some(&ADDRESS);
    }
    if is_text(name, b"list") {
        return Some(&PREFIX);
    }
    if is_text(name, b"route") {
        return Some(&ROUTE);
    }
    if is_text(name, b"deliver") {
        return Some(&DELIVER);
    }
    None
}

// Those behind the name of another line, none where it is the name of none.
fn other_words(name: &[u8]) -> &'static [Wanted] {
    if is_text(name, b"prove") {
        return &ADDRESS;
    }
    if is_text(name, b"calm") {
        return &CALM;
    }
    if is_text(name, b"roll") || is_either(name, b"stop", b"start") {
        return &NODE;
    }
    if is_text(name, b"watch") {
        return &WATCH;
    }
    if is_text(name, b"pull") {
        return &PULL;
    }
    if is_text(name, b"check") {
        return &CHECK;
    }
    if is_text(name, b"cut") {
        return &CUT;
    }
    if is_text(name, b"fail") {
        return &FAIL;
    }
    &NONE
}

/// What may stand at each word of a line of this one's kind, its name among them; of a submit those before its transactions.
#[derive(Drop)]
pub(crate) struct Form {
    pub(crate) words: Vec<Wanted>,
    /// The name of the step in a cut or a fail, or that of one that may stand there.
    step: Vec<u8>,
    /// Whether transactions come behind these words.
    pub(crate) has_parts: bool,
}

// The words of a line of a name, that among them; of a cut and a fail those before its step.
fn words_of(alloc: Global, name: &[u8]) -> Result<Vec<Wanted>, AllocError> {
    let mut words = Vec::new(alloc);
    words.push(Wanted::LineName)?;
    match step_words(name) {
        Some(more) => words.extend_from_slice(more)?,
        None => words.extend_from_slice(other_words(name))?,
    }
    Ok(words)
}

// The name of a step, or that of another one where it is the name of none.
fn step_name(name: &[u8]) -> &[u8] {
    match step_words(name) {
        Some(_) => name,
        None => b"tick",
    }
}

// The words of a step that has this name, that among them.
fn add_step(words: &mut Vec<Wanted>, name: &[u8]) -> Result<(), AllocError> {
    words.push(Wanted::StepName)?;
    match step_words(name) {
        Some(more) => words.extend_from_slice(more),
        None => Ok(()),
    }
}

impl Form {
    /// The form of the line's kind: of one whose name is unknown there is the name alone.
    pub(crate) fn of(alloc: Global, line: &[u8]) -> Result<Form, AllocError> {
        let name = word_at(line, 0);
        let mut words = words_of(alloc, name)?;
        if !is_either(name, b"cut", b"fail") {
            return Ok(Form {
                words,
                step: Vec::new(alloc),
                has_parts: is_text(name, b"submit"),
            });
        }
        let step = step_name(word_at(line, words.len()));
        add_step(&mut words, step)?;
        Ok(Form {
            words,
            step: Vec::from_slice(alloc, step)?,
            has_parts: is_text(step, b"submit"),
        })
    }

    /// Appends a word that may stand at a place.
    pub(crate) fn append_example(
        &self,
        nodes: &[NodeId],
        line: &[u8],
        place: usize,
        out: &mut Vec<u8>,
    ) -> Result<(), AllocError> {
        match self.words.get(place) {
            Some(Wanted::StepName) => out.extend_from_slice(self.step.as_slice()),
            Some(Wanted::From) => append_node(from_of(nodes, word_at(line, place)), out),
            Some(Wanted::To) => {
                let from = from_of(nodes, word_at(line, place.saturating_sub(1)));
                append_node(other_than(nodes, from), out)
            }
            Some(Wanted::Node | Wanted::Members) => append_node(nodes.first(), out),
            Some(Wanted::Services) => {
                out.extend_from_slice(b"aaaa:a:")?;
                append_node(nodes.first(), out)
            }
            Some(wanted) => out.extend_from_slice(example_of(*wanted)),
            None => Ok(()),
        }
    }
}

// The node from which a message comes: that of this name, where there is one, and else the first.
fn from_of<'a>(nodes: &'a [NodeId], name: &[u8]) -> Option<&'a NodeId> {
    for node in nodes {
        if node.bytes() == name {
            return Some(node);
        }
    }
    nodes.first()
}

// The first of the nodes that isn't this one.
fn other_than<'a>(nodes: &'a [NodeId], from: Option<&NodeId>) -> Option<&'a NodeId> {
    for node in nodes {
        if Some(node) != from {
            return Some(node);
        }
    }
    None
}

fn append_node(node: Option<&NodeId>, out: &mut Vec<u8>) -> Result<(), AllocError> {
    match node {
        Some(node) => out.extend_from_slice(node.bytes()),
        None => Ok(()),
    }
}

// A word that may stand where this may, whatever stands in the line.
fn example_of(wanted: Wanted) -> &'static [u8] {
    match wanted {
        Wanted::Circuit => b"aaaaa-aaaaa",
        Wanted::ServiceId => b"aaaa",
        Wanted::Vote => b"accept",
        Wanted::Address =>
            b"0000000000000000000000000000000000000000000000000000000000000000000000",
        Wanted::Root => b"0000000000000000000000000000000000000000000000000000000000000000",
        Wanted::Prefix | Wanted::Claim => b"-",
        Wanted::Proof => b"00",
        Wanted::Fill => b"old",
        _ => b"1",
    }
}
