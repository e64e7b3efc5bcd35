//! Why a line isn't one of a schedule.
use crate::form::{Form, count_of, end_of, start_of, word_at};
use crate::wanted::Wanted;
use spl_base::NodeId;
use spl_lines::{Unread, longest_line, read_admitted};
use std::alloc::{AllocError, Global};

/// Where a line goes wrong.
#[derive(Clone, Copy)]
pub struct Cause {
    /// The place in the line, in bytes from 1, of the first word that no line with this beginning may have. None where the end
    /// of the line is missing.
    pub column: Option<usize>,
    /// What may stand there.
    pub wanted: Wanted,
}

// Whether the first words of a line, so many and at least one, begin a line of these nodes: with an example of each further word
// they are one.
fn begin(
    alloc: Global,
    nodes: &[NodeId],
    form: &Form,
    line: &[u8],
    words: usize,
) -> Result<bool, AllocError> {
    let mut whole = Vec::from_slice(alloc, &line[..end_of(line, words.saturating_sub(1))])?;
    for place in words..form.words.len() {
        whole.push(b' ')?;
        form.append_example(nodes, line, place, &mut whole)?;
    }
    match &read_admitted(alloc, nodes, whole.as_slice()) {
        Ok(_) => Ok(true),
        Err(Unread::NoMemory) => Err(AllocError),
        Err(_) => Ok(false),
    }
}

// How many of the first words of a line, of which it has so many, begin a line. Fewer do so too.
fn good_words(
    alloc: Global,
    nodes: &[NodeId],
    form: &Form,
    line: &[u8],
    count: usize,
) -> Result<usize, AllocError> {
    let mut good = 0usize;
    let mut bad = count.saturating_add(1);
    for _ in 0..64 {
        let between = bad.saturating_sub(good);
        if between <= 1 {
            break;
        }
        let middle = good.saturating_add(between / 2);
        if begin(alloc, nodes, form, line, middle)? {
            good = middle;
        } else {
            bad = middle;
        }
    }
    Ok(good)
}

// Whether a word begins so.
fn begins(word: &[u8], text: &[u8]) -> bool {
    word.starts_with(text)
}

// What a word behind the number of a batch may be that begins as one of these does.
fn command_wanted(word: &[u8]) -> Wanted {
    if begins(word, b"set:") {
        return Wanted::Set;
    }
    if begins(word, b"get:") || begins(word, b"del:") {
        return Wanted::Entry;
    }
    if begins(word, b"event:") {
        return Wanted::Event;
    }
    if begins(word, b"data:") {
        return Wanted::Data;
    }
    if begins(word, b"invalid:") || begins(word, b"error:") {
        return Wanted::Tag;
    }
    Wanted::Part
}

// What a word behind the number of a batch may be.
fn part_wanted(form: &Form, line: &[u8], place: usize) -> Wanted {
    if place == form.words.len() {
        return Wanted::Transaction;
    }
    let word = word_at(line, place);
    if begins(word, b"in:") {
        return Wanted::Input;
    }
    if begins(word, b"out:") {
        return Wanted::Output;
    }
    command_wanted(word)
}

// What may stand in place of a word.
fn wanted_at(form: &Form, line: &[u8], place: usize) -> Wanted {
    if word_at(line, place).is_empty() {
        return Wanted::OneSpace;
    }
    match form.words.get(place) {
        Some(wanted) => *wanted,
        None if form.has_parts => part_wanted(form, line, place),
        None => Wanted::LineEnd,
    }
}

// The cause of a line that ends too early.
fn early_end(form: &Form, line: &[u8], count: usize) -> Cause {
    let wanted = match form.words.get(count) {
        Some(wanted) => *wanted,
        None => Wanted::LineEnd,
    };
    Cause {
        column: Some(line.len().saturating_add(1)),
        wanted,
    }
}

// The cause of a line in which this is the first bad word.
fn bad_word(form: &Form, line: &[u8], count: usize, place: usize) -> Cause {
    if place.saturating_add(1) == count && line.last() == Some(&b'\r') {
        return Cause {
            column: Some(line.len()),
            wanted: Wanted::NoReturn,
        };
    }
    Cause {
        column: Some(start_of(line, place).saturating_add(1)),
        wanted: wanted_at(form, line, place),
    }
}

/// Why a line isn't one of a schedule over these nodes: the first word that no line with this beginning may have, and what may
/// stand there. Of a line that is one it says where more could stand. The only error is that memory ran out.
pub fn cause_of(alloc: Global, nodes: &[NodeId], line: &[u8]) -> Result<Cause, AllocError> {
    let most = longest_line(line);
    if line.len() > most {
        return Ok(Cause {
            column: Some(most.saturating_add(1)),
            wanted: Wanted::ShorterLine,
        });
    }
    let form = Form::of(alloc, line)?;
    let count = count_of(line);
    let good = good_words(alloc, nodes, &form, line, count)?;
    if good == count {
        return Ok(early_end(&form, line, count));
    }
    Ok(bad_word(&form, line, count, good))
}
