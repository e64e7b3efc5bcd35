//! `ask`: the lines of an operator, and what a node answers.
use crate::ending::Ending;
use crate::refusal::refusal_of;
use crate::serve::SOCKET;
use crate::text::joined;
use spl_cli::Status;
use spl_lines::is_silent;
use spl_short::write_out;
use std::alloc::AllocError;
use std::io::{BufRead, BufReader, Write};
use std::os::unix::net::UnixStream;

/// A connection to the node that serves a folder; None where nobody does.
pub(crate) fn connect(
    rt: &HostRuntime,
    folder: &String,
) -> Result<Option<BufReader<UnixStream>>, AllocError> {
    let path = format!(in rt.alloc(); "{folder}/{SOCKET}")?;
    match UnixStream::connect(rt, path.as_str()) {
        Ok(stream) => Ok(BufReader::new(rt.alloc(), stream).ok()),
        Err(_) => Ok(None),
    }
}

// The next line that a node writes, with its line feed; None where it went away.
fn next_answer(rt: &HostRuntime, node: &mut BufReader<UnixStream>) -> Option<Vec<u8>> {
    let mut answer = Vec::new(rt.alloc());
    if node.read_until(b'\n', &mut answer).is_err() || answer.last() != Some(&b'\n') {
        return None;
    }
    Some(answer)
}

/// What a node answers to a line, with its line feed; None where it went away. The answer to `metrics` goes on behind it.
pub(crate) fn answer_of(
    rt: &HostRuntime,
    node: &mut BufReader<UnixStream>,
    line: &[u8],
) -> Result<Option<Vec<u8>>, AllocError> {
    let mut whole = Vec::from_slice(rt.alloc(), line)?;
    whole.push(b'\n')?;
    // A node that takes no more of a line may have answered it.
    let _ = node.get_mut().write_all(&whole);
    Ok(next_answer(rt, node))
}

// How many lines follow an answer, which isn't written itself then.
fn lines_behind(answer: &[u8]) -> Option<u32> {
    let mut count = 0u32;
    for byte in answer.strip_prefix(b"ok metrics ")? {
        if byte.is_ascii_digit() {
            let digit = u32::from(*byte - b'0');
            count = count.saturating_mul(10).saturating_add(digit);
        }
    }
    Some(count)
}

// Writes the next lines of a node.
fn write_lines(rt: &HostRuntime, node: &mut BufReader<UnixStream>, count: u32) -> Ending {
    for _ in 0..count {
        let Some(line) = next_answer(rt, node) else {
            return Ending::Gone;
        };
        if rt.stdout().write_all(&line).is_err() {
            return Ending::As(Status::WriteFault);
        }
    }
    Ending::As(Status::Ok)
}

// Asks one line, with its short addresses written out, and writes its answer; how the program ends after it.
fn ask(
    rt: &HostRuntime,
    node: &mut BufReader<UnixStream>,
    line: &[u8],
) -> Result<Ending, AllocError> {
    let line = write_out(rt.alloc(), line)?;
    let Some(answer) = answer_of(rt, node, line.as_slice())? else {
        return Ok(Ending::Gone);
    };
    if let Some(count) = lines_behind(&answer) {
        return Ok(write_lines(rt, node, count));
    }
    if rt.stdout().write_all(&answer).is_err() {
        return Ok(Ending::As(Status::WriteFault));
    }
    if answer.starts_with(b"ok stopping") {
        // The connection ends with the node.
        let _ = next_answer(rt, node);
    }
    if answer.starts_with(b"ok") {
        return Ok(Ending::As(Status::Ok));
    }
    Ok(Ending::Refused {
        why: refusal_of(&answer),
    })
}

/// Asks the node that serves a folder one line, of these words.
pub(crate) fn ask_words(
    rt: &HostRuntime,
    folder: &String,
    words: &[String],
) -> Result<Ending, AllocError> {
    let Some(mut node) = connect(rt, folder)? else {
        return Ok(Ending::NoNode);
    };
    let line = joined(rt, words)?;
    ask(rt, &mut node, &line)
}

// The next line of standard input, without its line feed; None at its end.
fn next_line(rt: &HostRuntime, input: &mut impl BufRead) -> Option<Vec<u8>> {
    let mut line = Vec::new(rt.alloc());
    match input.read_until(b'\n', &mut line) {
        Ok(0) | Err(_) => return None,
        Ok(_) => {}
    }
    if line.last() == Some(&b'\n') {
        line.pop();
    }
    Some(line)
}

/// Asks the node that serves a folder each line of standard input, one after another. Empty lines and comments are left out.
pub(crate) fn ask_lines(rt: &HostRuntime, folder: &String) -> Result<Ending, AllocError> {
    let Some(mut node) = connect(rt, folder)? else {
        return Ok(Ending::NoNode);
    };
    let Ok(mut input) = BufReader::new(rt.alloc(), rt.stdin()) else {
        return Err(AllocError);
    };
    let mut ending = Ending::As(Status::Ok);
    for _ in 0..u64::MAX {
        let Some(line) = next_line(rt, &mut input) else {
            break;
        };
        if is_silent(&line) {
            continue;
        }
        match ask(rt, &mut node, &line)? {
            Ending::As(Status::Ok) => {}
            Ending::Refused { .. } => ending = Ending::Refused { why: None },
            other => return Ok(other),
        }
    }
    Ok(ending)
}
