//! `explain` and `json`: the answers that come on standard input, each with what it says behind it, or as an object.
ghost use Rattle.std.specs.Prelude.{◌≤◌, length};

use crate::ending::Ending;
use spl_cli::Status;
use spl_explain::{Row, all_round_values, all_rows, all_values, explain, put_object};
use std::alloc::AllocError;
use std::fs;
use std::io::{BufRead, BufReader, Write};

/// What is made of each answer.
#[derive(Clone, Copy)]
pub(crate) enum Telling {
    /// It, and its words behind it.
    Lines,
    /// Likewise, of a schedule of Paxos Commit.
    Rounds,
    /// A JSON object.
    Objects,
}

// Appends what is made of an answer.
fn put(telling: Telling, rows: &[Row], answer: &[u8], out: &mut Vec<u8>) -> Result<(), AllocError> {
    match telling {
        Telling::Lines => explain(rows, all_values(), answer, out),
        Telling::Rounds => explain(rows, all_round_values(), answer, out),
        Telling::Objects => put_object(rows, answer, out),
    }
}

// Writes what is made of a line, which may lack its line feed; whether that could be written.
fn write(
    rt: &HostRuntime,
    telling: Telling,
    rows: &[Row],
    line: &[u8],
) -> Result<bool, AllocError> {
    let mut out = Vec::new(rt.alloc());
    match line.strip_suffix(b"\n") {
        Some(answer) => {
            put(telling, rows, answer, &mut out)?;
            out.push(b'\n')?;
        }
        None => out.extend_from_slice(line)?,
    }
    Ok(rt.stdout().write_all(out.as_slice()).is_ok())
}

// How many digits stand at the front of a line.
fn digits_before(line: &[u8]) -> usize
    ensures { result ≤ length line.now }
{
    match line.iter().position(|b| !b.is_ascii_digit()) {
        Some(place) => place,
        None => line.len(),
    }
}

// Keeps the number at the front of a line, where it has one, in place of that of an earlier one.
fn keep_number(line: &[u8], number: &mut Vec<u8>) -> Result<(), AllocError> {
    let count = digits_before(line);
    if count == 0 {
        return Ok(());
    }
    number.clear();
    number.extend_from_slice(&line[..count])
}

// Writes the number of the last answer into a file.
fn leave(rt: &HostRuntime, file: &String, mut number: Vec<u8>) -> Result<(), AllocError> {
    number.push(b'\n')?;
    if let Ok(mut file) = fs::create(rt, file.as_str()) {
        let _ = file.write_all(number.as_slice());
    }
    Ok(())
}

/// Writes each line of standard input as it comes, with what it says, and at its end the number of the last one into a file.
pub(crate) fn tell(
    rt: &HostRuntime,
    telling: Telling,
    file: &String,
) -> Result<Ending, AllocError> {
    let Ok(mut input) = BufReader::new(rt.alloc(), rt.stdin()) else {
        return Err(AllocError);
    };
    let rows = all_rows(rt.alloc())?;
    let mut number = Vec::new(rt.alloc());
    for _ in 0..u64::MAX {
        let mut line = Vec::new(rt.alloc());
        match input.read_until(b'\n', &mut line) {
            Ok(0) => break,
            Ok(_) => {}
            Err(_) => return Ok(Ending::As(Status::ReadFault)),
        }
        keep_number(line.as_slice(), &mut number)?;
        if !write(rt, telling, rows.as_slice(), line.as_slice())? {
            break;
        }
    }
    leave(rt, file, number)?;
    Ok(Ending::As(Status::Ok))
}
