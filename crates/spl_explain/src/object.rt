//! Answers as JSON objects.
ghost use Rattle.std.specs.Prelude.{◌≡◌, ◌++◌, ◌-◌, OnOk, Some, None};
ghost use Rattle.spl_explain.specs.{Objects.{line_member, answer_members, object}, Forms.row_of};

use crate::fields::put_members;
use crate::forms::row_of;
use crate::numbers::{answer_of, front};
use crate::quoted::{append, put_quoted};
use crate::rows::Row;
use std::alloc::AllocError;

// Appends the number of a line, where it has one.
fn put_line(line: &[u8], out: &mut Vec<u8>) -> Result<(), AllocError>
    ensures { OnOk result (out.new.items ≡ out.old.items ++ line_member line.now) }
{
    let front = front(line);
    if front == 0 {
        return Ok(());
    }
    put_quoted(b"line", out)?;
    append(b":", out)?;
    append(&line[..front - 1], out)?;
    append(b",", out)
}

// Appends the whole text of an answer that has no row.
fn put_text(answer: &[u8], out: &mut Vec<u8>) -> Result<(), AllocError>
    ensures { OnOk result (out.new.items ≡ out.old.items ++ answer_members None answer.now) }
{
    put_quoted(b"text", out)?;
    append(b":", out)?;
    put_quoted(answer, out)
}

// Appends what an answer of a row says.
fn put_row(row: &Row, answer: &[u8], out: &mut Vec<u8>) -> Result<(), AllocError>
    ensures { OnOk result (out.new.items ≡ out.old.items ++ answer_members (Some row.now) answer.now) }
{
    put_quoted(b"answer", out)?;
    append(b":", out)?;
    put_quoted(row.name, out)?;
    put_members(row.form, answer, out)
}

fn put_told(rows: &[Row], answer: &[u8], out: &mut Vec<u8>) -> Result<(), AllocError>
    ensures { OnOk result (out.new.items ≡ out.old.items ++ answer_members (row_of rows.now answer.now) answer.now) }
{
    match row_of(rows, answer) {
        Some(row) => put_row(&row, answer, out),
        None => put_text(answer, out),
    }
}

/// Appends an answer as a JSON object of one line: its number, where it has one, and a member for each field of the first row of
/// a table whose form it has, or its whole text where it has no row. The only error is that memory ran out.
pub fn put_object(rows: &[Row], line: &[u8], out: &mut Vec<u8>) -> Result<(), AllocError>
    ensures { OnOk result (out.new.items ≡ out.old.items ++ object rows.now line.now) }
{
    append(b"{", out)?;
    put_line(line, out)?;
    put_told(rows, answer_of(line), out)?;
    append(b"}", out)
}
