//! Answers with their words behind them.
ghost use Rattle.std.specs.{Prelude.{◌≡◌, ◌++◌, OnOk, MatchOption, Some, None}, List.flat_map};
ghost use Rattle.spl_short.specs.Written.{shortened_text};
ghost use Rattle.spl_words.specs.Words.{split};
ghost use Rattle.spl_explain.specs.Explained.{subject, value_words, said_of, answer_explained, behind_row, behind};

use crate::forms::{is_field, is_rest, row_of};
use crate::numbers::answer_of;
use crate::rows::Row;
use crate::values::Value;
use spl_base::is_text;
use spl_short::put_shortened;
use spl_words::WordReader;
use std::alloc::AllocError;

// What a field is about.
fn subject(part: &[u8]) -> &[u8]
    ensures { result.now ≡ subject part.now }
{
    match part {
        [] => &[],
        [b'!', ..] => b"note",
        [_, name @ ..] => name,
    }
}

// The words of a value of a subject.
fn words_of<'a>(values: &'a [Value], about: &[u8], word: &[u8]) -> Option<&'a [u8]>
    ensures { MatchOption result (value_words values.now about.now word.now ≡ None) (λ w. value_words values.now about.now word.now ≡ Some w.now) }
{
    for value in values {
        if is_text(value.about, about) && is_text(value.text, word) {
            return Some(value.words);
        }
    }
    None
}

// Appends the words of a part's word.
fn put_said_of(
    values: &[Value],
    part: &[u8],
    word: &[u8],
    out: &mut Vec<u8>,
) -> Result<(), AllocError>
    ensures { OnOk result (out.new.items ≡ out.old.items ++ said_of values.now part.now word.now) }
{
    if !is_field(part) {
        return Ok(());
    }
    let Some(words) = words_of(values, subject(part), word) else {
        return Ok(());
    };
    out.extend_from_slice(b"; ")?;
    out.extend_from_slice(words)
}

// Appends the short addresses of words.
fn put_shortened_words(words: &mut WordReader, out: &mut Vec<u8>) -> Result<(), AllocError>
    ensures { OnOk result (out.new.items ≡ out.old.items ++ flat_map shortened_text words.old) }
{
    while let Some(word) = words.next() {
        put_shortened(word, out)?;
    }
    Ok(())
}

// Appends those of all words of an answer; of words that are left the short addresses.
fn put_said(
    values: &[Value],
    form: &[u8],
    answer: &[u8],
    out: &mut Vec<u8>,
) -> Result<(), AllocError>
    ensures { OnOk result (out.new.items ≡ out.old.items ++ answer_explained values.now (split 32 form.now) (split 32 answer.now)) }
{
    let mut parts = WordReader::new(form, b' ');
    let mut words = WordReader::new(answer, b' ');
    while let Some(part) = parts.next() {
        if is_rest(part) {
            return put_shortened_words(&mut words, out);
        }
        let Some(word) = words.next() else {
            return Ok(());
        };
        put_said_of(values, part, word, out)?;
    }
    Ok(())
}

// Appends what stands behind an answer of a row.
fn put_behind(
    values: &[Value],
    row: &Row,
    answer: &[u8],
    out: &mut Vec<u8>,
) -> Result<(), AllocError>
    ensures { OnOk result (out.new.items ≡ out.old.items ++ behind_row values.now (Some row.now) answer.now) }
{
    out.extend_from_slice(b"  (")?;
    out.extend_from_slice(row.words)?;
    put_said(values, row.form, answer, out)?;
    out.extend_from_slice(b")")
}

/// Appends an answer as it is, and behind it what it says in words: those of the first row of a table whose form it has, and
/// those of its values, and short addresses. An answer without a row has nothing behind it. The only error is that memory ran out.
pub fn explain(
    rows: &[Row],
    values: &[Value],
    line: &[u8],
    out: &mut Vec<u8>,
) -> Result<(), AllocError>
    ensures { OnOk result (out.new.items ≡ out.old.items ++ (line.now ++ behind rows.now values.now line.now)) }
{
    out.extend_from_slice(line)?;
    let answer = answer_of(line);
    match row_of(rows, answer) {
        Some(row) => put_behind(values, &row, answer, out),
        None => Ok(()),
    }
}
