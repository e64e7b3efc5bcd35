//! The members of an answer's fields.
ghost use Rattle.std.specs.Prelude.{◌≡◌, ◌++◌, OnOk};
ghost use Rattle.spl_words.specs.Words.{split};
ghost use Rattle.spl_explain.specs.Objects.{marked, field_member, rest_member, form_members};

use crate::forms::{is_rest, marks_field};
use crate::quoted::{put_array, put_key, put_listed, put_nested, put_number, put_quoted};
use spl_words::WordReader;
use std::alloc::AllocError;

// Appends what a mark makes of a word.
fn put_marked(mark: u8, word: &[u8], out: &mut Vec<u8>) -> Result<(), AllocError>
    ensures { OnOk result (out.new.items ≡ out.old.items ++ marked mark word.now) }
{
    match mark {
        b'#' => put_number(word, out),
        b',' => put_listed(word, out),
        b'{' => put_nested(word, out),
        _ => put_quoted(word, out),
    }
}

// Appends the member of a part's word, where the part is a field.
fn put_member(part: &[u8], word: &[u8], out: &mut Vec<u8>) -> Result<(), AllocError>
    ensures { OnOk result (out.new.items ≡ out.old.items ++ field_member part.now word.now) }
{
    let Some((mark, name)) = part.split_first() else {
        return Ok(());
    };
    if !marks_field(*mark) {
        return Ok(());
    }
    put_key(name, out)?;
    put_marked(*mark, word, out)
}

// Appends the member of all words that are left.
fn put_rest(part: &[u8], words: &mut WordReader, out: &mut Vec<u8>) -> Result<(), AllocError>
    ensures { OnOk result (out.new.items ≡ out.old.items ++ rest_member part.now words.old) }
{
    let Some((mark, name)) = part.split_first() else {
        return Ok(());
    };
    put_key(name, out)?;
    put_array(*mark == b'+', words, out)
}

/// Appends a member for each field of a form, by the words of an answer.
pub(crate) fn put_members(form: &[u8], answer: &[u8], out: &mut Vec<u8>) -> Result<(), AllocError>
    ensures { OnOk result (out.new.items ≡ out.old.items ++ form_members (split 32 form.now) (split 32 answer.now)) }
{
    let mut parts = WordReader::new(form, b' ');
    let mut words = WordReader::new(answer, b' ');
    while let Some(part) = parts.next() {
        if is_rest(part) {
            return put_rest(part, &mut words, out);
        }
        let Some(word) = words.next() else {
            return Ok(());
        };
        put_member(part, word, out)?;
    }
    Ok(())
}
