//! Texts, numbers and lists in JSON.
ghost use Rattle.std.specs.{Prelude.{◌≡◌, ◌<◌, ◌++◌, ◌∷◌, OnOk}, List.flat_map};
ghost use Rattle.spl_words.specs.Words.{hex_digit};
ghost use Rattle.spl_explain.specs.Objects.{escaped, quoted, key, number_text, is_object, nested, item, items, array, listed_items};

use crate::numbers::is_decimal;
use spl_base::is_text;
use spl_words::WordReader;
use std::alloc::AllocError;

pub(crate) fn append(bytes: &[u8], out: &mut Vec<u8>) -> Result<(), AllocError>
    ensures { OnOk result (out.new.items ≡ out.old.items ++ bytes.now) }
{
    out.extend_from_slice(bytes)
}

fn hex_digit(n: u8) -> u8
    requires { n < 16 }
    ensures { result ≡ hex_digit n }
{
    if n < 10 { b'0' + n } else { b'a' + (n - 10) }
}

fn put_escaped(byte: u8, out: &mut Vec<u8>) -> Result<(), AllocError>
    ensures { OnOk result (out.new.items ≡ out.old.items ++ escaped byte) }
{
    if byte == b'"' || byte == b'\\' {
        return append(&[b'\\', byte], out);
    }
    if byte < b' ' || byte > b'~' {
        let digits = [hex_digit(byte / 16), hex_digit(byte % 16)];
        return append(&[b'\\', b'u', b'0', b'0', digits[0], digits[1]], out);
    }
    append(&[byte], out)
}

fn put_all_escaped(bytes: &[u8], out: &mut Vec<u8>) -> Result<(), AllocError>
    ensures { OnOk result (out.new.items ≡ out.old.items ++ flat_map escaped bytes.now) }
{
    for byte in bytes {
        put_escaped(*byte, out)?;
    }
    Ok(())
}

/// Appends bytes as a text.
pub(crate) fn put_quoted(bytes: &[u8], out: &mut Vec<u8>) -> Result<(), AllocError>
    ensures { OnOk result (out.new.items ≡ out.old.items ++ quoted bytes.now) }
{
    append(b"\"", out)?;
    put_all_escaped(bytes, out)?;
    append(b"\"", out)
}

/// Appends the name of a member behind others.
pub(crate) fn put_key(name: &[u8], out: &mut Vec<u8>) -> Result<(), AllocError>
    ensures { OnOk result (out.new.items ≡ out.old.items ++ key name.now) }
{
    append(b",", out)?;
    put_quoted(name, out)?;
    append(b":", out)
}

/// Appends a number, or the text where it is none.
pub(crate) fn put_number(word: &[u8], out: &mut Vec<u8>) -> Result<(), AllocError>
    ensures { OnOk result (out.new.items ≡ out.old.items ++ number_text word.now) }
{
    if is_decimal(word) {
        append(word, out)
    } else {
        put_quoted(word, out)
    }
}

fn is_object(word: &[u8]) -> bool
    ensures { result ≡ is_object word.now }
{
    match word {
        [] => false,
        [first, ..] => *first == b'{',
    }
}

/// Appends an object as it is, or the text where it is none.
pub(crate) fn put_nested(word: &[u8], out: &mut Vec<u8>) -> Result<(), AllocError>
    ensures { OnOk result (out.new.items ≡ out.old.items ++ nested word.now) }
{
    if is_object(word) {
        append(word, out)
    } else {
        put_quoted(word, out)
    }
}

// Appends an item of a list of numbers, or of texts.
fn put_item(are_numbers: bool, word: &[u8], out: &mut Vec<u8>) -> Result<(), AllocError>
    ensures { OnOk result (out.new.items ≡ out.old.items ++ item are_numbers word.now) }
{
    if are_numbers {
        put_number(word, out)
    } else {
        put_quoted(word, out)
    }
}

// Appends items, each behind a comma.
fn put_more(are_numbers: bool, words: &mut WordReader, out: &mut Vec<u8>) -> Result<(), AllocError>
    ensures { OnOk result (out.new.items ≡ out.old.items ++ flat_map (λ word. 44 ∷ item are_numbers word) words.old) }
{
    while let Some(word) = words.next() {
        append(b",", out)?;
        put_item(are_numbers, word, out)?;
    }
    Ok(())
}

fn put_items(are_numbers: bool, words: &mut WordReader, out: &mut Vec<u8>) -> Result<(), AllocError>
    ensures { OnOk result (out.new.items ≡ out.old.items ++ items are_numbers words.old) }
{
    let Some(first) = words.next() else {
        return Ok(());
    };
    put_item(are_numbers, first, out)?;
    put_more(are_numbers, words, out)
}

/// Appends a list of the words that are left, of numbers or of texts.
pub(crate) fn put_array(
    are_numbers: bool,
    words: &mut WordReader,
    out: &mut Vec<u8>,
) -> Result<(), AllocError>
    ensures { OnOk result (out.new.items ≡ out.old.items ++ array are_numbers words.old) }
{
    append(b"[", out)?;
    put_items(are_numbers, words, out)?;
    append(b"]", out)
}

/// Appends the list of the items between commas, of which `-` has none.
pub(crate) fn put_listed(word: &[u8], out: &mut Vec<u8>) -> Result<(), AllocError>
    ensures { OnOk result (out.new.items ≡ out.old.items ++ listed_items word.now) }
{
    if is_text(word, b"-") {
        return append(b"[]", out);
    }
    let mut words = WordReader::new(word, b',');
    put_array(false, &mut words, out)
}
