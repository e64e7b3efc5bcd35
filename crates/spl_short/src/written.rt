//! Lines with short addresses, written out.
ghost use Rattle.std.specs.{Prelude.{◌≡◌, ◌≤◌, ◌<◌, ◌-◌, ◌*◌, ◌++◌, IfOk, OnOk, List, length, replicate, if◌then◌else◌}, List.flat_map};
ghost use Rattle.spl_words.specs.Words.{hex_byte, hex_digit, split};
ghost use Rattle.spl_short.specs.Written.{is_name_byte, name_length, is_long_enough, name_digits, written_name, written_word, written_words, written_line};
ghost use Rattle.spl_short.specs.declared.places.Place.{Place};

use crate::places::{Place, places_of};
use spl_words::{WordReader, after};
use std::alloc::{AllocError, Global};

/// The most bytes that a name may have: those of an address.
const LONGEST: usize = 35;

fn is_name_byte(b: u8) -> bool
    ensures { result ≡ is_name_byte b }
{
    matches!(b, b'0'..=b'9' | b'A'..=b'Z' | b'a'..=b'z' | b'-')
}

/// How many bytes of a name stand at the front.
pub(crate) fn name_length(bytes: &[u8]) -> usize
    ensures value { result ≡ name_length bytes.now }
    ensures within { result ≤ length bytes.now }
{
    for place in 0..bytes.len() {
        if !is_name_byte(bytes[place]) {
            return place;
        }
    }
    bytes.len()
}

/// Whether a name may have so many bytes.
pub(crate) fn is_long_enough(count: usize) -> bool
    ensures { result ≡ is_long_enough count }
{
    1 <= count && count <= LONGEST
}

fn hex_digit(n: u8) -> u8
    requires { n < 16 }
    ensures { result ≡ hex_digit n }
{
    if n < 10 { b'0' + n } else { b'a' + (n - 10) }
}

fn put_digits(name: &[u8], out: &mut Vec<u8>) -> Result<(), AllocError>
    ensures { OnOk result (out.new.items ≡ out.old.items ++ flat_map hex_byte name.now) }
{
    for byte in name {
        out.extend_from_slice(&[hex_digit(*byte / 16), hex_digit(*byte % 16)])?;
    }
    Ok(())
}

fn put_zeros(count: usize, out: &mut Vec<u8>) -> Result<(), AllocError>
    ensures { OnOk result (out.new.items ≡ out.old.items ++ replicate count 48) }
{
    for _ in 0..count {
        out.push(b'0')?;
    }
    Ok(())
}

// How many zeros stand behind the digits of a name.
fn zeros_behind(is_whole: bool, name: &[u8]) -> usize
    requires { length name.now ≤ 35 }
    ensures { result ≡ (if is_whole then 70 - 2 * length name.now else 0) }
{
    if is_whole { 70 - 2 * name.len() } else { 0 }
}

// Appends a name written out.
fn put_name(is_whole: bool, name: &[u8], out: &mut Vec<u8>) -> Result<(), AllocError>
    requires { length name.now ≤ 35 }
    ensures { OnOk result (out.new.items ≡ out.old.items ++ name_digits is_whole name.now) }
{
    put_digits(name, out)?;
    put_zeros(zeros_behind(is_whole, name), out)
}

// Appends a word that begins as one with a name, by what stands behind this beginning.
fn put_behind(place: &Place, word: &[u8], rest: &[u8], out: &mut Vec<u8>) -> Result<(), AllocError>
    ensures { OnOk result (out.new.items ≡ out.old.items ++ written_name place.now word.now rest.now) }
{
    let count = name_length(rest);
    if !is_long_enough(count) {
        return out.extend_from_slice(word);
    }
    out.extend_from_slice(place.kept)?;
    put_name(place.is_whole, &rest[..count], out)?;
    out.extend_from_slice(&rest[count..])
}

fn put_word(places: &[Place], word: &[u8], out: &mut Vec<u8>) -> Result<(), AllocError>
    ensures { OnOk result (out.new.items ≡ out.old.items ++ written_word places.now word.now) }
{
    for place in places {
        if let Some(rest) = after(place.before, word) {
            return put_behind(place, word, rest, out);
        }
    }
    out.extend_from_slice(word)
}

// Appends words, each behind a space.
fn put_words(places: &[Place], words: &mut WordReader, out: &mut Vec<u8>) -> Result<(), AllocError>
    ensures { OnOk result (out.new.items ≡ out.old.items ++ written_words places.now words.old) }
{
    while let Some(word) = words.next() {
        out.extend_from_slice(b" ")?;
        put_word(places, word, out)?;
    }
    Ok(())
}

/// A line with its short addresses written out. The only error is that memory ran out.
pub fn write_out(alloc: Global, line: &[u8]) -> Result<Vec<u8>, AllocError>
    ensures { IfOk result (λ v. (places : List Place) × (v.items ≡ written_line places (split 32 line.now))) }
{
    let mut words = WordReader::new(line, b' ');
    let mut out = Vec::new(alloc);
    let Some(name) = words.next() else {
        return Ok(out);
    };
    out.extend_from_slice(name)?;
    put_words(places_of(name), &mut words, &mut out)?;
    Ok(out)
}
