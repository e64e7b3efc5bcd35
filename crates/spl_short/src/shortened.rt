//! Short addresses in what a node answers.
ghost use Rattle.std.specs.{Prelude.{◌≡◌, ◌≤◌, ◌++◌, ◌==◌, OnOk, MatchOption, None, Some, length}, List.list_all};
ghost use Rattle.spl_short.specs.Written.{padded_name, name_read, named_text, long_text, shortened_text};
ghost use Rattle.spl_words.specs.Words.{read_hex_string};

use crate::written::{is_long_enough, name_length};
use spl_words::read_cells;
use std::alloc::AllocError;

/// How many digits an address has.
const DIGITS: usize = 70;

fn are_zeros(bytes: &[u8]) -> bool
    ensures { result ≡ list_all (λ b. b == 0) bytes.now }
{
    bytes.iter().all(|b| *b == 0)
}

// The name of which these are the bytes, and zeros behind it.
fn name_in(bytes: &[u8]) -> Option<&[u8]>
    ensures { MatchOption result (padded_name bytes.now ≡ None) (λ name. padded_name bytes.now ≡ Some name.now) }
{
    let count = name_length(bytes);
    if is_long_enough(count) && are_zeros(&bytes[count..]) {
        Some(&bytes[..count])
    } else {
        None
    }
}

// The name of the address of these digits, whose bytes come into the cells.
#[tactic(auto, using(crate::proofs::Unread::unread_is_none))]
fn name_at<'a>(digits: &[u8], cells: &'a mut [u8; 35]) -> Option<&'a [u8]>
    ensures { MatchOption result (name_read (read_hex_string digits.now) ≡ None) (λ name. name_read (read_hex_string digits.now) ≡ Some name.now) }
{
    if !read_cells(digits, cells) {
        return None;
    }
    name_in(cells)
}

// Appends a name behind its mark, and what stands behind its address.
fn put_name(name: &[u8], rest: &[u8], out: &mut Vec<u8>) -> Result<(), AllocError>
    ensures { OnOk result (out.new.items ≡ out.old.items ++ named_text (Some name.now) rest.now) }
{
    out.extend_from_slice(b"; '")?;
    out.extend_from_slice(name)?;
    out.extend_from_slice(rest)
}

// Appends what a word of so many bytes has.
fn put_long(word: &[u8], out: &mut Vec<u8>) -> Result<(), AllocError>
    requires { 70 ≤ length word.now }
    ensures { OnOk result (out.new.items ≡ out.old.items ++ long_text word.now) }
{
    let mut cells = [0; 35];
    match name_at(&word[..DIGITS], &mut cells) {
        Some(name) => put_name(name, &word[DIGITS..], out),
        None => Ok(()),
    }
}

/// Appends a word that begins with an address which has a short one, with that in its place, behind `; `; nothing for any other.
pub fn put_shortened(word: &[u8], out: &mut Vec<u8>) -> Result<(), AllocError>
    ensures { OnOk result (out.new.items ≡ out.old.items ++ shortened_text word.now) }
{
    if DIGITS <= word.len() {
        put_long(word, out)
    } else {
        Ok(())
    }
}
