//! Taking words from the beginning of bytes.
ghost use Rattle.std.specs.{Prelude.{◌≡◌, ◌∷◌, [], ◌==◌, MatchOption, Some, None}, List.position};
ghost use Rattle.spl_words.specs.Words.{split, after, read_end, Reads};

use crate::fault::LineFault;
use std::marker::Model;

fn place_of(bytes: &[u8], by: u8) -> Option<usize>
    ensures { result ≡ position (λ b. b == by) bytes.now }
{
    bytes.iter().position(|b| *b == by)
}

/// What stands before the first such byte, and what stands after it, where there is one.
fn first_part(bytes: &[u8], by: u8) -> Option<(&[u8], &[u8])>
    ensures { MatchOption result (split by bytes.now ≡ bytes.now ∷ []) (λ p. split by bytes.now ≡ p.0.now ∷ split by p.1.now) }
{
    match place_of(bytes, by) {
        Some(i) => Some((&bytes[..i], &bytes[i + 1..])),
        None => None,
    }
}

/// What stands after these bytes, where a word begins with them.
pub fn after<'a>(keyword: &[u8], word: &'a [u8]) -> Option<&'a [u8]>
    ensures { MatchOption result (after keyword.now word.now ≡ None) (λ rest. after keyword.now word.now ≡ Some rest.now) }
{
    word.strip_prefix(keyword)
}

/// Takes words from the beginning of bytes that have one byte between each two words.
#[derive(Drop)]
pub struct WordReader<'a> {
    rest: &'a [u8],
    more: bool,
    by: u8,
}

impl<'a> Model for WordReader<'a> {
    ghost use Rattle.std.specs.Prelude.{List, ℕ, [], if◌then◌else◌};
    ghost use Rattle.spl_words.specs.Words.{split};

    ghost Value = { List (List ℕ) };

    ghost view = { λ a. if a.more then split a.by a.rest.now else [] };
}

impl<'a> WordReader<'a> {
    pub fn new(bytes: &'a [u8], by: u8) -> WordReader<'a>
        ensures { result ≡ split by bytes.now }
    {
        WordReader {
            rest: bytes,
            more: true,
            by,
        }
    }

    /// The next word.
    pub fn next(&mut self) -> Option<&'a [u8]>
        ensures { MatchOption result (self.old ≡ []) (λ w. self.old ≡ w.now ∷ self.new) }
    {
        if !self.more {
            return None;
        }
        match first_part(self.rest, self.by) {
            Some((word, after)) => {
                self.rest = after;
                Some(word)
            }
            None => {
                self.more = false;
                Some(self.rest)
            }
        }
    }

    /// Fails where a word is left.
    pub fn end(&self) -> Result<(), LineFault>
        ensures { Reads result (read_end self.now) }
    {
        if self.more {
            return Err(LineFault::BadLine);
        }
        Ok(())
    }
}
