//! The lines of a source, read in pieces.
ghost use Rattle.std.specs.Prelude.{◌≡◌, ◌≢◌, ◌+◌, ◌-◌, ◌<◌, ◌≤◌, ◌++◌, ◌∷◌, [], ℕ, List, Option, IfOk, ◌==◌, OnErr, IsErrOf, true, false, length, take};
ghost use Rattle.std.specs.{Prelude.{vec_len, vec_capacity}, List.position, Io.{appended_bytes, KnownBytes.{Consumes, IsAtEnd}}};
ghost use Rattle.spl_edge.specs.{Devices.{HasCause, Rose}, Sources.limit, declared.{fabric.TheConstants.PIECE, source.TheConstants.MOST_BYTES}};
ghost use Rattle.spl_lines.specs.Lines.{IsLong, IsShort, greatest_line, has_feed};

use crate::lines::longest_line;
use spl_base::LONGEST_LINE;
use spl_edge::{DeviceError, MOST_BYTES, PIECE, Source};
use std::alloc::{AllocError, Global};

/// Why there is no next line.
#[derive(Clone, Copy, PartialEq, Eq)]
pub enum FeedFault {
    /// The source is at its end, and its last line lacks its line feed.
    Unfinished,
    /// The line is longer than a line may be.
    Overlong,
    /// The source gave more bytes than the limit.
    TooLong,
    /// The source failed.
    Read,
    /// Memory ran out.
    NoMemory,
}

/// The lines of a source, which is read in pieces. It keeps no more than a line and a piece.
#[derive(Drop)]
pub struct Feed {
    /// Bytes within the limit. The last line stands from `from` to `to`, what waits from `start` on.
    buffer: Vec<u8>,
    from: usize,
    to: usize,
    start: usize,
    /// How many bytes were read, those past the limit too.
    taken: usize,
    ghost line: { from ≤ to },
    ghost order: { to ≤ start },
    ghost within: { start ≤ vec_len buffer },
    ghost small: { vec_len buffer ≤ greatest_line + PIECE },
    ghost few: { taken ≤ MOST_BYTES + PIECE },
}

// The place of the first line feed.
fn place_of_feed(bytes: &[u8]) -> Option<usize>
    ensures { result ≡ position (λ b. b == 10) bytes.now }
{
    bytes.iter().position(|b| *b == b'\n')
}

impl Feed {
    ghost use Rattle.spl_lines.specs.Feed.{Feeds, count_of, has_line, last_line, waiting};

    /// A feed that has read nothing. It takes all its memory here, except lines of more than `LONGEST_LINE` bytes.
    pub fn new(alloc: Global) -> Result<Feed, AllocError>
        ensures { IfOk result (λ feed. (before : List ℕ) → (left : Option (List ℕ)) → Feeds before left [] before left feed) }
    {
        Ok(Feed {
            buffer: Vec::with_capacity(alloc, LONGEST_LINE + PIECE)?,
            from: 0,
            to: 0,
            start: 0,
            taken: 0,
        })
    }

    /// The line that `advance` took, without its line feed.
    pub fn line(&self) -> &[u8]
        ensures { result.now ≡ last_line self.now }
    {
        &self.buffer[self.from..self.to]
    }

    // How many bytes wait.
    fn wait(&self) -> usize
        ensures { result ≡ length (waiting self.now) }
    {
        self.buffer.len() - self.start
    }

    // The bytes that wait.
    #[tactic(auto, using(std::proofs::lemmas::List::take_rest))]
    fn waiting(&self) -> &[u8]
        ensures { result.now ≡ waiting self.now }
    {
        &self.buffer[self.start..]
    }

    // Whether the line that waits is longer than it may be.
    #[tactic(auto, using(crate::proofs::Longest::short_line))]
    fn is_overlong(&self) -> bool
        ensures long { result ≡ true → IsLong (waiting self.now) }
        ensures short { result ≡ false → IsShort (waiting self.now) }
    {
        let wait = self.waiting();
        if wait.len() <= LONGEST_LINE {
            return false;
        }
        wait.len() > longest_line(wait)
    }

    // Takes the first line that waits, where one does. The first bytes that wait, so many, have no line feed.
    fn cut(&mut self, seen: usize) -> bool
        requires seen { seen ≤ length (waiting self.old) }
        requires none { has_feed (take seen (waiting self.old)) ≡ false }
        ensures line { result ≡ true → (waiting self.old ≡ last_line self.new ++ 10 ∷ waiting self.new) × (has_feed (last_line self.new) ≡ false) }
        ensures none { result ≡ false → (has_feed (waiting self.old) ≡ false) × (waiting self.new ≡ waiting self.old) }
        ensures same { count_of self.new ≡ count_of self.old }
    {
        let from = self.start;
        match place_of_feed(&self.buffer[from + seen..]) {
            Some(count) => {
                self.from = from;
                self.to = from + seen + count;
                self.start = from + seen + count + 1;
                true
            }
            None => false,
        }
    }

    // Moves what waits to the beginning. Where it stands there nothing moves, so a long line that comes
    // in small pieces is moved once.
    fn shift(&mut self)
        ensures waits { waiting self.new ≡ waiting self.old }
        ensures prefix { self.new.start ≡ 0 }
        ensures same { count_of self.new ≡ count_of self.old }
    {
        if self.start == 0 {
            return;
        }
        let wait = self.wait();
        self.buffer.copy_within(self.start.., 0);
        self.buffer.truncate(wait);
        self.from = 0;
        self.to = 0;
        self.start = 0;
    }

    // Keeps what is within the limit, and counts all.
    #[tactic(auto, using(crate::proofs::Longest::short_greatest))]
    fn put(&mut self, piece: &[u8])
        requires short { IsShort (waiting self.old) }
        requires room { vec_len self.old.buffer + PIECE ≤ vec_capacity self.old.buffer }
        requires prefix { self.old.start ≡ 0 }
        requires within { count_of self.old ≤ limit }
        requires piece { length piece.now ≤ PIECE }
        ensures waits { waiting self.new ≡ waiting self.old ++ take (limit - count_of self.old) piece.now }
        ensures count { count_of self.new ≡ count_of self.old + length piece.now }
    {
        let within = piece.len().min(MOST_BYTES - self.taken);
        self.buffer.extend_from_slice(&piece[..within]).unwrap();
        self.taken += piece.len();
    }

    // Reads a piece, and says how long it is.
    fn fill<S: Source>(&mut self, source: &mut S) -> Result<usize, DeviceError>
        requires short { IsShort (waiting self.old) }
        requires within { count_of self.old ≤ limit }
        ensures taken { (S.view source.new).gave ≡ (S.view source.old).gave ++ appended_bytes (S.view source.old).gave (S.view source.new).gave }
        ensures left { Consumes (S.view source.old).left (S.view source.new).left (appended_bytes (S.view source.old).gave (S.view source.new).gave) }
        ensures waits { waiting self.new ≡ waiting self.old ++ take (limit - count_of self.old)
            (appended_bytes (S.view source.old).gave (S.view source.new).gave) }
        ensures count { count_of self.new ≡ count_of self.old + length (appended_bytes (S.view source.old).gave (S.view source.new).gave) }
        ensures told { IfOk result (λ n. n ≡ length (appended_bytes (S.view source.old).gave (S.view source.new).gave)) }
        ensures end { IfOk result (λ n. n ≡ 0 → IsAtEnd (S.view source.new).left) }
        ensures none { OnErr result (appended_bytes (S.view source.old).gave (S.view source.new).gave ≡ []) }
        ensures cause { HasCause (S.view source.old).faults (S.view source.new).faults result }
    {
        let mut piece = [0u8; PIECE];
        self.shift();
        self.buffer.try_reserve(PIECE)?;
        let count = match source.read(&mut piece) {
            Ok(count) => count,
            Err(fault) => return Err(fault),
        };
        self.put(&piece[..count]);
        Ok(count)
    }

    /// Takes the next line, and says whether there is one: the source is at its end where there
    /// isn't. A line that stands whole within the limit comes before a fault.
    pub fn advance<S: Source>(&mut self, source: &mut S) -> Result<bool, FeedFault>
        ensures line { has_line result ≡ true → (before : List ℕ) → (had : Option (List ℕ)) → (lines : List (List ℕ))
            → Feeds before had lines (S.view source.old).gave (S.view source.old).left self.old
            → Feeds before had (lines ++ last_line self.new ∷ []) (S.view source.new).gave (S.view source.new).left self.new }
        ensures still { has_line result ≡ false → (before : List ℕ) → (had : Option (List ℕ)) → (lines : List (List ℕ))
            → Feeds before had lines (S.view source.old).gave (S.view source.old).left self.old
            → Feeds before had lines (S.view source.new).gave (S.view source.new).left self.new }

        // Where there is none, none waits.
        ensures none { has_line result ≡ false → has_feed (waiting self.new) ≡ false }
        ensures end { IfOk result (λ more. more ≡ false → IsAtEnd (S.view source.new).left × (count_of self.new ≤ limit) × (waiting self.new ≡ [])) }
        ensures unfinished { IsErrOf result FeedFault.Unfinished → IsAtEnd (S.view source.new).left × (count_of self.new ≤ limit) × (waiting self.new ≢ []) }
        ensures over { IsErrOf result FeedFault.Overlong → IsLong (waiting self.new) }
        ensures long { IsErrOf result FeedFault.TooLong → (limit < count_of self.new) × IsShort (waiting self.new) }
        ensures read { IsErrOf result FeedFault.Read → Rose (S.view source.old).faults (S.view source.new).faults × (count_of self.new ≤ limit)
            × IsShort (waiting self.new) }
        ensures later { (S.view source.old).faults ≤ (S.view source.new).faults }
    {
        let mut seen = 0;
        'pieces: loop {
            if self.cut(seen) {
                return Ok(true);
            }
            seen = self.wait();
            if self.is_overlong() {
                return Err(FeedFault::Overlong);
            }
            if self.taken > MOST_BYTES {
                return Err(FeedFault::TooLong);
            }
            match self.fill(source) {
                Ok(0) if seen == 0 => return Ok(false),
                Ok(0) => return Err(FeedFault::Unfinished),
                Ok(_) => {}
                Err(DeviceError::Failed) => return Err(FeedFault::Read),
                Err(DeviceError::NoMemory) => return Err(FeedFault::NoMemory),
            }
        }
    }
}
