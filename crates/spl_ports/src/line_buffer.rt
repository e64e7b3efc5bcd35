//! The lines that come on a connection.
ghost use Rattle.std.specs.Prelude.{◌≡◌, ◌≤◌, ◌++◌, [], Some, IfOk, OnOk, OnErr};
ghost use Rattle.spl_base.specs.declared.limit.TheConstants.{LONGEST_LINE};
ghost use Rattle.spl_ports.specs.Lines.{BeginsWithLine, place_of_feed};

use crate::front::drop_front;
use spl_base::{LONGEST_LINE, Piece};
use std::alloc::{AllocError, Global};
use std::marker::Model;

/// What comes next on a connection of lines.
#[derive(Drop)]
pub(crate) enum NextLine {
    /// A line, without its line feed.
    Line(Piece),
    /// No whole line yet.
    Part,
    /// More bytes than a line may have.
    TooLong,
}

/// Bytes of lines that came and weren't taken yet. Contracts see them.
#[derive(Drop)]
pub(crate) struct LineBuffer {
    bytes: Vec<u8>,
}

impl Model for LineBuffer {
    ghost use Rattle.std.specs.Prelude.{List, ℕ};

    ghost Value = { List ℕ };

    ghost view = { λ b. b.bytes.items };
}

// How many bytes stand before the first line feed.
fn feed_in(bytes: &[u8]) -> Option<usize>
    ensures { result ≡ place_of_feed bytes.now }
{
    bytes.iter().position(|byte| *byte == b'\n')
}

impl LineBuffer {
    ghost use Rattle.spl_ports.specs.Lines.{IsNextLine};

    pub(crate) fn new(alloc: Global) -> LineBuffer
        ensures { result ≡ [] }
    {
        LineBuffer {
            bytes: Vec::new(alloc),
        }
    }

    pub(crate) fn feed(&mut self, piece: &[u8]) -> Result<(), AllocError>
        ensures fed { OnOk result (self.new ≡ self.old ++ piece.now) }
        ensures memory { OnErr result (self.new ≡ self.old) }
    {
        self.bytes.extend_from_slice(piece)?;
        Ok(())
    }

    pub(crate) fn has_line(&self) -> bool {
        feed_in(&self.bytes).is_some()
    }

    // Takes the line that ends at a place, and its line feed.
    fn take(&mut self, alloc: Global, place: usize) -> Result<Piece, AllocError>
        requires feed { place_of_feed self.old ≡ Some place }
        requires short { place ≤ LONGEST_LINE }
        ensures { IfOk result (λ line. BeginsWithLine self.old line self.new) }
    {
        let line = Piece::from(alloc, &self.bytes[..place])?;
        drop_front(&mut self.bytes, place + 1);
        Ok(line)
    }

    /// Takes the next line, which has no more bytes than a line may have. The only error is that memory ran out.
    pub(crate) fn next(&mut self, alloc: Global) -> Result<NextLine, AllocError>
        ensures { IfOk result (λ next. IsNextLine self.old self.new next) }
    {
        match feed_in(&self.bytes) {
            None if self.bytes.len() > LONGEST_LINE => Ok(NextLine::TooLong),
            None => Ok(NextLine::Part),
            Some(place) if place > LONGEST_LINE => Ok(NextLine::TooLong),
            Some(place) => match self.take(alloc, place) {
                Ok(line) => Ok(NextLine::Line(line)),
                Err(AllocError) => Err(AllocError),
            },
        }
    }

    pub(crate) fn clear(&mut self)
        ensures { self.new ≡ [] }
    {
        self.bytes.truncate(0);
    }
}
