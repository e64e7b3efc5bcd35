//! Looks for the first line that a schedule may not have.
ghost use Rattle.std.specs.Prelude.{◌≡◌, Err};
ghost use Rattle.spl_lines.specs.Tasks.{IsLine};
ghost use Rattle.spl_lint.specs.Linting.{FitsLine, Linted, lint_fault};

use crate::cause::{Cause, cause_of};
use crate::wanted::Wanted;
use spl_base::NodeId;
use spl_edge::Source;
use spl_lines::{Feed, FeedFault, Unread, read_admitted};
use std::alloc::Global;

/// Why a schedule isn't a good one.
#[derive(Clone, Copy)]
pub enum LintFault {
    /// The line of this number is the first that a schedule may not have.
    BadLine { number: u32, cause: Cause },
    /// The source failed, after lines that are all good.
    Read,
    /// The source gave more bytes than a schedule may have, and no line of those within the limit is bad.
    TooLong,
    /// Memory ran out.
    NoMemory,
}

// What becomes of a schedule whose next line, of this number, didn't come.
fn fault_of(fault: FeedFault, number: u32) -> LintFault
    ensures { result ≡ lint_fault fault number }
{
    match fault {
        FeedFault::Unfinished => LintFault::BadLine {
            number,
            cause: Cause {
                column: None,
                wanted: Wanted::LineFeed,
            },
        },
        FeedFault::Overlong => LintFault::BadLine {
            number,
            cause: Cause {
                column: None,
                wanted: Wanted::ShorterLine,
            },
        },
        FeedFault::TooLong => LintFault::TooLong,
        FeedFault::Read => LintFault::Read,
        FeedFault::NoMemory => LintFault::NoMemory,
    }
}

// The fault that a line is which a schedule may not have, and which has this number.
fn bad_line(alloc: Global, nodes: &[NodeId], number: u32, line: &[u8]) -> LintFault
    requires { IsLine nodes.now line.now → ⊥ }
    ensures { FitsLine (Err result) nodes.now number line.now }
{
    match cause_of(alloc, nodes, line) {
        Ok(cause) => LintFault::BadLine { number, cause },
        Err(_) => LintFault::NoMemory,
    }
}

// Whether a schedule over these nodes may have a line, which has this number.
fn lint_line(alloc: Global, nodes: &[NodeId], number: u32, line: &[u8]) -> Result<(), LintFault>
    ensures { FitsLine result nodes.now number line.now }
{
    // What is read is large, so it stays where it was read.
    match &read_admitted(alloc, nodes, line) {
        Ok(_) => Ok(()),
        Err(Unread::Silent) => Ok(()),
        Err(Unread::BadLine) => Err(bad_line(alloc, nodes, number, line)),
        Err(Unread::NoMemory) => Err(LintFault::NoMemory),
    }
}

/// Reads a schedule over these nodes up to its first line that a schedule may not have: one that is too long, lacks its line
/// feed, spells none, or names another node. `BadLine` comes exactly where there is one, with its number, `TooLong` where no line
/// within the limit is bad and more bytes come, and `Read` only where the source failed after good lines. Nothing is run.
pub fn lint<S: Source>(alloc: Global, nodes: &[NodeId], source: &mut S) -> Result<(), LintFault>
    ensures { Linted result nodes.now (S.view source.old) (S.view source.new) }
{
    let Ok(mut feed) = Feed::new(alloc) else {
        return Err(LintFault::NoMemory);
    };
    let mut number = 1u32;
    'lines: loop {
        match feed.advance(source) {
            Ok(true) => {
                let line = feed.line();
                match lint_line(alloc, nodes, number, line) {
                    Ok(()) => number += 1,
                    Err(fault) => return Err(fault),
                }
            }
            Ok(false) => return Ok(()),
            Err(fault) => return Err(fault_of(fault, number)),
        }
    }
}
