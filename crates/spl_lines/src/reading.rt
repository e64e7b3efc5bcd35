//! What is run of a line.
ghost use Rattle.std.specs.Prelude.{◌≡◌, Some, None, IfErr, IfOk, OnOk, IsErrOf, IsSomeAnd};
ghost use Rattle.spl_circuit.specs.Nodes.{has_node};
ghost use Rattle.spl_sched.specs.Grammar.{line_of};
ghost use Rattle.spl_lines.specs.Tasks.{IsAdmitted, IsLine, IsRunnable, line_said, said_in};

use crate::lines::{is_silent, longest_line};
use spl_base::{Boxed, CircuitId, LONGEST_LINE, NodeId};
use spl_delta::{WatchLine, read_watch};
use spl_sched::{Line, LineFault, read_line};
use std::alloc::Global;

/// What a line of a schedule says.
#[derive(Drop)]
pub enum Said {
    /// A line of the nodes.
    Line(Line),
    /// A line of a watcher.
    Watch(Boxed<WatchLine>),
}

/// Why nothing is run of a line.
#[derive(Clone, Copy, PartialEq, Eq)]
pub enum Unread {
    /// The line is empty or a comment.
    Silent,
    /// The schedule may not have the line.
    BadLine,
    /// Memory ran out.
    NoMemory,
}

impl Said {
    ghost use Rattle.spl_lines.specs.Tasks.{named_circuit};

    /// The circuit that it names, if it names one.
    pub fn circuit(&self) -> Option<CircuitId>
        ensures { result ≡ named_circuit self.now }
    {
        match self {
            Said::Line(line) => line.circuit(),
            Said::Watch(line) => Some(line.get().circuit()),
        }
    }
}

fn is_known(nodes: &[NodeId], node: &NodeId) -> bool
    ensures { result ≡ has_node nodes.now node.now }
{
    for known in nodes {
        if known == node {
            return true;
        }
    }
    false
}

// The line of a watcher, as what a schedule says.
fn watched(alloc: Global, line: WatchLine) -> Result<Said, Unread>
    ensures said { IfOk result (λ s. s ≡ Said.Watch line) }
    ensures memory { IfErr result (λ e. e ≡ Unread.NoMemory) }
{
    match Boxed::new(alloc, line) {
        Ok(line) => Ok(Said::Watch(line)),
        Err(_) => Err(Unread::NoMemory),
    }
}

// The line of a watcher that the bytes spell, which are no line of the nodes.
#[inline(never)]
fn read_watcher(alloc: Global, nodes: &[NodeId], line: &[u8]) -> Result<Said, Unread>
    requires { line_of line.now ≡ None }
    ensures said { IfOk result (λ s. said_in line.now ≡ Some s) }
    ensures known { IfOk result (IsRunnable nodes.now) }
    ensures bad { IsErrOf result Unread.BadLine → IsSomeAnd (said_in line.now) (IsAdmitted nodes.now) → ⊥ }
    ensures spoken { IsErrOf result Unread.Silent → ⊥ }
{
    match read_watch(alloc, line) {
        Ok(said) if is_known(nodes, &said.node()) => watched(alloc, said),
        Ok(_) | Err(LineFault::BadLine) => Err(Unread::BadLine),
        Err(LineFault::NoMemory) => Err(Unread::NoMemory),
    }
}

// What the bytes say, whether they are empty or a comment or not.
fn read_said(alloc: Global, nodes: &[NodeId], line: &[u8]) -> Result<Said, Unread>
    ensures said { IfOk result (λ s. said_in line.now ≡ Some s) }
    ensures known { IfOk result (IsRunnable nodes.now) }
    ensures bad { IsErrOf result Unread.BadLine → IsSomeAnd (said_in line.now) (IsAdmitted nodes.now) → ⊥ }
    ensures spoken { IsErrOf result Unread.Silent → ⊥ }
{
    match read_line(alloc, line) {
        Ok(said) if said.names_only(nodes) => Ok(Said::Line(said)),
        Ok(_) => Err(Unread::BadLine),
        Err(LineFault::BadLine) => read_watcher(alloc, nodes, line),
        Err(LineFault::NoMemory) => Err(Unread::NoMemory),
    }
}

/// What is run of a line of a schedule over these nodes. `Silent` comes exactly where it is empty or
/// a comment, and not too long; `BadLine` exactly where the schedule may not have the line: it is
/// too long, spells none, or names another node. Fails besides only where memory runs out.
pub fn read_admitted(alloc: Global, nodes: &[NodeId], line: &[u8]) -> Result<Said, Unread>
    ensures good { OnOk result (IsLine nodes.now line.now) }
    ensures said { IfOk result (λ s. line_said line.now ≡ Some s) }
    ensures known { IfOk result (IsRunnable nodes.now) }
    ensures silent { IsErrOf result Unread.Silent → IsLine nodes.now line.now × (line_said line.now ≡ None) }
    ensures bad { IsErrOf result Unread.BadLine → IsLine nodes.now line.now → ⊥ }
{
    if line.len() > LONGEST_LINE && line.len() > longest_line(line) {
        return Err(Unread::BadLine);
    }
    if is_silent(line) {
        return Err(Unread::Silent);
    }
    read_said(alloc, nodes, line)
}
