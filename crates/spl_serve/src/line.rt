//! The lines of an operator: those of a schedule about one node, without the node's name.
ghost use Rattle.std.specs.{Prelude.{◌≡◌, ◌==◌, ◌≤◌, length, true, IsTrue, None, Some, Option, IfOk, IfSome, IsErrOf, if◌then◌else◌}, List.position};
ghost use Rattle.std.specs.Str.{bytes_eq};
ghost use Rattle.spl_lines.specs.Lines.{is_silent};
ghost use Rattle.spl_sched.specs.Grammar.{is_line, is_step};
ghost use Rattle.spl_sched.specs.declared.line.Step.TheVariants as step;
ghost use Rattle.spl_delta.specs.Watches.{watch_line_of};
ghost use Rattle.spl_serve.specs.Asking.{IsAskedFor, asked_by_step, asked_besides, asked_by_line, asked_of, asked_said, asked_watch, circuit_behind, is_tick};
ghost use Rattle.spl_serve.specs.Asking.{with_node_name, first_space, waits_in};

use spl_base::{Boxed, CircuitId, LONGEST_LINE, NodeId};
use spl_delta::{WatchLine, read_watch};
use spl_lines::is_silent;
use spl_sched::{Line, LineFault, Step, read_line};
use spl_wire::Event;
use std::alloc::{AllocError, Global};

/// What an operator asks a node.
#[derive(Drop)]
pub enum Asked {
    /// An event at the cell of a circuit.
    At { circuit: CircuitId, event: Event },
    /// Which circuits are bound.
    Roll,
    /// What waits at the cell of a circuit, and for which member.
    Waits { circuit: CircuitId },
    /// A line of a watcher at this node.
    OfWatcher { line: Boxed<WatchLine> },
}

/// Why a line isn't asked.
#[derive(Clone, Copy, PartialEq, Eq)]
pub enum Unasked {
    /// It isn't one that an operator may ask.
    BadLine,
    NoMemory,
}

// The place of the first space.
fn place_of_space(line: &[u8]) -> Option<usize>
    ensures place { result ≡ position (λ b. b == 32) line.now }
    ensures within { IfSome result (λ k. k ≤ length line.now) }
{
    line.iter().position(|b| *b == b' ')
}

// How many bytes the first word has.
fn place(line: &[u8]) -> usize
    ensures place { result ≡ first_space line.now }
    ensures within { result ≤ length line.now }
{
    match place_of_space(line) {
        Some(place) => place,
        None => line.len(),
    }
}

// The line of a schedule: the node's name comes after the first word.
fn spelled(alloc: Global, here: &NodeId, line: &[u8]) -> Result<Vec<u8>, AllocError>
    ensures { IfOk result (λ v. v.items ≡ with_node_name here.now line.now) }
{
    let (name, rest) = line.split_at(place(line));
    let mut whole = Vec::new(alloc);
    whole.extend_from_slice(name)?;
    whole.extend_from_slice(b" ")?;
    whole.extend_from_slice(here.bytes())?;
    whole.extend_from_slice(rest)?;
    Ok(whole)
}

// The circuit that bytes behind a word spell, after a space.
fn circuit_behind(bytes: &[u8]) -> Option<CircuitId>
    ensures { result ≡ circuit_behind bytes.now }
{
    match bytes.split_first() {
        Some((_, id)) => CircuitId::read(id),
        None => None,
    }
}

// The circuit in a line `waits ID`.
fn waits_in(line: &[u8]) -> Option<CircuitId>
    ensures { result ≡ waits_in line.now }
{
    let (word, rest) = line.split_at(place(line));
    if word != b"waits".as_slice() {
        return None;
    }
    circuit_behind(rest)
}

// What a line of a watcher asks of the node.
fn asked_watch(alloc: Global, here: &NodeId, line: WatchLine) -> Result<Asked, Unasked>
    ensures asked { IfOk result (λ a. asked_watch here.now (Some line) ≡ Some a) }
    ensures own { IfOk result (λ a. IsAskedFor here.now a) }
    ensures bad { IsErrOf result Unasked.BadLine → asked_watch here.now (Some line) ≡ None }
{
    if line.node() != *here {
        return Err(Unasked::BadLine);
    }
    match Boxed::new(alloc, line) {
        Ok(line) => Ok(Asked::OfWatcher { line }),
        Err(_) => Err(Unasked::NoMemory),
    }
}

// What a line asks that is none of the nodes of a schedule; `whole` is the line with the node's name.
fn read_besides(alloc: Global, here: &NodeId, line: &[u8], whole: &[u8]) -> Result<Asked, Unasked>
    ensures asked { IfOk result (λ a. asked_besides here.now (waits_in line.now) (watch_line_of whole.now) ≡ Some a) }
    ensures own { IfOk result (λ a. IsAskedFor here.now a) }
    ensures bad { IsErrOf result Unasked.BadLine → asked_besides here.now (waits_in line.now) (watch_line_of whole.now) ≡ None }
{
    if let Some(circuit) = waits_in(line) {
        return Ok(Asked::Waits { circuit });
    }
    match read_watch(alloc, whole) {
        Ok(said) => asked_watch(alloc, here, said),
        Err(LineFault::BadLine) => Err(Unasked::BadLine),
        Err(LineFault::NoMemory) => Err(Unasked::NoMemory),
    }
}

fn is_tick(event: &Event) -> bool
    ensures { result ≡ is_tick event.now }
{
    matches!(event, Event::Tick)
}

// What a step asks of the node.
fn asked_at(here: &NodeId, step: Step) -> Option<Asked>
    ensures { result ≡ asked_by_step here.now step }
{
    let Step::At {
        node,
        circuit,
        event,
    } = step
    else {
        return None;
    };
    if node != *here || is_tick(&event) {
        return None;
    }
    Some(Asked::At { circuit, event })
}

fn asked_roll(here: &NodeId, node: &NodeId) -> Option<Asked>
    ensures { result ≡ (if bytes_eq node.now here.now then Some Asked.Roll else None) }
{
    if node != here {
        return None;
    }
    Some(Asked::Roll)
}

// What a line of a schedule asks of the node.
fn asked_of(here: &NodeId, said: Line) -> Option<Asked>
    ensures { result ≡ asked_of here.now said }
{
    match said {
        Line::Step(step) => asked_at(here, step),
        Line::Roll(node) => asked_roll(here, &node),
        _ => None,
    }
}

// What a line of a schedule asks, if it names these nodes alone.
fn asked_said(nodes: &[NodeId], here: &NodeId, said: Line) -> Option<Asked>
    requires { is_line said ≡ true }
    ensures asked { result ≡ asked_said here.now nodes.now said }
    ensures own { IfSome result (IsAskedFor here.now) }
{
    if !said.names_only(nodes) {
        return None;
    }
    asked_of(here, said)
}

/// What a line asks of a node. `BadLine` comes exactly where it asks nothing: where it is empty, a comment or too long, or
/// isn't a line about this node that an operator may ask.
pub fn read_asked(
    alloc: Global,
    nodes: &[NodeId],
    here: &NodeId,
    line: &[u8],
) -> Result<Asked, Unasked>
    ensures asked { IfOk result (λ a. asked_by_line here.now nodes.now line.now ≡ Some a) }
    ensures own { IfOk result (λ a. IsAskedFor here.now a) }
    ensures bad { IsErrOf result Unasked.BadLine → asked_by_line here.now nodes.now line.now ≡ None }
{
    if is_silent(line) || line.len() > LONGEST_LINE {
        return Err(Unasked::BadLine);
    }
    let Ok(whole) = spelled(alloc, here, line) else {
        return Err(Unasked::NoMemory);
    };
    let asked = match read_line(alloc, &whole) {
        Ok(said) => asked_said(nodes, here, said),
        Err(LineFault::BadLine) => return read_besides(alloc, here, line, &whole),
        Err(LineFault::NoMemory) => return Err(Unasked::NoMemory),
    };
    match asked {
        Some(asked) => Ok(asked),
        None => Err(Unasked::BadLine),
    }
}
