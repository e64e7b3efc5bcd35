//! The lines that ask a node and change nothing.
ghost use Rattle.std.specs.Prelude.{◌≡◌, None, Some, IfOk, IfSome, IsErrOf};
ghost use Rattle.spl_look.specs.Questions.{IsAsked, only_asks, question_at, question_in, question_of};

use spl_base::{CircuitId, LONGEST_LINE, NodeId};
use spl_lines::is_silent;
use spl_sched::{Line, LineFault, Step, read_line};
use spl_wire::Event;
use std::alloc::Global;

/// What is asked of a node.
#[derive(Drop)]
pub enum Question {
    /// What an event is answered at the cell of a circuit; it is one that changes nothing.
    At {
        node: NodeId,
        circuit: CircuitId,
        event: Event,
    },
    /// Which circuits are bound.
    Roll {
        node: NodeId,
    },
}

/// Why a line asks nothing.
#[derive(Clone, Copy, PartialEq, Eq)]
pub enum Unasked {
    /// It isn't a question.
    BadLine,
    /// Memory ran out.
    NoMemory,
}

impl Question {
    ghost use Rattle.spl_look.specs.Questions.{asked_node};

    /// The node that is asked.
    pub fn node(&self) -> NodeId
        ensures { result ≡ asked_node self.now }
    {
        match self {
            Question::At { node, .. } => *node,
            Question::Roll { node } => *node,
        }
    }
}

// Whether an event only asks.
fn asks(event: &Event) -> bool
    ensures { result ≡ only_asks event.now }
{
    match event {
        Event::Show | Event::Detail | Event::Root | Event::History => true,
        Event::Get(_) | Event::Prove(_) | Event::List(_) => true,
        Event::Status(_) | Event::Receipt(_) => true,
        _ => false,
    }
}

// What a step asks.
fn question_at(step: Step) -> Option<Question>
    ensures value { result ≡ question_at step }
    ensures only { IfSome result IsAsked }
{
    let Step::At {
        node,
        circuit,
        event,
    } = step
    else {
        return None;
    };
    if !asks(&event) {
        return None;
    }
    Some(Question::At {
        node,
        circuit,
        event,
    })
}

// What a line of a schedule asks.
fn question_in(said: Line) -> Option<Question>
    ensures value { result ≡ question_in said }
    ensures only { IfSome result IsAsked }
{
    match said {
        Line::Step(step) => question_at(step),
        Line::Roll(node) => Some(Question::Roll { node }),
        _ => None,
    }
}

/// What a line asks. `BadLine` comes exactly where it asks nothing: where it is empty, a comment or too long, or isn't a line of
/// a schedule that asks one node and changes nothing.
pub fn read_question(alloc: Global, line: &[u8]) -> Result<Question, Unasked>
    ensures asked { IfOk result (λ q. question_of line.now ≡ Some q) }
    ensures only { IfOk result IsAsked }
    ensures bad { IsErrOf result Unasked.BadLine → question_of line.now ≡ None }
{
    if is_silent(line) || line.len() > LONGEST_LINE {
        return Err(Unasked::BadLine);
    }
    let said = match read_line(alloc, line) {
        Ok(said) => said,
        Err(LineFault::BadLine) => return Err(Unasked::BadLine),
        Err(LineFault::NoMemory) => return Err(Unasked::NoMemory),
    };
    match question_in(said) {
        Some(question) => Ok(question),
        None => Err(Unasked::BadLine),
    }
}
