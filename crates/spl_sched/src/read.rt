//! Reading a line.
ghost use Rattle.std.specs.{Prelude.{◌≡◌, ◌∷◌, IfOk, IsTrue, Some, None, nat_le, ◌^◌}, Result.IsErrOf, Option.option_map};
ghost use Rattle.spl_sched.specs.Grammar.{is_line, is_passes, spelling, calm_words, cut, failing, node, inner, read_words, line_of};
ghost use Rattle.spl_sched.specs.declared.line.Line.TheVariants as line;
ghost use Rattle.spl_words.specs.Words.{Reads, Takes, read_first, that, number};

use crate::check::read_check;
use crate::fill::FillText;
use crate::line::{Line, MOST_PASSES, Step};
use crate::step::read_step;
use spl_base::{CircuitId, NodeId, is_text};
use spl_words::{LineFault, WordReader, take};
use std::alloc::Global;

/// Takes a number from 1 to `MOST_PASSES`.
fn take_passes(alloc: Global, words: &mut WordReader) -> Result<u8, LineFault>
    ensures { Takes result words.new (read_first (that is_passes (number (2 ^ 8))) words.old) }
{
    let passes = take::<u8>(alloc, words)?;
    if passes < 1 || passes > MOST_PASSES {
        return Err(LineFault::BadLine);
    }
    Ok(passes)
}

/// Takes a number from 1.
fn take_call(alloc: Global, words: &mut WordReader) -> Result<u8, LineFault>
    ensures { Takes result words.new (read_first (that (nat_le 1) (number (2 ^ 8))) words.old) }
{
    let call = take::<u8>(alloc, words)?;
    if call < 1 {
        return Err(LineFault::BadLine);
    }
    Ok(call)
}

/// A node and nothing after it.
fn read_node(alloc: Global, words: &mut WordReader) -> Result<NodeId, LineFault>
    ensures { Reads result (option_map (λ x. x.0) (node.read words.old)) }
{
    let node = take::<NodeId>(alloc, words)?;
    words.end()?;
    Ok(node)
}

fn read_calm(alloc: Global, words: &mut WordReader) -> Result<Line, LineFault>
    ensures { Reads result (option_map (λ x. line.Calm x.0 x.1.0) (calm_words.read words.old)) }
{
    let circuit = take::<CircuitId>(alloc, words)?;
    let passes = take_passes(alloc, words)?;
    words.end()?;
    Ok(Line::Calm { circuit, passes })
}

/// The step that all these words spell, if it may stand in a cut or a fail.
fn read_inner(alloc: Global, words: &mut WordReader) -> Result<Step, LineFault>
    ensures { Reads result (inner.read words.old) }
{
    let Some(name) = words.next() else {
        return Err(LineFault::BadLine);
    };
    let step = read_step(alloc, name, words)?;
    if !step.is_inner() {
        return Err(LineFault::BadLine);
    }
    Ok(step)
}

fn read_cut(alloc: Global, words: &mut WordReader) -> Result<Line, LineFault>
    ensures { Reads result (option_map (λ x. line.Cut x.0 x.1.0 x.1.1) (cut.read words.old)) }
{
    let calls = take::<u8>(alloc, words)?;
    let fill = take::<FillText>(alloc, words)?;
    let step = read_inner(alloc, words)?;
    Ok(Line::Cut { calls, fill, step })
}

fn read_failing(alloc: Global, words: &mut WordReader) -> Result<Line, LineFault>
    ensures { Reads result (option_map (λ x. line.Fail x.0 x.1) (failing.read words.old)) }
{
    let call = take_call(alloc, words)?;
    let step = read_inner(alloc, words)?;
    Ok(Line::Fail { call, step })
}

/// The line that the words after its name spell. A name that is none of these is a step's.
fn read_named(alloc: Global, name: &[u8], words: &mut WordReader) -> Result<Line, LineFault>
    ensures { Reads result (read_words (name.now ∷ words.old)) }
{
    if is_text(name, b"calm") {
        return read_calm(alloc, words);
    }
    if is_text(name, b"stop") {
        return Ok(Line::Stop(read_node(alloc, words)?));
    }
    if is_text(name, b"start") {
        return Ok(Line::Start(read_node(alloc, words)?));
    }
    if is_text(name, b"roll") {
        return Ok(Line::Roll(read_node(alloc, words)?));
    }
    if is_text(name, b"check") {
        return read_check(alloc, words);
    }
    if is_text(name, b"cut") {
        return read_cut(alloc, words);
    }
    if is_text(name, b"fail") {
        return read_failing(alloc, words);
    }
    Ok(Line::Step(read_step(alloc, name, words)?))
}

/// The line that the bytes spell (docs/RULES.md, Schedules), or `BadLine` where they spell none. An
/// empty line and one that begins with `#` are no lines. Fails besides only where memory runs out.
pub fn read_line(alloc: Global, line: &[u8]) -> Result<Line, LineFault>
    ensures ok { IfOk result (λ l. line_of line.now ≡ Some l) }
    ensures bad { IsErrOf result LineFault.BadLine → line_of line.now ≡ None }
    ensures spelled { IfOk result (λ l. (line.now ≡ spelling l) × IsTrue (is_line l)) }
{
    let mut words = WordReader::new(line, b' ');
    match words.next() {
        Some(name) => read_named(alloc, name, &mut words),
        None => Err(LineFault::BadLine),
    }
}
