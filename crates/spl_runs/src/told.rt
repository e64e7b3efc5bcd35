//! What is told of a line: its answer, or its trace.
ghost use Rattle.std.specs.Prelude.{◌≡◌, ◌++◌, ◌∷◌, [], Bool, Some, OnOk, true, false};
ghost use Rattle.spl_answer.specs.Texts.{answer_spelling};
ghost use Rattle.spl_circuit.specs.Nodes.{CircuitId};
ghost use Rattle.spl_delta.specs.Watches.{watch_text, watch_spelling};
ghost use Rattle.spl_lines.specs.Tasks.{line_said};
ghost use Rattle.spl_circuit_world.specs.Worlds.{World as CircuitWorld};
ghost use Rattle.spl_trace.specs.{Traced.{flat_line, written_lines}, Heard.heard_of, Tracers.HasHeard};

use spl_answer::append_text;
use spl_delta::{WatchAnswer, WatchLine, watch_lines_are_read_back};
use spl_lines::Said;
use spl_sched::{Line, lines_have_one_spelling};
use spl_trace::Tracer;
use spl_wire::Answer;
use std::alloc::AllocError;

// A line as it stands in the schedule.
fn echo(bytes: &[u8], out: &mut Vec<u8>) -> Result<(), AllocError>
    ensures { OnOk result (out.new.items ≡ out.old.items ++ (bytes.now ++ 10 ∷ [])) }
{
    out.extend_from_slice(bytes)?;
    out.push(b'\n')?;
    Ok(())
}

/// What is written of a line, which the bytes spell, in place of what the text had: its answer, or, where the tracer is on, its
/// trace.
pub(crate) fn tell_line(
    tracer: &Tracer,
    answer: &Answer,
    line: &Line,
    bytes: &[u8],
    out: &mut Vec<u8>,
) -> Result<(), AllocError>
    requires spelled { line_said bytes.now ≡ Some (Said.Line line.now) }
    ensures answer { tracer.now.on ≡ false → OnOk result (out.new.items ≡ answer_spelling answer.now) }
    ensures trace { (worlds : CircuitId → CircuitWorld) (kept : Bool) → tracer.now.on ≡ true → HasHeard tracer.now (heard_of worlds line.now)
        → OnOk result (out.new.items ≡ written_lines (flat_line worlds line.now kept)) }
{
    lines_have_one_spelling();
    out.clear();
    if !tracer.is_on() {
        return append_text(answer, out);
    }
    match line {
        Line::Calm { .. } => out.extend_from_slice(tracer.text()),
        _ => echo(bytes, out),
    }
}

/// The same of a line of a watcher, whose trace is the line itself.
pub(crate) fn tell_watch(
    traced: bool,
    answer: &WatchAnswer,
    line: &WatchLine,
    bytes: &[u8],
    out: &mut Vec<u8>,
) -> Result<(), AllocError>
    requires spelled { line_said bytes.now ≡ Some (Said.Watch line.now) }
    ensures answer { traced ≡ false → OnOk result (out.new.items ≡ watch_text answer.now) }
    ensures trace { traced ≡ true → OnOk result (out.new.items ≡ watch_spelling line.now ++ 10 ∷ []) }
{
    watch_lines_are_read_back();
    out.clear();
    if traced {
        return echo(bytes, out);
    }
    answer.append_text(out)
}
