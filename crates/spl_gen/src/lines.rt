//! The lines of a generated schedule, one by one.
ghost use Rattle.std.specs.Prelude.{◌≡◌, ◌++◌, ◌∷◌, [], IfOk, OnOk};
ghost use Rattle.spl_wire.specs.declared.event.Event.TheVariants as event;
ghost use Rattle.spl_sched.specs.declared.line.Line.TheVariants as line;
ghost use Rattle.spl_gen.specs.{Circuits.{generated_node, id, generated_definition}, Generated.{line_at, settled, text_of}};

use crate::circuit::{Circuit, node};
use spl_base::Writer;
use spl_circuit::CheckedDefinition;
use spl_sched::{Line, Step, write_line};
use spl_wire::Event;
use std::alloc::{AllocError, Global};

/// The event at the node of this number.
pub(crate) fn at(circuit: Circuit, event: Event, number: u8) -> Line
    ensures { result ≡ line_at circuit event number }
{
    Line::Step(Step::At {
        node: node(number),
        circuit: circuit.id(),
        event,
    })
}

/// The event that proposes the circuit.
pub(crate) fn proposal(alloc: Global, circuit: Circuit) -> Result<Event, AllocError>
    ensures { IfOk result (λ e. e ≡ event.Propose (generated_definition circuit)) }
{
    let definition = circuit.definition(alloc)?;
    Ok(Event::Propose(CheckedDefinition::new(alloc, definition)?))
}

/// Appends a line and its line feed.
#[tactic(auto, unfolding(crate::specs::Generated::text_of))]
pub(crate) fn put_line(alloc: Global, line: Line, w: &mut Writer) -> Result<(), AllocError>
    ensures { OnOk result (w.new ≡ w.old ++ text_of (line ∷ [])) }
{
    let bytes = write_line(alloc, &line)?;
    w.put_raw(bytes.bytes())?;
    w.put_u8(b'\n')
}

/// Appends a line of the circuit, and a calm of it.
pub(crate) fn put_settled(
    alloc: Global,
    circuit: Circuit,
    line: Line,
    w: &mut Writer,
) -> Result<(), AllocError>
    ensures { OnOk result (w.new ≡ w.old ++ text_of (settled circuit line)) }
{
    put_line(alloc, line, w)?;
    let calm = Line::Calm {
        circuit: circuit.id(),
        passes: 8,
    };
    put_line(alloc, calm, w)
}
