//! What a line of a watcher is answered at a node that serves.
ghost use Rattle.std.specs.{Prelude.{◌≡◌, false, IfOk}, Str.bytes_eq};
ghost use Rattle.spl_circuit.specs.Nodes.{CircuitId as Circuit};
ghost use Rattle.spl_delta.specs.{Kept.watchers_of, Watches.{watch_text, watch_circuit, watchers_after}};
ghost use Rattle.spl_node.specs.Stands.{circuit_cell};
ghost use Rattle.spl_serve.specs.{Served.watch_told, Servers.served_by, Turns.ended};

use spl_base::Piece;
use spl_delta::{WatchAnswer, WatchLine, Watchers};
use spl_node::Turn;
use std::alloc::{AllocError, Global};

/// The answer to a line of a watcher, by the cell of its circuit as the turn has it; and what it makes of the watchers. The only
/// error is that memory ran out.
pub(crate) fn answer_watch(
    alloc: Global,
    turn: &Turn,
    watchers: &mut Watchers,
    line: &WatchLine,
) -> Result<WatchAnswer, AllocError>
    ensures answer { IfOk result (λ a. a ≡ watch_told (served_by turn.now.node watchers.old) line.now) }
    ensures after { IfOk result (λ a. watchers_of watchers.new (watch_circuit line.now)
        ≡ watchers_after (circuit_cell turn.now.node (watch_circuit line.now)) (watchers_of watchers.old (watch_circuit line.now)) line.now a) }
    ensures others { (c : Circuit) → bytes_eq (watch_circuit line.now) c ≡ false → watchers_of watchers.new c ≡ watchers_of watchers.old c }
{
    let circuit = line.circuit();
    let Some(cell) = turn.cell(&circuit) else {
        return Ok(WatchAnswer::NoCircuit);
    };
    let Some(definition) = cell.definition() else {
        return Ok(WatchAnswer::NoCircuit);
    };
    let Some(service) = cell.service() else {
        return Ok(WatchAnswer::NotActive);
    };
    watchers.answer(alloc, definition, service, line)
}

/// The text of an answer, with a line feed. The only error is that memory ran out.
pub(crate) fn text_of_watch(alloc: Global, answer: &WatchAnswer) -> Result<Piece, AllocError>
    ensures { IfOk result (λ p. p ≡ ended (watch_text answer.now)) }
{
    let mut out = Vec::new(alloc);
    answer.append_text(&mut out)?;
    out.push(b'\n')?;
    Ok(Piece::from_vec(out))
}
