//! Schedules that are made from a number.
ghost use Rattle.std.specs.{Prelude.{◌≡◌, ◌≤◌, ◌++◌, IfOk, OnOk}, List.flat_map};
ghost use Rattle.spl_gen.specs.{Draws.next_state, Circuits.circuits, Generated.{accepted, opening_lines, submitted_lines, restart, restart_lines}};
ghost use Rattle.spl_gen.specs.Generated.{restarted_state, batch_lines, batch_state, batches, roots, text_of, generated_text};

use crate::batch::batch;
use crate::circuit::{Circuit, node};
use crate::draws::Draws;
use crate::lines::{at, proposal, put_line, put_settled};
use spl_base::{Boxed, Piece, Writer};
use spl_sched::Line;
use spl_wire::Event;
use std::alloc::{AllocError, Global};

/// How many batches a generated schedule has at most.
pub const MOST_BATCHES: u16 = 400;

/// After so many batches a node stops and starts.
const BATCHES_TO_A_RESTART: u64 = 50;

const CIRCUITS: [Circuit; 3] = [Circuit::First, Circuit::Second, Circuit::Third];

#[tactic(auto, using(crate::proofs::Texts::text_none))]
fn put_acceptances(
    alloc: Global,
    circuit: Circuit,
    members: &[u8],
    w: &mut Writer,
) -> Result<(), AllocError>
    ensures { OnOk result (w.new ≡ w.old ++ text_of (flat_map (accepted circuit) members.now)) }
{
    for number in members {
        let accepted = at(circuit, Event::Vote { accept: true }, *number);
        put_settled(alloc, circuit, accepted, w)?;
    }
    Ok(())
}

fn put_opening(alloc: Global, circuit: Circuit, w: &mut Writer) -> Result<(), AllocError>
    ensures { OnOk result (w.new ≡ w.old ++ text_of (opening_lines circuit)) }
{
    let members = circuit.members();
    let proposed = at(circuit, proposal(alloc, circuit)?, members[0]);
    put_settled(alloc, circuit, proposed, w)?;
    put_acceptances(alloc, circuit, &members[1..], w)
}

#[tactic(auto, using(crate::proofs::Texts::text_none))]
fn put_openings(alloc: Global, w: &mut Writer) -> Result<(), AllocError>
    ensures { OnOk result (w.new ≡ w.old ++ text_of (flat_map opening_lines circuits)) }
{
    for circuit in &CIRCUITS {
        put_opening(alloc, *circuit, w)?;
    }
    Ok(())
}

fn put_submit(
    alloc: Global,
    number: u64,
    draws: &mut Draws,
    w: &mut Writer,
) -> Result<(), AllocError>
    ensures text { OnOk result (w.new ≡ w.old ++ text_of (submitted_lines number draws.old)) }
    ensures state { draws.new ≡ next_state (next_state (next_state draws.old)) }
{
    let circuit = Circuit::of(number);
    let member = circuit.member(draws.draw());
    let place = draws.draw();
    let batch = batch(alloc, number, place, draws.draw())?;
    let submit = Event::Submit(Boxed::new(alloc, batch)?);
    put_settled(alloc, circuit, at(circuit, submit, member), w)
}

fn put_restart(alloc: Global, number: u8, w: &mut Writer) -> Result<(), AllocError>
    ensures { OnOk result (w.new ≡ w.old ++ text_of (restart number)) }
{
    let node = node(number);
    put_line(alloc, Line::Stop(node), w)?;
    put_line(alloc, Line::Start(node), w)
}

#[tactic(auto, using(crate::proofs::Texts::text_none))]
fn put_restarted(
    alloc: Global,
    number: u64,
    draws: &mut Draws,
    w: &mut Writer,
) -> Result<(), AllocError>
    ensures text { OnOk result (w.new ≡ w.old ++ text_of (restart_lines number draws.old)) }
    ensures state { draws.new ≡ restarted_state number draws.old }
{
    if number % BATCHES_TO_A_RESTART != 0 {
        return Ok(());
    }
    put_restart(alloc, 1 + (draws.draw() % 4) as u8, w)
}

fn put_batch(
    alloc: Global,
    number: u64,
    draws: &mut Draws,
    w: &mut Writer,
) -> Result<(), AllocError>
    ensures text { OnOk result (w.new ≡ w.old ++ text_of (batch_lines number draws.old)) }
    ensures state { OnOk result (draws.new ≡ batch_state number draws.old) }
{
    put_submit(alloc, number, draws, w)?;
    put_restarted(alloc, number, draws, w)
}

#[tactic(auto, using(crate::proofs::Texts::text_none))]
fn put_batches(alloc: Global, n: u16, seed: u64, w: &mut Writer) -> Result<(), AllocError>
    ensures { OnOk result (w.new ≡ w.old ++ text_of (batches n seed)) }
{
    let mut draws = Draws::new(seed);
    for before in 0..n {
        put_batch(alloc, u64::from(before) + 1, &mut draws, w)?;
    }
    Ok(())
}

#[tactic(auto, using(crate::proofs::Texts::text_none))]
fn put_roots_of(alloc: Global, circuit: Circuit, w: &mut Writer) -> Result<(), AllocError>
    ensures { OnOk result (w.new ≡ w.old ++ text_of (roots circuit)) }
{
    for number in circuit.members() {
        put_line(alloc, at(circuit, Event::Root, *number), w)?;
    }
    Ok(())
}

#[tactic(auto, using(crate::proofs::Texts::text_none))]
fn put_roots(alloc: Global, w: &mut Writer) -> Result<(), AllocError>
    ensures { OnOk result (w.new ≡ w.old ++ text_of (flat_map roots circuits)) }
{
    for circuit in &CIRCUITS {
        put_roots_of(alloc, *circuit, w)?;
    }
    Ok(())
}

/// The text of the schedule that has n batches and is made from the seed (docs/RULES.md, Generated
/// schedules). The only error is that memory ran out.
pub fn schedule(alloc: Global, n: u16, seed: u64) -> Result<Piece, AllocError>
    requires low { 1 ≤ n }
    requires high { n ≤ MOST_BATCHES }
    ensures { IfOk result (λ p. p ≡ generated_text n seed) }
{
    let mut w = Writer::new(alloc);
    put_openings(alloc, &mut w)?;
    put_batches(alloc, n, seed, &mut w)?;
    put_roots(alloc, &mut w)?;
    Ok(w.into_piece())
}
