//! A process that serves one node: turn after turn, over its disks and whatever brings it what comes.
ghost use Rattle.std.specs.Prelude.{◌≡◌, ◌||◌, ◌++◌, ◌∷◌, [], List, Option, Some, false, IfOk, OnOk, OnErr, IsErrOf};
ghost use Rattle.spl_edge.specs.Devices.{pair_view};
ghost use Rattle.spl_snapshot.specs.Counting.{HasRisen, PairOnward};
ghost use Rattle.spl_node.specs.Stands.{is_node_halted};
ghost use Rattle.spl_serve.specs.{Outside.{IsReadable, PortsView, after_arrival, grown_by, arrivals_stop}, Processes.{Comes, ServingEnds, FinishesAs, Goes}};
ghost use Rattle.spl_serve.specs.{Processes.{KeptTurn, LeavesPart, TakesAll, process_view}, Servers.{ServerStands, server_served, server_here}};

use crate::fault::ServeFault;
use crate::finish::Finish;
use crate::outside::{Arrival, Departure, PortFault, Ports};
use crate::server::Server;
use crate::ticks::Ticks;
use crate::turn::ServerTurn;
use spl_base::{CircuitId, NodeId};
use spl_edge::{Disk, Pair};
use std::alloc::{AllocError, Global};

/// How many milliseconds a process waits at most for something to come.
const LONGEST_WAIT: u64 = 1_000;

/// How many things that came are taken in a turn at most, and how many circuits tick in it at most.
const MOST_TAKEN: u32 = 64;

// A tick of a circuit.
fn tick(
    alloc: Global,
    nodes: &[NodeId],
    turn: &mut ServerTurn,
    circuit: CircuitId,
) -> Result<(), AllocError>
    requires running { is_node_halted turn.old.turn.node ≡ false }
    ensures { OnOk result ((v : Option PortsView) → TakesAll nodes.now false v v turn.old turn.new) }
{
    turn.take(alloc, nodes, Arrival::Tick { circuit })?;
    Ok(())
}

// A round that can begin at a circuit begins.
#[tactic(auto, using(crate::proofs::Turning::all_none))]
fn begin_round(
    alloc: Global,
    nodes: &[NodeId],
    turn: &mut ServerTurn,
    circuit: CircuitId,
) -> Result<(), AllocError>
    requires running { is_node_halted turn.old.turn.node ≡ false }
    ensures { OnOk result ((v : Option PortsView) → TakesAll nodes.now false v v turn.old turn.new) }
{
    if !turn.begins(alloc, &circuit)? {
        return Ok(());
    }
    tick(alloc, nodes, turn, circuit)
}

// After an event at a circuit: a round that can begin begins, and what is due then ticks later.
fn go_on(
    alloc: Global,
    nodes: &[NodeId],
    turn: &mut ServerTurn,
    ticks: &mut Ticks,
    circuit: CircuitId,
    now: u64,
) -> Result<(), AllocError>
    requires running { is_node_halted turn.old.turn.node ≡ false }
    ensures { OnOk result ((v : Option PortsView) → TakesAll nodes.now false v v turn.old turn.new) }
{
    begin_round(alloc, nodes, turn, circuit)?;
    if turn.is_due(&circuit) {
        ticks.wake(circuit, now)?;
    } else {
        ticks.rest(&circuit);
    }
    Ok(())
}

// Takes something that came; says whether it asks the process to stop.
fn take_one(
    alloc: Global,
    nodes: &[NodeId],
    turn: &mut ServerTurn,
    ticks: &mut Ticks,
    arrival: Arrival,
    now: u64,
) -> Result<bool, AllocError>
    requires running { is_node_halted turn.old.turn.node ≡ false }
    requires readable { IsReadable (Some arrival) }
    ensures { IfOk result (λ stops. (v w : Option PortsView)
        → w ≡ after_arrival (Some arrival) v → TakesAll nodes.now stops v w turn.old turn.new) }
{
    let stops = arrival.asks_to_stop();
    if let Some(circuit) = turn.take(alloc, nodes, arrival)? {
        go_on(alloc, nodes, turn, ticks, circuit, now)?;
    }
    Ok(stops)
}

// Whether one or the other is so.
fn either(one: bool, other: bool) -> bool
    ensures { result ≡ (one || other) }
{
    one || other
}

// Takes what came; says whether anything asks the process to stop.
fn take_all<P: Ports>(
    alloc: Global,
    nodes: &[NodeId],
    ports: &mut P,
    turn: &mut ServerTurn,
    ticks: &mut Ticks,
    now: u64,
) -> Result<bool, ServeFault>
    requires running { is_node_halted turn.old.turn.node ≡ false }
    ensures takes { IfOk result (λ stops. TakesAll nodes.now stops (P.view ports.old) (P.view ports.new) turn.old turn.new) }
    ensures comes { OnErr result (Comes (P.view ports.old) (P.view ports.new)) }
    ensures ports { IsErrOf result ServeFault.Disk → ⊥ }
{
    let mut stops = false;
    for _ in 0..MOST_TAKEN {
        let Some(arrival) = ports.next()? else {
            break;
        };
        let asks = take_one(alloc, nodes, turn, ticks, arrival, now)?;
        stops = either(asks, stops);
    }
    Ok(stops)
}

// Ticks a circuit whose time has come, where something is due.
#[tactic(auto, using(crate::proofs::Turning::all_none))]
fn tick_one(
    alloc: Global,
    nodes: &[NodeId],
    turn: &mut ServerTurn,
    ticks: &mut Ticks,
    circuit: CircuitId,
) -> Result<(), AllocError>
    requires running { is_node_halted turn.old.turn.node ≡ false }
    ensures { OnOk result ((v : Option PortsView) → TakesAll nodes.now false v v turn.old turn.new) }
{
    if turn.is_due(&circuit) {
        return tick(alloc, nodes, turn, circuit);
    }
    ticks.rest(&circuit);
    Ok(())
}

// Ticks the circuits whose time has come.
fn tick_all(
    alloc: Global,
    nodes: &[NodeId],
    turn: &mut ServerTurn,
    ticks: &mut Ticks,
    now: u64,
) -> Result<(), AllocError>
    requires running { is_node_halted turn.old.turn.node ≡ false }
    ensures { OnOk result ((v : Option PortsView) → TakesAll nodes.now false v v turn.old turn.new) }
{
    for _ in 0..MOST_TAKEN {
        let Some(circuit) = ticks.take(now) else {
            break;
        };
        tick_one(alloc, nodes, turn, ticks, circuit)?;
    }
    Ok(())
}

// Hands over what leaves by a turn.
fn put_all<P: Ports>(ports: &mut P, departures: &[Departure]) -> Result<(), PortFault>
    ensures all { OnOk result (P.view ports.new ≡ grown_by [] departures.now (P.view ports.old)) }
    ensures part { OnErr result (LeavesPart departures.now (P.view ports.old) (P.view ports.new)) }
{
    for departure in departures {
        ports.put(departure)?;
    }
    Ok(())
}

// One turn: waits, takes what came, ticks what is due, keeps the records of all of it, and hands over what leaves by it. It gives
// what it goes on with: the server, the time, and whether it was asked to stop.
fn run_turn<D: Disk, P: Ports>(
    alloc: Global,
    nodes: &[NodeId],
    server: Server,
    disks: &mut Pair<D>,
    ports: &mut P,
    ticks: &mut Ticks,
    now: u64,
) -> Result<(Server, u64, bool), ServeFault>
    requires { ServerStands server (pair_view D.view disks.old) }
    ensures goes { IfOk result (λ r. (t : KeptTurn) × (r.2 ≡ arrivals_stop t.came) × Goes (server_here server) nodes.now (server_served server)
        (process_view (pair_view D.view disks.old) (P.view ports.old)) (t ∷ []) (process_view (pair_view D.view disks.new) (P.view ports.new)) r.0) }
    ensures ends { OnErr result (ServingEnds (server_here server) nodes.now (server_served server)
        (process_view (pair_view D.view disks.old) (P.view ports.old)) (process_view (pair_view D.view disks.new) (P.view ports.new))) }
    ensures failed { IsErrOf result ServeFault.Disk → HasRisen (pair_view D.view disks.old) (pair_view D.view disks.new) }
    ensures onward { PairOnward (pair_view D.view disks.old) (pair_view D.view disks.new) }
{
    let now = ports.wait(ticks.pause(now, LONGEST_WAIT), &server.tally())?;
    let mut turn = server.begin(alloc);
    let stops = take_all(alloc, nodes, ports, &mut turn, ticks, now)?;
    tick_all(alloc, nodes, &mut turn, ticks, now)?;
    let (server, departures) = turn.keep(alloc, disks)?;
    put_all(ports, departures.as_slice())?;
    Ok((server, now, stops))
}

// The circuits that tick soon at first.
fn first_ticks(alloc: Global, server: &Server) -> Result<Ticks, AllocError> {
    let mut ticks = Ticks::new(alloc);
    for circuit in server.roll(alloc)?.as_slice() {
        if server.is_due(circuit) {
            ticks.wake(*circuit, 0)?;
        }
    }
    Ok(ticks)
}

/// Serves a node for so many turns, over its disks, or up to the first turn in which it is asked to stop. In each turn the node
/// does what came brings, once its records are kept what leaves by it leaves, and at any moment its disks stand for the cells
/// before the turn or for those after it. Where it ends before, a first part of what leaves by the turns that were kept has left,
/// and nothing else. `Disk` comes only where a disk failed.
pub fn serve<D: Disk, P: Ports>(
    alloc: Global,
    nodes: &[NodeId],
    server: Server,
    disks: &mut Pair<D>,
    ports: &mut P,
    turns: u64,
) -> Result<Finish, ServeFault>
    requires { ServerStands server (pair_view D.view disks.old) }
    ensures serves { IfOk result (λ f. FinishesAs f turns (server_here server) nodes.now (server_served server)
        (process_view (pair_view D.view disks.old) (P.view ports.old)) (process_view (pair_view D.view disks.new) (P.view ports.new))) }
    ensures ends { OnErr result (ServingEnds (server_here server) nodes.now (server_served server)
        (process_view (pair_view D.view disks.old) (P.view ports.old)) (process_view (pair_view D.view disks.new) (P.view ports.new))) }
    ensures failed { IsErrOf result ServeFault.Disk → HasRisen (pair_view D.view disks.old) (pair_view D.view disks.new) }
    ensures onward { PairOnward (pair_view D.view disks.old) (pair_view D.view disks.new) }
{
    let mut ticks = first_ticks(alloc, &server)?;
    let mut server = server;
    let mut now = 0;
    for _ in 0..turns {
        let (after, moment, stops) = run_turn(alloc, nodes, server, disks, ports, &mut ticks, now)?;
        server = after;
        now = moment;
        if stops {
            return Ok(Finish::Stopped);
        }
    }
    Ok(Finish::Turns)
}
