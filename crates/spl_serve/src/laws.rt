//! What node processes do among each other.
ghost use Rattle.std.specs.Prelude.{◌≡◌, ◌≤◌, ◌++◌, ℕ, List, Some, length};
ghost use Rattle.spl_circuit_safety.specs.Agreement.{batch_list};
ghost use Rattle.spl_circuit.specs.Nodes.{CircuitId, NodeId};
ghost use Rattle.spl_command.specs.declared.batch.Batch.{Batch};
ghost use Rattle.spl_delta.specs.Watches.{Watcher, watcher_named};
ghost use Rattle.spl_deployment.specs.{Deployments.{AllMayBe, History, IsLeftRunning, IsPossible, empty_net, happened, left_by}, Doings.cells_from};
ghost use Rattle.spl_circuit_world.specs.Worlds.{Occurrence};
ghost use Rattle.spl_serve.specs.{Following.TellLists, Processes.{AllMayDo, doings_of}, Served.Served, Taken.{AllBatchesBegin, TakesOn}, Turns.AllBring};
ghost use Rattle.spl_serve.specs.{Turns.{Deed, events_in, served_past}, declared.outside.Arrival.Arrival};

use spl_sched::lines_have_one_spelling;

/// The cells after what a node does in its turns are those after what it does as a process beside others: its events. What it
/// tells, and what it answers to a line of a watcher, is no doing.
pub fn turns_are_doings()
    ensures { (here : NodeId) (z : Served) (ds : List Deed) → (served_past here z ds).cells ≡ cells_from here z.cells (doings_of (events_in ds)) }
{}

/// What a node does by what came is what a process may do: its operator and its clock bring no delivery, and a message that it
/// hears came from another node.
pub fn what_comes_may_be_done()
    ensures { (here : NodeId) (ns : List NodeId) (z : Served) (came : List Arrival) (ds : List Deed) →
        AllBring here ns z came ds → AllMayDo here (doings_of (events_in ds)) }
{
    lines_have_one_spelling();
}

/// A watcher of a process stays as long as the process lives, and what it is told is what one list of batches has from its place
/// on, each delta once and in order: the list that the batches of its circuit begin at each moment here, as they do by the
/// agreement of the circuit's members.
pub fn watchers_take_one_list()
    ensures { (here : NodeId) (z : Served) (ds : List Deed) (c : CircuitId) (name : List ℕ) (t : Watcher) (list : List Batch) →
        watcher_named name (z.watchers c) ≡ Some t → t.next ≤ length list → AllBatchesBegin here c t.definition list z ds → TakesOn here z ds c name t list }
{}

/// Whatever any number of processes, each killed and begun again at any moments, tell the watchers of a circuit is of one list of
/// batches, the one that its members agree on: what that list has from a watcher's first place on below its next, each delta once
/// and in order. Under a name that no watcher of a process has it tells nothing. So it is from blank disks on, and where the
/// processes go on from what happened before, as from what a run over links has left.
pub fn watchers_of_processes_take_one_list()
    ensures from_blank { (ns : List NodeId) (h : History) → IsPossible ns h → (c : CircuitId) →
        TellLists empty_net h c (λ d. batch_list ns d (happened c h)) }
    ensures onwards { (ns : List NodeId) (before : CircuitId → List Occurrence) (h : History) →
        IsLeftRunning ns before → AllMayBe ns (left_by ns before) h → (c : CircuitId) →
        TellLists (left_by ns before) h c (λ d. batch_list ns d (before c ++ happened c h)) }
{}
