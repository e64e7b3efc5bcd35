//! The law of watchers: each takes what its circuit's one list of batches changed, each batch once and in order.
ghost use Rattle.std.specs.Prelude.{◌≡◌, true, List};
ghost use Rattle.spl_circuit_safety.specs.Agreement.{HasLeft};
ghost use Rattle.spl_circuit.specs.Nodes.{CircuitId, NodeId};
ghost use Rattle.spl_delta.specs.Watches.{Task, lines_in};
ghost use Rattle.spl_circuit_world.specs.{Projection.{AllPlain, lines_fit}, Worlds.{IsOrigin, Occurrence, Origin}};
ghost use Rattle.spl_app.specs.Taken.{WatchersTakeOn, WatchersTakeOneList, AskAlike};
ghost use Rattle.spl_trace.specs.Traced.{flat};

/// What the watchers of each circuit have taken after any tasks is what the circuit's one list of batches has from their first
/// place on, each delta once and in order, whatever members they asked and whatever stopped between; replayed over the state
/// of the batches before it gives the state of all that they have taken.
pub fn watchers_take_one_list()
    ensures { (ns : List NodeId) (ts : List Task) → lines_fit (lines_in ts) ≡ true → WatchersTakeOneList ns ts }
{}

/// So it is in a run that begins with the cells that another has left: the list is that of the one run that both are.
pub fn watchers_take_on()
    ensures { (o : Origin) (left : CircuitId → List Occurrence) (ts : List Task) →
        IsOrigin o → lines_fit (lines_in ts) ≡ true → ((c : CircuitId) → AllPlain (left c)) → ((c : CircuitId) → HasLeft (left c) o c) →
        WatchersTakeOn o left ts }
{}

/// A line of a watcher is answered after the trace of what stands before it as it is answered in the schedule, and both leave
/// the same watchers.
pub fn traces_ask_watchers_alike()
    ensures { (o : Origin) (ts : List Task) → IsOrigin o → lines_fit (lines_in ts) ≡ true → lines_fit (flat o (lines_in ts)) ≡ true → AskAlike o ts }
{}
