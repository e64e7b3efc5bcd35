//! The trace of a schedule: each calm as the lines that it makes.
#![tactic(auto)]

mod tracer;

ghost use Rattle.std.specs.{Prelude.{◌≡◌, ◌≤◌, true, List}, List.list_all};
ghost use Rattle.spl_base.specs.Ids.{is_node_id};
ghost use Rattle.spl_circuit.specs.Nodes.{NodeId as Id};
ghost use Rattle.spl_circuit_world.specs.{Answers.events_of, Projection.{Ran, lines_fit}, Worlds.{IsOrigin, Origin, blank}};
ghost use Rattle.spl_circuit_world.specs.declared.TheConstants.{MOST_EVENTS};
ghost use Rattle.spl_trace.specs.Traced.{flat, IsOneRun};

pub use tracer::Tracer;

/// A schedule and its trace are one run: each line but the calms is answered alike, and both leave
/// the same cells and the same messages.
pub fn traces_are_one_run()
    ensures { (o : Origin) (rs : List Ran) → IsOrigin o → lines_fit rs ≡ true → lines_fit (flat o rs) ≡ true → IsOneRun o rs }
{}

/// Where lines within their bounds have no more events than a run may, and nothing is kept at first, their
/// trace is within the bounds of lines too: an event sends at most 32 messages, so that their numbers fit.
pub fn flat_schedules_fit()
    ensures { (ns : List Id) (rs : List Ran) → list_all is_node_id ns ≡ true → lines_fit rs ≡ true → events_of (blank ns) rs ≤ MOST_EVENTS
        → lines_fit (flat (blank ns) rs) ≡ true }
{}
