//! The calm of circuits: passes of ticks and deliveries settle what is pending. Each law is a function without a body.
#![tactic(auto)]

ghost use Rattle.std.specs.Prelude.{◌≡◌, ℕ, ◌≤◌, None, true, List, [], ◌∷◌, ◌++◌, length};
ghost use Rattle.spl_circuit.specs.{Nodes.{NodeId, CircuitId}, Rules.{admin, service, is_member}, declared.{act.Act.Act, definition.Definition.Definition}};
ghost use Rattle.spl_command.specs.declared.batch.Batch.{Batch};
ghost use Rattle.spl_sched.specs.declared.line.Line.TheVariants as line;
ghost use Rattle.spl_circuit_world.specs.{Projection.{Ran, plainly, lines_fit, AllPlain}, Worlds.{blank, Occurrence, world_after}, Calm.calm};
ghost use Rattle.spl_circuit_world.specs.Whole.{whole_world, whole_happened};
ghost use Rattle.spl_circuit_liveness.specs.Settled.{acts_kept, batches_kept, AtMembers, IsWhole, RunsAtAll, IsRunningAll, IsValueSettled};

/// Take any world of a circuit's id that at most 32,768 occurrences reach, and a definition all of
/// whose members are registered and up, bound to it and open. A calm of six passes or more settles
/// the first pending act of its admin coordinator; and, where the circuit runs at each member, no
/// act is pending at one of them, and its admin coordinator has no round open, the first pending
/// batch of its service coordinator.
pub fn calms_settle()
    ensures acts { (ns : List NodeId) (es : List Occurrence) (c : CircuitId) (k : ℕ) (d : Definition) (v : Act) (rest : List Act) →
        AllPlain es → length es ≤ 32768 → 6 ≤ k → IsWhole (world_after ns es) d →
        (acts_kept (world_after ns es) (admin d)).pending ≡ v ∷ rest →
        IsValueSettled d (admin d) v (acts_kept (calm c (world_after ns es) k).world) }
    ensures batches { (ns : List NodeId) (es : List Occurrence) (c : CircuitId) (k : ℕ) (d : Definition) (v : Batch) (rest : List Batch) →
        AllPlain es → length es ≤ 32768 → 6 ≤ k → IsWhole (world_after ns es) d → IsRunningAll (world_after ns es) d →
        (batches_kept (world_after ns es) (service d)).pending ≡ v ∷ rest →
        IsValueSettled d (service d) v (batches_kept (calm c (world_after ns es) k).world) }
{}

/// So does the line of a calm, after any lines within their bounds: in the world of a circuit that
/// nodes stand for.
pub fn calm_lines_settle()
    ensures acts { (ns : List NodeId) (rs : List Ran) (c : CircuitId) (k : ℕ) (d : Definition) (v : Act) (rest : List Act) →
        lines_fit rs ≡ true → length (whole_happened (blank ns) c rs) ≤ 32768 → 6 ≤ k →
        IsWhole (whole_world (blank ns) c rs) d →
        (acts_kept (whole_world (blank ns) c rs) (admin d)).pending ≡ v ∷ rest →
        IsValueSettled d (admin d) v (acts_kept (whole_world (blank ns) c (rs ++ plainly (line.Calm c k) ∷ []))) }
    ensures batches { (ns : List NodeId) (rs : List Ran) (c : CircuitId) (k : ℕ) (d : Definition) (v : Batch) (rest : List Batch) →
        lines_fit rs ≡ true → length (whole_happened (blank ns) c rs) ≤ 32768 → 6 ≤ k →
        IsWhole (whole_world (blank ns) c rs) d → IsRunningAll (whole_world (blank ns) c rs) d →
        (batches_kept (whole_world (blank ns) c rs) (service d)).pending ≡ v ∷ rest →
        IsValueSettled d (service d) v (batches_kept (whole_world (blank ns) c (rs ++ plainly (line.Calm c k) ∷ []))) }
{}

/// What a calm keeps: the members stay registered and up, bound and open; a circuit that runs at
/// each of them, with no act pending and no round of acts open, goes on so, and its coordinator
/// commits no act.
pub fn calms_keep()
    ensures whole { (ns : List NodeId) (es : List Occurrence) (c : CircuitId) (k : ℕ) (d : Definition) →
        AllPlain es → IsWhole (world_after ns es) d →
        IsWhole (calm c (world_after ns es) k).world d }
    ensures runs { (ns : List NodeId) (es : List Occurrence) (c : CircuitId) (k : ℕ) (d : Definition) →
        AllPlain es → IsWhole (world_after ns es) d → IsRunningAll (world_after ns es) d →
        RunsAtAll (calm c (world_after ns es) k).world d }
    ensures idle { (ns : List NodeId) (es : List Occurrence) (c : CircuitId) (k : ℕ) (d : Definition) (n : NodeId) →
        AllPlain es → is_member d n ≡ true → IsWhole (world_after ns es) d →
        AtMembers d (λ j. (acts_kept (world_after ns es) j).pending ≡ []) →
        (acts_kept (world_after ns es) (admin d)).opened ≡ None →
        (acts_kept (calm c (world_after ns es) k).world (admin d)).history ≡ (acts_kept (world_after ns es) (admin d)).history }
{}
