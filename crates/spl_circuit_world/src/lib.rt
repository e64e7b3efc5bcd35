//! The world of one circuit, and the answers to a schedule: definitions, and what follows from
//! them.
#![tactic(auto)]

mod isolation;

ghost use Rattle.std.specs.Prelude.{◌≡◌, ℕ, ◌+◌, ◌*◌, ◌++◌, Bool, true, List, length};
ghost use Rattle.spl_circuit.specs.Nodes.{NodeId, CircuitId};
ghost use Rattle.spl_wire.specs.declared.answer.{Answer.Answer, Refusal.Refusal};
ghost use Rattle.spl_wire.specs.declared.answer.Answer.TheVariants as answer;
ghost use Rattle.spl_sched.specs.declared.line.{Line.Line, ProofCheck.ProofCheck, Step.Step};
ghost use Rattle.spl_sched.specs.declared.line.Line.TheVariants as line;
ghost use Rattle.spl_circuit_world.specs.{Worlds.{World, IsUnmoved, step_plan, step_world, Origin}, Calm.{Calming, open_nodes, pass, passes}, Quiet.IsQuiet};
ghost use Rattle.spl_circuit_world.specs.{Quiet.ticks_at, Answers.{check_answer, line_answer, line_world, answer_to}, Projection.{Ran, names}};

pub use isolation::{
    circuits_are_apart, events_are_counted, nothing_is_lost_of_nothing, own_lines_decide,
    own_lines_suffice, refusals_move_no_world, rolls_have_what_is_bound,
};

/// The most events that the lines of a run have (docs/RULES.md, Limits).
pub const MOST_EVENTS: u32 = 32_768;

/// The most lines of a run that stop a node (docs/RULES.md, Limits).
pub const MOST_STOPS: u8 = 32;

/// A line that is refused, whatever the refusal, leaves the world of its circuit as it was.
pub fn refused_lines_change_nothing()
    ensures step { (w : World) (s : Step) (why : Refusal) → (step_plan w s).answer ≡ answer.Refused why → IsUnmoved w (step_world w s) }
    ensures line { (worlds : CircuitId → World) (roll : NodeId → Answer) (l : Line) (kept : Bool) (why : Refusal) (c : CircuitId) →
        names c l ≡ true → line_answer worlds roll l kept ≡ answer.Refused why →
        IsUnmoved (worlds c) (line_world (worlds c) l kept) }
{}

/// What a check of a proof is answered hangs on its own line alone: neither on the nodes and what
/// they keep, nor on the lines before it.
pub fn checks_hang_on_their_line()
    ensures { (o : Origin) (before : List Ran) (c : ProofCheck) (kept : Bool)
        → answer_to o before (record { line = line.Check c; kept = kept }) ≡ check_answer c }
{}

/// A calm in which nothing is left to do stays so: a pass leaves the world as it is, and has no
/// event but a tick for each open node, which is idle. So have all the passes after it.
pub fn quiet_calms_stay()
    ensures world { (c : CircuitId) (ns : List NodeId) (z : Calming) → IsQuiet c ns z → (pass c ns z).world ≡ z.world }
    ensures happened { (c : CircuitId) (ns : List NodeId) (z : Calming) →
        IsQuiet c ns z →
        (pass c ns z).happened ≡ z.happened ++ ticks_at c (open_nodes z.world ns) }
    ensures quiet { (c : CircuitId) (ns : List NodeId) (z : Calming) → IsQuiet c ns z → IsQuiet c ns (pass c ns z) }
    ensures worlds { (c : CircuitId) (ns : List NodeId) (k : ℕ) (z : Calming) → IsQuiet c ns z → (passes c ns k z).world ≡ z.world }
    ensures events { (c : CircuitId) (ns : List NodeId) (k : ℕ) (z : Calming) →
        IsQuiet c ns z →
        length (passes c ns k z).happened ≡ length z.happened + k * length (open_nodes z.world ns) }
{}
