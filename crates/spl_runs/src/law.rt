//! What a calm is. Each law is a function without a body.
ghost use Rattle.std.specs.Prelude.{◌≡◌, ◌+◌, ◌++◌, ◌∷◌, [], ℕ, List, true, length, map};
ghost use Rattle.spl_circuit.specs.Nodes.{CircuitId};
ghost use Rattle.spl_circuit_world.specs.{Calm.calm, Projection.{by_rule, Ran, plainly}, Worlds.{Occurrence, Origin, Steps, occur}, Whole.whole_world};
ghost use Rattle.spl_sched.specs.{Grammar.is_line, declared.line.Step.Step};
ghost use Rattle.spl_sched.specs.declared.line.Line.TheVariants as line;
ghost use Rattle.spl_trace.specs.Traced.{steps_in};
ghost use Rattle.spl_node.specs.Benches.{Images};
ghost use Rattle.spl_world.specs.{Held.LineEnds, Views.StandsAfterLines, declared.{fault.WorldFault.WorldFault, world.World.World as Nodes}};

/// A calm is its steps: nodes that stand after the first of these, each as a line, of which the others do nothing, stand after
/// the calm, where those are counted too. And where one of them ended with an error, the calm did, in that event of that node.
pub fn calms_are_their_steps()
    ensures stands { (o : Origin) (others : ℕ) (before : List Ran) (c : CircuitId) (k : ℕ) →
        (v w : Nodes) (is : List Images) (es rest : List Occurrence) →
        is_line (line.Calm c k) ≡ true →
        es ++ rest ≡ (calm c (whole_world o c before) k).happened →
        (calm c (whole_world o c before) k).world ≡ occur (whole_world o c before) es →
        w.slots ≡ v.slots →
        w.stops ≡ v.stops →
        w.events ≡ v.events + length rest →
        StandsAfterLines o others (before ++ map plainly (steps_in es)) v is →
        StandsAfterLines o others (before ++ by_rule (line.Calm c k) ∷ []) w is }
    ensures ended { (o : Origin) (before : List Ran) (c : CircuitId) (k : ℕ) (es rest : List Occurrence) (s : Step) →
        (e : WorldFault) (ids : List CircuitId) (places : List ℕ) (is : List Images) →
        es ++ (Steps s ∷ rest) ≡ (calm c (whole_world o c before) k).happened →
        LineEnds (λ d. whole_world o d (before ++ map plainly (steps_in es))) (line.Step s) e ids places is →
        LineEnds (λ d. whole_world o d before) (line.Calm c k) e ids places is }
{}
