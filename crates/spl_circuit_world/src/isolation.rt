//! A circuit's own lines suffice: laws of the worlds of circuits.
ghost use Rattle.std.specs.Prelude.{◌≡◌, ◌+◌, ◌≤◌, Bool, true, false, List, [], ◌∷◌, ◌++◌, length};
ghost use Rattle.spl_circuit.specs.{Nodes.{NodeId, CircuitId, has_node}, Rules.ascends};
ghost use Rattle.spl_wire.specs.declared.answer.Refusal.{Refusal};
ghost use Rattle.spl_wire.specs.declared.answer.Answer.TheVariants as answer;
ghost use Rattle.spl_sched.specs.declared.line.Step.{Step};
ghost use Rattle.spl_cell_rules.specs.Cells.{Cell, Empty, is_bound};
ghost use Rattle.spl_circuit_world.specs.{Worlds.{Origin, IsOrigin, World, IsUnmoved, Halts, step_plan, circuit_happens}, Projection.{Ran, lines_fit, names}};
ghost use Rattle.spl_circuit_world.specs.{Projection.{concerned, beside, own}, Answers.{line_answer, line_world, circuit_world, world_before, is_up}};
ghost use Rattle.spl_circuit_world.specs.{Answers.{bound_at, roll_answer, answer_to, answers_about, line_events, events_of}, Whole.world_beside};
ghost use Rattle.spl_circuit_world.specs.{Whole.{whole_world, whole_happened}, Same.IsSameFor, Moments.{IsMoment, AreAtMoment}};

/// A line that names a circuit moves that circuit's world; a stop or a start, also one in an event
/// of another circuit, is one in each; no other line moves a world.
pub fn circuits_are_apart()
    ensures own { (o : Origin) (before : List Ran) (r : Ran) (c : CircuitId) →
        names c r.line ≡ true →
        whole_world o c (before ++ r ∷ []) ≡ line_world (whole_world o c before) r.line r.kept }
    ensures others { (o : Origin) (before : List Ran) (r : Ran) (c : CircuitId) →
        names c r.line ≡ false →
        whole_world o c (before ++ r ∷ []) ≡ world_beside (whole_world o c before) r.line }
{}

/// A circuit's world after its own lines and the one after all lines have the same cells and the
/// same messages, and of the nodes concerned the same are up; at any other node nothing is kept. So
/// a line is answered as in the worlds after all lines. A node is up in that
/// world of each circuit, or of none. Each moment of a line is one in both worlds.
pub fn own_lines_suffice()
    ensures same { (o : Origin) (c : CircuitId) (rs : List Ran) →
        IsOrigin o → lines_fit rs ≡ true →
        IsSameFor (concerned o c rs) (circuit_world o c rs) (whole_world o c rs) }
    ensures elsewhere { (o : Origin) (c : CircuitId) (rs : List Ran) (n : NodeId) →
        IsOrigin o → lines_fit rs ≡ true → has_node (concerned o c rs) n ≡ false →
        (whole_world o c rs).at n ≡ Empty }
    ensures answer { (o : Origin) (before : List Ran) (r : Ran) →
        IsOrigin o → lines_fit (before ++ r ∷ []) ≡ true →
        answer_to o before r ≡ line_answer (λ c. whole_world o c before) (λ n. roll_answer o (before ++ r ∷ []) n) r.line r.kept }
    ensures up { (o : Origin) (c : CircuitId) (rs : List Ran) (n : NodeId) → (whole_world o c rs).up n ≡ is_up n rs }
    ensures moments { (o : Origin) (c : CircuitId) (before : List Ran) (r : Ran) (m : World) →
        IsOrigin o → lines_fit (before ++ r ∷ []) ≡ true → names c r.line ≡ true →
        IsMoment (whole_world o c before) r m →
        (n : World) × IsMoment (world_before o c before r) r n × IsSameFor (concerned o c (before ++ r ∷ [])) n m }
    ensures cells { (o : Origin) (before : List Ran) (r : Ran) (cells : CircuitId → NodeId → Cell) →
        IsOrigin o → lines_fit (before ++ r ∷ []) ≡ true →
        AreAtMoment (λ c. whole_world o c before) (λ c. whole_world o c before) r cells →
        AreAtMoment (λ c. world_before o c before r) (λ c. circuit_world o c before) r cells }
{}

/// Two runs in which a circuit's own lines are the same give the same answers to the lines that
/// name it. A line that doesn't name it, and leaves no stop or start of a node concerned, is none of
/// its own.
pub fn own_lines_decide()
    ensures equal { (o : Origin) (c : CircuitId) (rs ss : List Ran) →
        IsOrigin o → lines_fit rs ≡ true → lines_fit ss ≡ true → own o c rs ≡ own o c ss →
        answers_about o c [] rs ≡ answers_about o c [] ss }
    ensures dropped { (o : Origin) (c : CircuitId) (before after : List Ran) (r : Ran) →
        names c r.line ≡ false → beside (concerned o c (before ++ after)) r.line ≡ [] →
        own o c (before ++ r ∷ after) ≡ own o c (before ++ after) }
{}

/// The roll of a node is the one list in order that has a circuit exactly where it is bound at the
/// node.
pub fn rolls_have_what_is_bound()
    ensures ordered { (o : Origin) (rs : List Ran) (n : NodeId) → ascends (bound_at o rs n) ≡ true }
    ensures bound { (o : Origin) (rs : List Ran) (n : NodeId) (c : CircuitId) →
        IsOrigin o → lines_fit rs ≡ true →
        has_node (bound_at o rs n) c ≡ is_bound ((whole_world o c rs).at n) }
    ensures only { (o : Origin) (rs : List Ran) (n : NodeId) (xs : List CircuitId) →
        IsOrigin o → lines_fit rs ≡ true → ascends xs ≡ true →
        ((c : CircuitId) → has_node xs c ≡ is_bound ((whole_world o c rs).at n)) →
        xs ≡ bound_at o rs n }
{}

/// A line that is refused, whatever the refusal, leaves the world of each circuit as it was.
pub fn refusals_move_no_world()
    ensures { (o : Origin) (before : List Ran) (r : Ran) (why : Refusal) (c : CircuitId) →
        IsOrigin o → lines_fit (before ++ r ∷ []) ≡ true → answer_to o before r ≡ answer.Refused why →
        IsUnmoved (whole_world o c before) (whole_world o c (before ++ r ∷ [])) }
{}

/// Where an event without changes is cut off, it doesn't matter whether its record is kept.
pub fn nothing_is_lost_of_nothing()
    ensures { (w : World) (s : Step) (kept wanted : Bool) → (step_plan w s).changes ≡ []
        → circuit_happens w (Halts kept s) ≡ circuit_happens w (Halts wanted s) }
{}

/// A line more has as many events as in the worlds after all lines. No more happens in the world of
/// a circuit than the lines have events.
pub fn events_are_counted()
    ensures more { (o : Origin) (before : List Ran) (r : Ran) →
        IsOrigin o → lines_fit (before ++ r ∷ []) ≡ true →
        events_of o (before ++ r ∷ []) ≡ events_of o before + line_events (λ c. whole_world o c before) r.line }
    ensures happened { (o : Origin) (c : CircuitId) (rs : List Ran) → IsOrigin o → lines_fit rs ≡ true → length (whole_happened o c rs) ≤ events_of o rs }
{}
