//! The agreement of circuits: whatever happens, the members of each circuit agree. Each law is a
//! function without a body.
#![tactic(auto)]

ghost use Rattle.std.specs.Prelude.{◌≡◌, ◌++◌, true, List};
ghost use Rattle.spl_circuit.specs.{Nodes.{NodeId, CircuitId}, declared.definition.Definition.Definition};
ghost use Rattle.spl_cell_rules.specs.Changes.{stopped_cell};
ghost use Rattle.spl_circuit_world.specs.{Worlds.{IsOrigin, Origin, Occurrence, occur, world_after}, Projection.{AllPlain, Ran, lines_fit}};
ghost use Rattle.spl_circuit_safety.specs.Agreement.{AtEach, IsPast, EndsForGood, FirstIsProposal, IsAgreed, Agree, TellOneList, ShowsPrefixes, HasLeft};
ghost use Rattle.spl_circuit_safety.specs.Agreement.{AllHappenedAt, AgreeOn, ShowsOn, restarts};

/// A cell that is bound to a definition stays bound to it, or is purged, or is bound to a later
/// generation; and the first act that it commits is the proposal of that definition.
pub fn bindings_are_final()
    ensures past { (ns : List NodeId) (es fs : List Occurrence) (d : Definition) →
        AllPlain es → AllPlain fs →
        AtEach (world_after ns es) d (λ n h. IsPast d ((occur (world_after ns es) fs).at n)) }
    ensures first { (ns : List NodeId) (es : List Occurrence) (d : Definition) → AllPlain es → AtEach (world_after ns es) d (λ n h. FirstIsProposal d h.acts) }
{}

/// A circuit that was rejected, removed or disbanded at a node stays so there as long as the node is
/// bound in its generation, and is never active there again.
pub fn endings_are_final()
    ensures { (ns : List NodeId) (es fs : List Occurrence) (d : Definition) →
        AllPlain es → AllPlain fs →
        AtEach (world_after ns es) d (λ n h. EndsForGood h ((occur (world_after ns es) fs).at n)) }
{}

/// Whatever happens in the world of a circuit, its members agree; so they do at each moment of any
/// lines within their bounds.
pub fn circuits_agree()
    ensures after { (ns : List NodeId) (es : List Occurrence) (d : Definition) → AllPlain es → IsAgreed ns es d }
    ensures lines { (ns : List NodeId) (rs : List Ran) → lines_fit rs ≡ true → Agree ns rs }
{}

/// A circuit has one list of acts and one of batches after any lines, those on which its members
/// agree; and whatever `root`, `get`, `list`, `history`, `receipt`, `status`, `show` and `detail`
/// answer on one of the lines, at a node that is bound to the circuit's definition, is what prefixes
/// of these lists make it.
pub fn answers_show_prefixes()
    ensures { (ns : List NodeId) (rs : List Ran) → lines_fit rs ≡ true → ShowsPrefixes ns rs }
{}

/// What nodes that are bound to one definition report about a circuit, in whatever lines, is of one
/// list: roots of as many batches are one root, and of two histories one begins the other.
pub fn members_tell_one_list()
    ensures { (ns : List NodeId) (rs : List Ran) → lines_fit rs ≡ true → TellOneList ns rs }
{}

/// A run that begins with the cells that another has left, each node having stopped and started,
/// goes on from there: at each moment of each circuit's world it has the cells of the one run that
/// both are, in which the circuits agree. Of the messages that were sent before, none is asked for. What is shown of a circuit is
/// of prefixes of the lists that it has in that one run.
pub fn resumed_circuits_agree()
    ensures left { (o : Origin) (c : CircuitId) (es : List Occurrence) →
        AllHappenedAt o.nodes es → ((n : NodeId) → o.kept c n ≡ stopped_cell ((world_after o.nodes es).at n)) →
        HasLeft (es ++ restarts o.nodes) o c }
    ensures on { (o : Origin) (left : CircuitId → List Occurrence) (rs : List Ran) →
        lines_fit rs ≡ true → ((c : CircuitId) → AllPlain (left c)) → ((c : CircuitId) → HasLeft (left c) o c) →
        AgreeOn o left rs }
    ensures shown { (o : Origin) (left : CircuitId → List Occurrence) (rs : List Ran) →
        IsOrigin o → lines_fit rs ≡ true → ((c : CircuitId) → AllPlain (left c)) → ((c : CircuitId) → HasLeft (left c) o c) →
        ShowsOn o left rs }
{}
