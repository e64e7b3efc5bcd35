//! The rules of a cell, as definitions, and what follows from them.
#![tactic(auto)]

ghost use Rattle.std.specs.{Prelude.{◌≡◌, IsTrue, List, [], true}, List.list_all};
ghost use Rattle.spl_circuit.specs.Forms.{circuit_id};
ghost use Rattle.spl_wire.specs.{Changes.change_form, Forms.record_form, Bounds.{IsWritable, IsSendable, AllSendable, is_formed}, Grouping.grouped};
ghost use Rattle.spl_wire.specs.{Grouping.is_sized, declared.{answer.{Answer.Answer as Told, Refusal.Refusal}, change.Change.Change, event.Event.Event}};
ghost use Rattle.spl_wire.specs.declared.message.Message.{Message};
ghost use Rattle.spl_wire.specs.declared.record.Record.{Record};
ghost use Rattle.spl_wire.specs.declared.answer.Answer.TheVariants as answer;
ghost use Rattle.spl_cell_rules.specs.{Cells.{Cell, Empty, Site, Refuses, Tells}, Events.does, Plans.plan_of, Changes.{changes_made, applied, applied_one}};
ghost use Rattle.spl_cell_rules.specs.{Changes.{moved_cell, stopped_cell, after_plan}, Pack.packed, Valid.{IsKept, IsValid, IsNamed, FitsMoveAt, IsFor}};
ghost use Rattle.spl_cell_rules.specs.Valid.{is_legal, are_legal, are_formed};
ghost use Rattle.spl_agree.specs.declared.event.OpenMove.{OpenMove};

/// An event that is refused changes nothing and sends nothing; one that only reports something does
/// neither.
pub fn refusals_change_nothing()
    ensures refused { (site : Site) (k : Cell) (e : Event) (r : Refusal) →
        does site k e ≡ Refuses r →
        ((plan_of site k e).answer ≡ answer.Refused r) × (after_plan site.here k (plan_of site k e) ≡ k) × ((plan_of site k e).sends ≡ []) }
    ensures told { (site : Site) (k : Cell) (e : Event) (a : Told) →
        does site k e ≡ Tells a →
        (after_plan site.here k (plan_of site k e) ≡ k) × ((plan_of site k e).sends ≡ []) }
{}

/// What a cell keeps: it is valid at first; a change whose definition or act has a byte form keeps
/// what a cell keeps, whether it fits or not, and moves that fit leave the cell valid; a stop leaves
/// it valid.
pub fn cells_stay_valid()
    ensures empty { (site : Site) → IsValid site Empty }
    ensures change { (site : Site) (k : Cell) (x : Change) → is_formed x ≡ true → IsKept site k → IsKept site (applied_one site k x) }
    ensures moves { (site : Site) (k : Cell) (x y : OpenMove) → IsKept site k → FitsMoveAt site.here k x y → IsValid site (moved_cell site.here k x y) }
    ensures stop { (site : Site) (k : Cell) → IsKept site k → IsValid site (stopped_cell k) }
{}

/// The definitions and the acts of a record that has a byte form, as each does that is read, have
/// byte forms.
pub fn records_are_formed()
    ensures { (r : Record) → IsTrue (record_form.fits r) → are_formed r.changes ≡ true }
{}

/// At a valid cell each change of a plan fits after those before it, and the moves fit after
/// them; so the cell after a plan is valid. Each message of a plan is one that a cell may hear.
pub fn plans_fit_cells()
    ensures changes { (site : Site) (k : Cell) (e : Event) →
        IsNamed site → IsFor site e → IsValid site k →
        applied site k (plan_of site k e).changes ≡ changes_made site.here k (plan_of site k e).changes }
    ensures moves { (site : Site) (k : Cell) (e : Event) →
        IsNamed site → IsFor site e → IsValid site k →
        FitsMoveAt site.here (changes_made site.here k (plan_of site k e).changes) (plan_of site k e).admin (plan_of site k e).service }
    ensures valid { (site : Site) (k : Cell) (e : Event) →
        IsNamed site → IsFor site e → IsValid site k →
        IsValid site (after_plan site.here k (plan_of site k e)) }
    ensures legal { (site : Site) (k : Cell) (e : Event) → IsNamed site → IsFor site e → IsValid site k → are_legal (plan_of site k e).sends ≡ true }
{}

/// At a valid cell the changes of a plan make a record that can be written, of at most 64 changes
/// and of 1 to 65,536 bytes. Each message of a plan can be written, and has at most 65,536 bytes;
/// so has every message that a cell may hear.
pub fn plans_have_bounds()
    ensures writable { (site : Site) (k : Cell) (e : Event) →
        IsNamed site → IsFor site e → IsValid site k →
        IsWritable site.circuit (plan_of site k e).changes }
    ensures formed { (site : Site) (k : Cell) (e : Event) → IsNamed site → IsFor site e → IsValid site k → are_formed (plan_of site k e).changes ≡ true }
    ensures sends { (site : Site) (k : Cell) (e : Event) → IsNamed site → IsFor site e → IsValid site k → AllSendable (plan_of site k e).sends }
    ensures message { (m : Message) → is_legal m ≡ true → IsSendable m }
{}

/// The changes of the packed form of a valid cell can be written.
pub fn packed_cells_have_a_form()
    ensures { (site : Site) (k : Cell) → IsKept site k → IsTrue (list_all change_form.bounded (packed k)) }
{}

/// The packed form of a cell makes that cell of an empty one, for every cell that changes have made
/// of an empty one, whoever wrote them. Open rounds aren't packed.
pub fn packed_cells_are_made_again()
    ensures again { (site : Site) (xs : List Change) → applied site Empty (packed (applied site Empty xs)) ≡ applied site Empty xs }
    ensures stopped { (k : Cell) → packed (stopped_cell k) ≡ packed k }
{}

/// Where the changes have byte forms, so have those of the packed form of the cell that they make,
/// and each of its records has at most 64 changes and 65,536 bytes.
pub fn packed_records_are_bounded()
    ensures written { (site : Site) (xs : List Change) →
        IsTrue (list_all change_form.fits xs) →
        IsTrue (list_all change_form.fits (packed (applied site Empty xs))) }
    ensures sized { (site : Site) (xs : List Change) →
        IsTrue (circuit_id.fits site.circuit) → IsTrue (list_all change_form.fits xs) →
        list_all (is_sized site.circuit) (grouped site.circuit (packed (applied site Empty xs))) ≡ true }
{}
