//! An event at one cell.
ghost use Rattle.std.specs.{Prelude.{◌≡◌, true, Some, IsTrue, IfOk, IfSome, OnOk}, List.list_all};
ghost use Rattle.spl_journal.specs.Records.{IsGood};
ghost use Rattle.spl_wire.specs.{Bounds.IsWritable, Changes.change_form, Grouping.record_of};
ghost use Rattle.spl_cell_rules.specs.{Cells.{Empty, Site}, Changes.{applied, after_plan}, Plans.plan_of, Valid.{IsFor, are_formed}};
ghost use Rattle.spl_cell.specs.States.{IsStill};
ghost use Rattle.spl_node.specs.{Done.{IsGiven, no_circuit, record_of_changes}, Kept.IsCellSound, Records.{is_record, record_in}};

use spl_base::{CircuitId, Piece};
use spl_cell::Cell;
use spl_wire::{Answer, ChangeList, Event, Plan, Record, Refusal, SendList};
use std::alloc::{AllocError, Global};

/// What an event gave at a cell: an answer, the bytes of the record of its changes, where there are
/// any, and messages.
#[derive(Drop)]
pub struct Done {
    pub answer: Answer,
    pub bytes: Option<Piece>,
    pub sends: SendList,
}

/// What an event gives that is refused with `NoCircuit`.
pub(crate) fn no_circuit(alloc: Global) -> Done
    ensures { (site : Site) → IsGiven site Empty no_circuit result }
{
    Done {
        answer: Answer::Refused(Refusal::NoCircuit),
        bytes: None,
        sends: SendList::new(alloc),
    }
}

/// The bytes of the record of changes, where there are any. The only error is that memory ran out.
fn recorded(
    alloc: Global,
    circuit: CircuitId,
    changes: ChangeList,
) -> Result<Option<Piece>, AllocError>
    requires { IsWritable circuit changes }
    ensures bytes { IfOk result (λ bytes. bytes ≡ record_of_changes circuit changes) }
    ensures good { IfOk result (λ bytes. IfSome bytes (IsGood is_record)) }
    ensures read { IfOk result (λ bytes. IfSome bytes (λ b. record_in b ≡ Some (record_of circuit changes))) }
    ensures written { OnOk result (IsTrue (list_all change_form.fits changes)) }
{
    if changes.len() == 0 {
        return Ok(None);
    }
    let record = Record { circuit, changes };
    Ok(Some(record.write(alloc)?))
}

/// Carries out the plan of an event at a cell. After an error the cell may be halted.
#[inline(always)]
fn carried_out(cell: &mut Cell, alloc: Global, event: &Event) -> Result<Done, AllocError>
    requires sound { IsCellSound cell.old }
    requires own { IsFor cell.old.site event.now }
    ensures fixed { cell.new.site ≡ cell.old.site }
    ensures state { OnOk result (cell.new.state ≡ after_plan cell.old.site.here cell.old.state (plan_of cell.old.site cell.old.state event.now)) }
    ensures sound { OnOk result (IsCellSound cell.new) }
    ensures given { IfOk result (λ done. IsGiven cell.old.site cell.old.state (plan_of cell.old.site cell.old.state event.now) done) }
{
    let plan = cell.plan(alloc, event)?;
    cell.apply(alloc, &plan)?;
    let Plan {
        answer,
        changes,
        admin: _,
        service: _,
        sends,
    } = plan;
    let bytes = recorded(alloc, cell.circuit(), changes)?;
    Ok(Done {
        answer,
        bytes,
        sends,
    })
}

/// The same, but after an error the cell is empty.
#[inline(always)]
pub(crate) fn handled(cell: &mut Cell, alloc: Global, event: &Event) -> Result<Done, AllocError>
    requires sound { IsCellSound cell.old }
    requires own { IsFor cell.old.site event.now }
    ensures fixed { cell.new.site ≡ cell.old.site }
    ensures state { OnOk result (cell.new.state ≡ after_plan cell.old.site.here cell.old.state (plan_of cell.old.site cell.old.state event.now)) }
    ensures sound { IsCellSound cell.new }
    ensures given { IfOk result (λ done. IsGiven cell.old.site cell.old.state (plan_of cell.old.site cell.old.state event.now) done) }
{
    match carried_out(cell, alloc, event) {
        Ok(done) => Ok(done),
        Err(AllocError) => {
            *cell = Cell::empty(cell.here(), cell.circuit());
            Err(AllocError)
        }
    }
}

/// Makes changes that were read. After an error the cell is empty.
pub(crate) fn replayed(
    cell: &mut Cell,
    alloc: Global,
    changes: &ChangeList,
) -> Result<(), AllocError>
    requires sound { IsCellSound cell.old }
    requires still { IsStill cell.old.state }
    requires written { IsTrue (list_all change_form.fits changes.now) }
    requires formed { are_formed changes.now ≡ true }
    ensures fixed { cell.new.site ≡ cell.old.site }
    ensures state { OnOk result (cell.new.state ≡ applied cell.old.site cell.old.state changes.now) }
    ensures still { IsStill cell.new.state }
    ensures sound { IsCellSound cell.new }
{
    match cell.replay(alloc, changes) {
        Ok(()) => Ok(()),
        Err(AllocError) => {
            *cell = Cell::empty(cell.here(), cell.circuit());
            Err(AllocError)
        }
    }
}
