//! What is told of a node by its disks.
ghost use Rattle.std.specs.Prelude.{◌≡◌, true, false, IfOk, IfSome};
ghost use Rattle.spl_edge.specs.Devices.{IsSettled, image_now, pair_view};
ghost use Rattle.spl_snapshot.specs.Counting.{IfBoth};
ghost use Rattle.spl_cell_rules.specs.Plans.{plan_of};
ghost use Rattle.spl_node.specs.Stands.{disk_records};
ghost use Rattle.spl_look.specs.{Questions.{IsAsked, only_asks}, Reading.OnlyReads, Telling.IsDiskAnswer};
ghost use Rattle.spl_look.specs.declared.question.Question.TheVariants as question;

use crate::peeking::peek_cell;
use crate::question::Question;
use spl_base::{CircuitId, NodeId};
use spl_cell::Cell;
use spl_edge::{Disk, Pair};
use spl_journal::JournalFault;
use spl_node::Keeper;
use spl_state::RunCache;
use spl_wire::{Answer, Event, Plan};
use std::alloc::{AllocError, Global};

// What an event is answered at a cell.
#[tactic(auto, using(crate::proofs::Told::asked_for))]
fn answer_of(alloc: Global, cell: &mut Cell, event: &Event) -> Result<Answer, AllocError>
    requires running { cell.old.halted ≡ false }
    requires asks { only_asks event.now ≡ true }
    ensures { IfOk result (λ a. a ≡ (plan_of cell.old.site cell.old.state event.now).answer) }
{
    // So that a root and a proof cost no more than their digests.
    cell.renew(&mut RunCache::new());
    let Plan { answer, .. } = cell.plan(alloc, event)?;
    Ok(answer)
}

// What an event is answered at the cell of a circuit.
fn tell_at<D: Disk>(
    alloc: Global,
    here: NodeId,
    circuit: CircuitId,
    event: &Event,
    disks: &mut Pair<D>,
) -> Result<Answer, JournalFault>
    requires first { IfSome (image_now (D.view disks.old.first)) IsSettled }
    requires second { IfSome (image_now (D.view disks.old.second)) IsSettled }
    requires asks { only_asks event.now ≡ true }
    ensures told { IfOk result (λ a. IfBoth (image_now (D.view disks.old.first)) (image_now (D.view disks.old.second))
        (λ i j. IsDiskAnswer (question.At here circuit event.now) i.bytes j.bytes a)) }
    ensures reads { OnlyReads disk_records (pair_view D.view disks.old) (pair_view D.view disks.new) result }
{
    let mut cell = match peek_cell(alloc, here, circuit, disks) {
        Ok(cell) => cell,
        Err(fault) => return Err(fault),
    };
    match answer_of(alloc, &mut cell, event) {
        Ok(answer) => Ok(answer),
        Err(_) => Err(JournalFault::NoMemory),
    }
}

// Which circuits are bound.
fn tell_roll<D: Disk>(
    alloc: Global,
    here: NodeId,
    disks: &mut Pair<D>,
) -> Result<Answer, JournalFault>
    requires first { IfSome (image_now (D.view disks.old.first)) IsSettled }
    requires second { IfSome (image_now (D.view disks.old.second)) IsSettled }
    ensures told { IfOk result (λ a. IfBoth (image_now (D.view disks.old.first)) (image_now (D.view disks.old.second))
        (λ i j. IsDiskAnswer (question.Roll here) i.bytes j.bytes a)) }
    ensures reads { OnlyReads disk_records (pair_view D.view disks.old) (pair_view D.view disks.new) result }
{
    let keeper = match Keeper::peek(alloc, here, disks) {
        Ok(keeper) => keeper,
        Err(fault) => return Err(fault),
    };
    let ids = keeper.roll(alloc)?;
    Ok(Answer::Roll(ids))
}

/// The answer to a question at the cells for which the node's disks stand, on which nothing is pending: that of the event there,
/// or the circuits that are bound. Two blank disks stand for no cells. `NotAJournal` comes exactly where the disks hold bytes and
/// are no journal, and `Disk` only where one of them failed. The disks hold what they held.
pub fn tell<D: Disk>(
    alloc: Global,
    question: &Question,
    disks: &mut Pair<D>,
) -> Result<Answer, JournalFault>
    requires first { IfSome (image_now (D.view disks.old.first)) IsSettled }
    requires second { IfSome (image_now (D.view disks.old.second)) IsSettled }
    requires asked { IsAsked question.now }
    ensures told { IfOk result (λ a. IfBoth (image_now (D.view disks.old.first)) (image_now (D.view disks.old.second))
        (λ i j. IsDiskAnswer question.now i.bytes j.bytes a)) }
    ensures reads { OnlyReads disk_records (pair_view D.view disks.old) (pair_view D.view disks.new) result }
{
    match question {
        Question::At {
            node,
            circuit,
            event,
        } => tell_at(alloc, *node, *circuit, event, disks),
        Question::Roll { node } => tell_roll(alloc, *node, disks),
    }
}
