//! How a node is stopped in an event.
ghost use Rattle.std.specs.{Prelude.{◌≡◌, false, IfSome, OnOk}, Option.option_copied};
ghost use Rattle.spl_edge.specs.Devices.{armed_with, image_now, pair_view};
ghost use Rattle.spl_snapshot.specs.{Counting.{chosen, IfBoth, counting_disk, other_disk}, Pairs.is_second};
ghost use Rattle.spl_cell_rules.specs.{Valid.IsFor, Cells.site_at};
ghost use Rattle.spl_node.specs.{Handled.StopsArmed, Stands.{PicksWith, NodeStandsOn, here_of, circuit_cell, is_node_halted}, Steps.changes_at};
ghost use Rattle.spl_node.specs.Stopping.{Arms, BothPickAtMostOnce, IsStopping, LeavesNoMore, counting_arming, event_changes, fill_of, other_arming};

use crate::Node;
use spl_base::CircuitId;
use spl_edge::{Fill, Pair, StopDisk};
use spl_journal::JournalFault;
use spl_wire::Event;
use std::alloc::{AllocError, Global};

/// How a node is stopped in an event (docs/RULES.md, Stops in an event).
#[derive(Clone, Copy, PartialEq, Eq)]
pub enum Stopping {
    /// So many calls of its disks pass, and none after them. The disks keep this of what wasn't
    /// synced.
    Cut { calls: u8, fill: Fill },
    /// The call of this number, from 1 on, fails. The disks keep nothing that wasn't synced.
    Fail { call: u8 },
}

impl Stopping {
    /// What the disks keep of what wasn't synced.
    pub(crate) fn fill(self) -> Fill
        ensures { result ≡ fill_of self }
    {
        match self {
            Stopping::Cut { fill, .. } => fill,
            Stopping::Fail { .. } => Fill::Old,
        }
    }
}

/// Arms the disk that counts, which has the first four calls of an event.
fn arm_counting<D: StopDisk>(disk: &mut D, stopping: Stopping)
    ensures { Arms (counting_arming stopping) (D.view disk.old) (D.view disk.new) }
{
    match stopping {
        Stopping::Cut { calls, .. } => disk.stop_after(u32::from(calls)),
        Stopping::Fail { call } => {
            if call <= 4 {
                disk.fail_at(u32::from(call));
            } else {
                disk.stop_after(4);
            }
        }
    }
}

/// Arms the other disk, which has the calls after them.
fn arm_other<D: StopDisk>(disk: &mut D, stopping: Stopping)
    ensures { Arms (other_arming stopping) (D.view disk.old) (D.view disk.new) }
{
    match stopping {
        Stopping::Cut { calls, .. } => disk.stop_after(u32::from(calls.saturating_sub(4))),
        Stopping::Fail { call } => {
            if call <= 4 {
                disk.stop_after(4);
            } else {
                disk.fail_at(u32::from(call - 4));
            }
        }
    }
}

/// Arms both disks, of which the second counts where this is true.
pub(crate) fn arm<D: StopDisk>(disks: &mut Pair<D>, second: bool, stopping: Stopping)
    ensures first { Arms (chosen second (counting_arming stopping) (other_arming stopping)) (D.view disks.old.first) (D.view disks.new.first) }
    ensures second { Arms (chosen second (other_arming stopping) (counting_arming stopping)) (D.view disks.old.second) (D.view disks.new.second) }
{
    if second {
        arm_other(&mut disks.first, stopping);
        arm_counting(&mut disks.second, stopping);
    } else {
        arm_counting(&mut disks.first, stopping);
        arm_other(&mut disks.second, stopping);
    }
}

/// Lets both disks pick. The only error is that memory ran out.
pub(crate) fn pick_both<D: StopDisk>(
    alloc: Global,
    disks: &mut Pair<D>,
    fill: Fill,
) -> Result<(), AllocError>
    ensures first { OnOk result (PicksWith fill (D.view disks.old.first) (D.view disks.new.first)) }
    ensures second { OnOk result (PicksWith fill (D.view disks.old.second) (D.view disks.new.second)) }
    // Whatever the result, a stop leaves nothing of a disk that it couldn't leave before.
    ensures first_left { IfBoth (image_now (D.view disks.old.first)) (image_now (D.view disks.new.first)) LeavesNoMore }
    ensures second_left { IfBoth (image_now (D.view disks.old.second)) (image_now (D.view disks.new.second)) LeavesNoMore }
    ensures once { BothPickAtMostOnce (pair_view D.view disks.old) (pair_view D.view disks.new) }
    ensures first_faults { (D.view disks.new.first).faults ≡ (D.view disks.old.first).faults }
    ensures second_faults { (D.view disks.new.second).faults ≡ (D.view disks.old.second).faults }
{
    disks.first.pick(alloc, fill)?;
    disks.second.pick(alloc, fill)
}

/// An event at a node whose disk that counts is armed so. It says whether the event has changes; an
/// error comes only when memory runs out.
fn step_armed<D: StopDisk>(
    node: &mut Node,
    alloc: Global,
    disks: &mut Pair<D>,
    circuit: &CircuitId,
    event: &Event,
    stopping: Stopping,
) -> Result<bool, AllocError>
    requires running { is_node_halted node.old ≡ false }
    requires own { IsFor (site_at (here_of node.old) circuit.now) event.now }
    requires calls { IsStopping stopping }
    requires stands { NodeStandsOn node.old (pair_view D.view disks.old) }
    requires armed { (D.view (counting_disk (is_second node.old.pairing) disks.old)).armed ≡ armed_with (counting_arming stopping)
        (D.view (counting_disk (is_second node.old.pairing) disks.old)).moment }
    requires other { (D.view (other_disk (is_second node.old.pairing) disks.old)).armed ≡ armed_with (other_arming stopping)
        (D.view (other_disk (is_second node.old.pairing) disks.old)).moment }
    ensures { StopsArmed D.view circuit.now (changes_at node.old circuit.now event.now) stopping result node.old disks.old disks.new }
{
    match node.step(alloc, disks, circuit, event) {
        Ok(outcome) => Ok(outcome.changed),
        Err(JournalFault::Disk) => Ok(true),
        Err(_) => Err(AllocError),
    }
}

/// The same where there may be no event.
pub(crate) fn handle_armed<D: StopDisk>(
    node: &mut Node,
    alloc: Global,
    disks: &mut Pair<D>,
    circuit: &CircuitId,
    event: Option<&Event>,
    stopping: Stopping,
) -> Result<bool, AllocError>
    requires running { is_node_halted node.old ≡ false }
    requires own { IfSome (option_copied event) (IsFor (site_at (here_of node.old) circuit.now)) }
    requires calls { IsStopping stopping }
    requires stands { NodeStandsOn node.old (pair_view D.view disks.old) }
    requires armed { (D.view (counting_disk (is_second node.old.pairing) disks.old)).armed ≡ armed_with (counting_arming stopping)
        (D.view (counting_disk (is_second node.old.pairing) disks.old)).moment }
    requires other { (D.view (other_disk (is_second node.old.pairing) disks.old)).armed ≡ armed_with (other_arming stopping)
        (D.view (other_disk (is_second node.old.pairing) disks.old)).moment }
    ensures { StopsArmed D.view circuit.now (event_changes (here_of node.old) (circuit_cell node.old) circuit.now (option_copied event.entry))
        stopping result node.old disks.old disks.new }
{
    match event {
        None => Ok(false),
        Some(event) => step_armed(node, alloc, disks, circuit, event, stopping),
    }
}
