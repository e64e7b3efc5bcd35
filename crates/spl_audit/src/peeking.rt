//! The nodes of a registry, read from their disks.
ghost use Rattle.std.specs.Prelude.{◌≡◌, ◌<◌, ◌≤◌, ◌++◌, ◌∷◌, [], ℕ, length, slice_get, Some, IfErr, IfOk, IfSome, OnOk, IsErrOf};
ghost use Rattle.spl_edge.specs.Devices.{IsSettled, PairView, bench, image_now};
ghost use Rattle.spl_audit.specs.Runs.{AllStand, AllStay, EndsPeeking, HaveNone, HoldAt, RoseHere, StandsAt};

use crate::verdict::AuditRunFault;
use spl_edge::{Disk, Pair};
use spl_journal::JournalFault;
use spl_node::Keeper;
use spl_registry::Registry;
use std::alloc::{AllocError, Global};

/// The node at a position, read from its disks. They hold what they held, and no others are asked.
fn peek_at<D: Disk>(
    alloc: Global,
    registry: &Registry,
    pairs: &mut Vec<Pair<D>>,
    slot: u8,
) -> Result<Keeper, JournalFault>
    requires known { slot < length registry.now }
    requires room { slot < length pairs.old.items }
    requires settled { (p : PairView) → slice_get (bench D.view pairs.old.items) slot ≡ Some p
        → IfSome (image_now p.first) IsSettled × IfSome (image_now p.second) IsSettled }
    ensures stands { IfOk result (λ k. StandsAt registry.now (bench D.view pairs.old.items) slot k) }
    ensures not { (at : ℕ) → IsErrOf result (JournalFault.NotAJournal at) → HoldAt (bench D.view pairs.old.items) slot (HaveNone at) }
    ensures failed { IsErrOf result JournalFault.Disk → RoseHere registry.now slot (bench D.view pairs.old.items) (bench D.view pairs.new.items) }
    ensures stays { AllStay (bench D.view pairs.old.items) (bench D.view pairs.new.items) }
    ensures others { (k : ℕ) → (k ≡ slot → ⊥) → slice_get (bench D.view pairs.new.items) k ≡ slice_get (bench D.view pairs.old.items) k }
{
    match Keeper::peek(alloc, registry.node(slot), &mut pairs[usize::from(slot)]) {
        Ok(node) => {
            node.is_kept();
            Ok(node)
        }
        Err(fault) => Err(fault),
    }
}

/// One node more.
fn join(nodes: &mut Vec<Keeper>, node: Keeper) -> Result<(), AllocError>
    ensures { OnOk result (nodes.new.items ≡ nodes.old.items ++ node ∷ []) }
{
    nodes.push(node)?;
    Ok(())
}

/// The nodes of a registry in its order, read from their disks, on which nothing is pending. A fault is
/// that of the first node that has one: `Disk` comes only where a disk of it failed, `NotAJournal` where its
/// disks are neither blank nor a journal, and `Write` never. The disks hold what they held, and no others
/// are asked.
pub(crate) fn peek_nodes<D: Disk>(
    alloc: Global,
    registry: &Registry,
    pairs: &mut Vec<Pair<D>>,
) -> Result<Vec<Keeper>, AuditRunFault>
    requires room { length registry.now ≤ length pairs.old.items }
    requires settled { (k : ℕ) (p : PairView) → k < length registry.now → slice_get (bench D.view pairs.old.items) k ≡ Some p
        → IfSome (image_now p.first) IsSettled × IfSome (image_now p.second) IsSettled }
    ensures stand { IfOk result (λ v. AllStand registry.now (bench D.view pairs.old.items) v.items) }
    ensures fault { IfErr result (λ e. EndsPeeking e registry.now (bench D.view pairs.old.items) (bench D.view pairs.new.items)) }
    ensures stays { AllStay (bench D.view pairs.old.items) (bench D.view pairs.new.items) }
    ensures spared { (k : ℕ) → length registry.now ≤ k → slice_get (bench D.view pairs.new.items) k ≡ slice_get (bench D.view pairs.old.items) k }
{
    let mut nodes = Vec::new(alloc);
    'slots: for slot in 0..registry.len() {
        match peek_at(alloc, registry, pairs, slot) {
            Ok(node) => {
                if join(&mut nodes, node).is_err() {
                    return Err(AuditRunFault::NoMemory);
                }
            }
            Err(JournalFault::Disk) => return Err(AuditRunFault::Disk { slot }),
            Err(JournalFault::NotAJournal { at }) => {
                return Err(AuditRunFault::NotAJournal { slot, at });
            }
            Err(JournalFault::NoMemory) => return Err(AuditRunFault::NoMemory),
        }
    }
    Ok(nodes)
}
