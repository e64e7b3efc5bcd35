//! The nodes of a registry, over disks that a former run left.
ghost use Rattle.std.specs.{Prelude.{◌≡◌, ◌≢◌, ◌≤◌, ◌<◌, ℕ, [], length, slice_get, true, false, IfErr, IfOk, OnOk, IsErrOf}, List.AllPairs};
ghost use Rattle.std.specs.List.Sorted.{IsPermutation};
ghost use Rattle.spl_circuit.specs.{Nodes.sorted, Rules.ascends};
ghost use Rattle.spl_edge.specs.Devices.{bench};
ghost use Rattle.spl_circuit_world.specs.Worlds.{Origin};
ghost use Rattle.spl_registry.specs.Nodes.{entry_ids as registered};
ghost use Rattle.spl_node.specs.Benches.{AllGoOn, AllTell, AreBlank, RoseAt, images_at, AreSettled, images, AllReadableTo};
ghost use Rattle.spl_world.specs.{Disks.{LeavesDisks, is_of_journal}, Links.is_of_links, Held.{AreOpenedBut, IsFirstUnread, origin_on}, Opening.HoldAll};
ghost use Rattle.spl_world.specs.{Opening.{HoldOrigin, IsOriginOf, OpensAt, OpensEach}, Views.{ArePlaced, IsPlace, Sits, StandsAfterLines, world_node_ids}};
ghost use Rattle.spl_world.specs.{Views.{is_world_halted, places_of, seen, slot_ids}, Calls.disks_view};

use crate::events::Events;
use crate::fault::WorldFault;
use crate::making::join;
use crate::slot::Slot;
use crate::stops::Stops;
use crate::world::World;
use spl_edge::{Disk, Pair};
use spl_registry::Registry;
use spl_state::RunCache;
use std::alloc::Global;

// The node at a position of a registry, over the pair there. Disks that are known to be blank aren't
// read.
fn open_at<D: Disk>(
    alloc: Global,
    registry: &Registry,
    pairs: &mut Vec<Pair<D>>,
    position: u8,
    blank: bool,
) -> Result<Slot, WorldFault>
    requires node { position < length registry.now }
    requires room { position < length pairs.old.items }
    requires blank { blank ≡ true → AreBlank (images_at (images D.view pairs.old.items) position) }
    requires settled { blank ≡ false → AreSettled (images_at (images D.view pairs.old.items) position) }
    ensures opens { OpensAt registry.now position result (disks_view D.view pairs.old.items) (disks_view D.view pairs.new.items) }
    ensures sound { blank ≡ true → IfErr result (λ e. is_of_journal e ≡ false) }
{
    let id = registry.node(position);
    let disks = &mut pairs[usize::from(position)];
    if blank {
        return Slot::new(alloc, id, position, disks);
    }
    Slot::open(alloc, id, position, disks)
}

// The nodes of a registry, in the order of their positions.
fn open_each<D: Disk>(
    alloc: Global,
    registry: &Registry,
    pairs: &mut Vec<Pair<D>>,
    blank: bool,
) -> Result<Vec<Slot>, WorldFault>
    requires room { length registry.now ≤ length pairs.old.items }
    requires blank { blank ≡ true → (i : ℕ) → i < length registry.now → AreBlank (images_at (images D.view pairs.old.items) i) }
    requires settled { blank ≡ false → (i : ℕ) → i < length registry.now → AreSettled (images_at (images D.view pairs.old.items) i) }
    ensures opens { OpensEach registry.now result (disks_view D.view pairs.old.items) (disks_view D.view pairs.new.items) }
    ensures sound { blank ≡ true → IfErr result (λ e. is_of_journal e ≡ false) }
{
    let mut slots = Vec::new(alloc);
    'positions: for position in 0..registry.len() {
        let slot = open_at(alloc, registry, pairs, position, blank)?;
        join(&mut slots, slot)?;
    }
    Ok(slots)
}

// Puts nodes in the order of their ids.
fn sort_by_id(slots: &mut Vec<Slot>)
    requires apart { AllPairs (λ a b. a ≢ b) (slot_ids slots.old.items) }
    ensures moved { IsPermutation slots.old.items slots.new.items }
    ensures ids { slot_ids slots.new.items ≡ sorted (slot_ids slots.old.items) }
    ensures ordered { ascends (slot_ids slots.new.items) ≡ true }
{
    slots.sort_unstable_by_key(|slot| *slot.id());
}

impl World {
    // The nodes of a registry, in the order of their ids, over disks that are known to be blank, or on
    // which nothing is pending.
    pub(crate) fn begin<D: Disk>(
        alloc: Global,
        registry: &Registry,
        pairs: &mut Vec<Pair<D>>,
        blank: bool,
    ) -> Result<World, WorldFault>
        requires room { length registry.now ≤ length pairs.old.items }
        requires blank { blank ≡ true → (i : ℕ) → i < length registry.now → AreBlank (images_at (images D.view pairs.old.items) i) }
        requires settled { blank ≡ false → (i : ℕ) → i < length registry.now → AreSettled (images_at (images D.view pairs.old.items) i) }
        ensures ids { IfOk result (λ w. world_node_ids w ≡ sorted (registered registry.now)) }
        ensures few { (which : ℕ) → IsErrOf result (WorldFault.TooMany which) → ⊥ }
        ensures sound { blank ≡ true → IfErr result (λ e. is_of_journal e ≡ false) }
        ensures unlinked { IfErr result (λ e. is_of_links e ≡ false) }
        ensures place { (slot : ℕ) → IsErrOf result (WorldFault.Disk slot) → slot < length registry.now }
        ensures placed { IfOk result (ArePlaced registry.now) }
        ensures below { IfOk result (λ w. (k : ℕ) → IsPlace (places_of w) k → k < length registry.now) }
        ensures running { IfOk result (λ w. is_world_halted w ≡ false) }
        ensures sits { IfOk result (λ w. Sits (seen D.view w pairs.new.items)) }
        ensures stands { (o : Origin) → IsOriginOf registry.now (images D.view pairs.old.items) o
            → AllTell (length registry.now) (images D.view pairs.old.items) → IfOk result (λ w. StandsAfterLines o 0 [] w (images D.view pairs.new.items)) }
        ensures held { (o : Origin) → IsOriginOf registry.now (images D.view pairs.old.items) o
            → AllTell (length registry.now) (images D.view pairs.old.items) → OnOk result (HoldAll o registry.now (images D.view pairs.new.items)) }
        ensures kept { OnOk result (AllReadableTo (length registry.now) (images D.view pairs.old.items)) }
        ensures journal { (slot at : ℕ) → IsErrOf result (WorldFault.NotAJournal slot at)
            → IsFirstUnread slot at registry.now (images D.view pairs.old.items) }
        ensures disks { LeavesDisks result (bench D.view pairs.old.items) (bench D.view pairs.new.items) }
        ensures spare { (k : ℕ) → length registry.now ≤ k
            → slice_get (bench D.view pairs.new.items) k ≡ slice_get (bench D.view pairs.old.items) k }
        ensures unopened { IfErr result
            (λ e. AreOpenedBut registry.now e (images D.view pairs.old.items) (images D.view pairs.new.items)) }
    {
        let mut slots = open_each(alloc, registry, pairs, blank)?;
        sort_by_id(&mut slots);
        Ok(World {
            slots,
            events: Events::new(),
            stops: Stops::new(),
            halted: false,
            runs: RunCache::new(),
        })
    }

    /// The nodes of a registry, in the order of their ids, each of them up, over disks that a former
    /// run left, on which nothing is pending. The disks of a node are the pair at its position in the
    /// registry, and they are opened in the order of the positions. A node with two blank disks is
    /// made; any other keeps what its disks make, and they go on standing for it: a journal of an
    /// older form is written again on the other disk. `NotAJournal` comes
    /// exactly at the first position whose disks hold bytes and are no journal, and `Disk` only where
    /// one of the disks at that position failed. What the nodes stand for is reported where the disks
    /// say what they hold.
    pub fn open<D: Disk>(
        alloc: Global,
        registry: &Registry,
        pairs: &mut Vec<Pair<D>>,
    ) -> Result<World, WorldFault>
        requires room { length registry.now ≤ length pairs.old.items }
        requires settled { (i : ℕ) → i < length registry.now → AreSettled (images_at (images D.view pairs.old.items) i) }
        ensures ids { IfOk result (λ w. world_node_ids w ≡ sorted (registered registry.now)) }
        ensures few { (which : ℕ) → IsErrOf result (WorldFault.TooMany which) → ⊥ }
        ensures unlinked { IfErr result (λ e. is_of_links e ≡ false) }
        ensures place { (slot : ℕ) → IsErrOf result (WorldFault.Disk slot) → slot < length registry.now }
        ensures placed { IfOk result (ArePlaced registry.now) }
        ensures below { IfOk result (λ w. (k : ℕ) → IsPlace (places_of w) k → k < length registry.now) }
        ensures running { IfOk result (λ w. is_world_halted w ≡ false) }
        // Whatever the disks report, each node stands over its own.
        ensures sits { IfOk result (λ w. Sits (seen D.view w pairs.new.items)) }
        ensures stands { AllTell (length registry.now) (images D.view pairs.old.items) → IfOk result (λ w. StandsAfterLines
            (origin_on registry.now (images D.view pairs.old.items)) 0 [] w (images D.view pairs.new.items)) }
        ensures held { AllTell (length registry.now) (images D.view pairs.old.items)
            → OnOk result (HoldOrigin registry.now (images D.view pairs.old.items) (images D.view pairs.new.items)) }
        // Where it succeeds all disks could be read, and `NotAJournal` names the first that can't.
        ensures kept { AllTell (length registry.now) (images D.view pairs.old.items)
            → OnOk result (AllReadableTo (length registry.now) (images D.view pairs.old.items)) }
        ensures journal { AllTell (length registry.now) (images D.view pairs.old.items) → (slot at : ℕ)
            → IsErrOf result (WorldFault.NotAJournal slot at)
            → (slot < length registry.now) × IsFirstUnread slot at registry.now (images D.view pairs.old.items) }
        ensures bound { (slot at : ℕ) → IsErrOf result (WorldFault.NotAJournal slot at) → slot < length registry.now }
        ensures disk { (slot : ℕ) → IsErrOf result (WorldFault.Disk slot)
            → RoseAt slot (bench D.view pairs.old.items) (bench D.view pairs.new.items) }
        ensures onward { AllGoOn (bench D.view pairs.old.items) (bench D.view pairs.new.items) }
        // A pair that no node of the registry has stays as it was.
        ensures spare { (k : ℕ) → length registry.now ≤ k
            → slice_get (bench D.view pairs.new.items) k ≡ slice_get (bench D.view pairs.old.items) k }
        // Where it ends with an error one node is left out, and each other is opened or not begun.
        ensures unopened { IfErr result
            (λ e. AreOpenedBut registry.now e (images D.view pairs.old.items) (images D.view pairs.new.items)) }
    {
        World::begin(alloc, registry, pairs, false)
    }
}
