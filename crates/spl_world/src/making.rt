//! The nodes of a registry, where nothing happened yet.
ghost use Rattle.std.specs.{Prelude.{◌≡◌, ◌≢◌, ◌≤◌, ◌<◌, ◌++◌, ◌∷◌, ℕ, [], length, slice_get, true, false, IfErr, IfOk, OnOk, IsErrOf}, List.AllPairs};
ghost use Rattle.spl_edge.specs.Devices.{bench};
ghost use Rattle.spl_circuit.specs.{Nodes.sorted, Rules.ascends};
ghost use Rattle.spl_circuit_world.specs.Worlds.{blank};
ghost use Rattle.spl_registry.specs.Nodes.{entry_ids as registered};
ghost use Rattle.spl_node.specs.Benches.{AllTell, AreBlank, images_at, images, AllUnpicked};
ghost use Rattle.spl_world.specs.{Disks.{LeavesDisks, is_of_journal}, Picks.AllHeld, Links.is_of_links, Held.AreOpenedBut, Views.{ArePlaced, IsPlace, Sits}};
ghost use Rattle.spl_world.specs.Views.{StandsAfterLines, world_node_ids, is_world_halted, places_of, seen};

use crate::fault::WorldFault;
use crate::slot::Slot;
use crate::world::World;
use spl_base::NodeId;
use spl_edge::{Disk, Pair};
use spl_registry::Registry;
use std::alloc::{AllocError, Global};

/// The ids of the nodes of a registry, in order. It fails only when memory runs out.
pub fn sorted_ids(alloc: Global, registry: &Registry) -> Result<Vec<NodeId>, AllocError>
    ensures ids { IfOk result (λ v. v.items ≡ sorted (registered registry.now)) }
    ensures apart { OnOk result (AllPairs (λ a b. a ≢ b) (registered registry.now)) }
    ensures ordered { IfOk result (λ v. ascends v.items ≡ true) }
{
    let mut ids = registry.ids(alloc)?;
    ids.sort_unstable();
    Ok(ids)
}

// One node more.
pub(crate) fn join(slots: &mut Vec<Slot>, slot: Slot) -> Result<(), AllocError>
    ensures { OnOk result (slots.new.items ≡ slots.old.items ++ slot ∷ []) }
{
    slots.push(slot)?;
    Ok(())
}

impl World {
    /// The nodes of a registry, in the order of their ids, each of them up. The disks of a node are
    /// the pair at its position in the registry. Nothing happened yet, and those disks are blank.
    /// What the nodes stand for is reported where the disks say what they hold.
    pub fn new<D: Disk>(
        alloc: Global,
        registry: &Registry,
        pairs: &mut Vec<Pair<D>>,
    ) -> Result<World, WorldFault>
        requires room { length registry.now ≤ length pairs.old.items }
        requires blank { (i : ℕ) → i < length registry.now → AreBlank (images_at (images D.view pairs.old.items) i) }
        ensures ids { IfOk result (λ w. world_node_ids w ≡ sorted (registered registry.now)) }
        ensures few { (which : ℕ) → IsErrOf result (WorldFault.TooMany which) → ⊥ }
        ensures sound { IfErr result (λ e. is_of_journal e ≡ false) }
        ensures unlinked { IfErr result (λ e. is_of_links e ≡ false) }
        ensures place { (slot : ℕ) → IsErrOf result (WorldFault.Disk slot) → slot < length registry.now }
        ensures placed { IfOk result (ArePlaced registry.now) }
        ensures below { IfOk result (λ w. (k : ℕ) → IsPlace (places_of w) k → k < length registry.now) }
        ensures running { IfOk result (λ w. is_world_halted w ≡ false) }
        // Whatever the disks report, each node stands over its own.
        ensures sits { IfOk result (λ w. Sits (seen D.view w pairs.new.items)) }
        ensures stands { AllTell (length registry.now) (images D.view pairs.old.items) → IfOk result
            (λ w. StandsAfterLines (blank (sorted (registered registry.now))) 0 [] w (images D.view pairs.new.items)) }
        ensures held { AllTell (length registry.now) (images D.view pairs.old.items) → AllUnpicked (bench D.view pairs.old.items)
            → IfOk result (λ w. AllHeld (blank (sorted (registered registry.now))) (bench D.view pairs.old.items) [] w (bench D.view pairs.new.items)) }
        ensures disks { LeavesDisks result (bench D.view pairs.old.items) (bench D.view pairs.new.items) }
        // A pair that no node of the registry has stays as it was.
        ensures spare { (k : ℕ) → length registry.now ≤ k
            → slice_get (bench D.view pairs.new.items) k ≡ slice_get (bench D.view pairs.old.items) k }
        // Where it ends with an error one node may be half made, and each other is made or not begun.
        ensures unmade { IfErr result
            (λ e. AreOpenedBut registry.now e (images D.view pairs.old.items) (images D.view pairs.new.items)) }
    {
        World::begin(alloc, registry, pairs, true)
    }
}
