//! The nodes of a run, as it begins.
ghost use Rattle.std.specs.Prelude.{◌≡◌, ◌<◌, ◌≤◌, ℕ, [], length, slice_get, false, IfOk, IfErr, OnOk, IsErrOf};
ghost use Rattle.spl_edge.specs.Devices.{bench};
ghost use Rattle.spl_circuit.specs.Nodes.{sorted};
ghost use Rattle.spl_registry.specs.Nodes.{entry_ids as registered};
ghost use Rattle.spl_circuit_world.specs.Worlds.{blank};
ghost use Rattle.spl_runs.specs.Run.{origin_in};
ghost use Rattle.spl_node.specs.Benches.{AllGoOn, AllTell, AreBlank, RoseAt, images_at, AreSettled, images, AllUnpicked};
ghost use Rattle.spl_world.specs.{Picks.AllHeld, Links.is_of_links, Held.{AllReadable, AreOpenedBut, IsFirstUnread}, Views.{ArePlaced, IsPlace, Sits}};
ghost use Rattle.spl_world.specs.Views.{StandsAfterLines, world_node_ids, is_world_halted, places_of, seen};

use crate::mode::Beginning;
use spl_edge::{Disk, Pair};
use spl_registry::Registry;
use spl_world::{World, WorldFault};
use std::alloc::Global;

/// The nodes of a registry, over blank disks, or, where the run goes on from what they hold, over disks on which nothing is pending.
pub(crate) fn begin<D: Disk>(
    alloc: Global,
    registry: &Registry,
    pairs: &mut Vec<Pair<D>>,
    beginning: Beginning,
) -> Result<World, WorldFault>
    requires room { length registry.now ≤ length pairs.old.items }
    requires blank { beginning ≡ Beginning.Blank → (i : ℕ) → i < length registry.now → AreBlank (images_at (images D.view pairs.old.items) i) }
    requires settled { beginning ≡ Beginning.Resumed → (i : ℕ) → i < length registry.now → AreSettled (images_at (images D.view pairs.old.items) i) }
    ensures ids { IfOk result (λ w. world_node_ids w ≡ sorted (registered registry.now)) }
    ensures few { (which : ℕ) → IsErrOf result (WorldFault.TooMany which) → ⊥ }
    ensures unlinked { IfErr result (λ e. is_of_links e ≡ false) }
    ensures place { (slot : ℕ) → IsErrOf result (WorldFault.Disk slot) → slot < length registry.now }
    ensures journal { (slot at : ℕ) → IsErrOf result (WorldFault.NotAJournal slot at) → (beginning ≡ Beginning.Resumed) × (slot < length registry.now) }
    ensures unread { AllTell (length registry.now) (images D.view pairs.old.items) → (slot at : ℕ) → IsErrOf result (WorldFault.NotAJournal slot at)
        → IsFirstUnread slot at registry.now (images D.view pairs.old.items) }
    ensures placed { IfOk result (ArePlaced registry.now) }
    ensures below { IfOk result (λ w. (k : ℕ) → IsPlace (places_of w) k → k < length registry.now) }
    ensures running { IfOk result (λ w. is_world_halted w ≡ false) }
    ensures sits { IfOk result (λ w. Sits (seen D.view w pairs.new.items)) }
    ensures readable { AllTell (length registry.now) (images D.view pairs.old.items) → OnOk result (AllReadable registry.now (images D.view pairs.old.items)) }
    ensures stands { AllTell (length registry.now) (images D.view pairs.old.items)
        → IfOk result (λ w. StandsAfterLines (origin_in beginning registry.now (images D.view pairs.old.items)) 0 [] w (images D.view pairs.new.items)) }
    ensures held { beginning ≡ Beginning.Blank → AllUnpicked (bench D.view pairs.old.items) → AllTell (length registry.now) (images D.view pairs.old.items)
        → IfOk result (λ w. AllHeld (blank (sorted (registered registry.now))) (bench D.view pairs.old.items) [] w (bench D.view pairs.new.items)) }
    ensures disk { (slot : ℕ) → IsErrOf result (WorldFault.Disk slot) → RoseAt slot (bench D.view pairs.old.items) (bench D.view pairs.new.items) }
    ensures onward { AllGoOn (bench D.view pairs.old.items) (bench D.view pairs.new.items) }
    ensures spare { (k : ℕ) → length registry.now ≤ k
        → slice_get (bench D.view pairs.new.items) k ≡ slice_get (bench D.view pairs.old.items) k }
    ensures unmade { IfErr result (λ e. AreOpenedBut registry.now e (images D.view pairs.old.items) (images D.view pairs.new.items)) }
{
    match beginning {
        Beginning::Resumed => World::open(alloc, registry, pairs),
        Beginning::Blank => World::new(alloc, registry, pairs),
    }
}
