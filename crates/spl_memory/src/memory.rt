//! A shelf and a fabric in memory for a run.
ghost use Rattle.std.specs.Prelude.{◌≡◌, ◌<◌, ℕ, length, IfOk};
ghost use Rattle.spl_edge.specs.Devices.{bench};
ghost use Rattle.spl_memory.specs.{MemDisks.disk_view, Fabrics.fabric_view};
ghost use Rattle.spl_pump.specs.Wires.{AllBytesTaken};
ghost use Rattle.spl_node.specs.Benches.{AreSettled, images, images_at, AllUnpicked};

use crate::bench::blank_bench;
use crate::{MemDisk, MemFabric};
use spl_edge::Shelf;
use std::alloc::{AllocError, Global};

/// Sixteen pairs of blank disks in memory.
pub fn blank_shelf(alloc: Global) -> Result<Shelf<MemDisk>, AllocError>
    ensures pairs { IfOk result (λ b. length b.pairs.items ≡ 16) }
    ensures settled { IfOk result (λ b. (i : ℕ) → i < 16 → AreSettled (images_at (images disk_view b.pairs.items) i)) }
    ensures unpicked { IfOk result (λ b. AllUnpicked (bench disk_view b.pairs.items)) }
{
    let bench = blank_bench(alloc)?;
    Ok(Shelf { pairs: bench.pairs })
}

/// A fabric in memory on which nothing was put, and that fails at the calls of these numbers, counted from 1.
pub fn blank_fabric(alloc: Global, failing: Vec<u64>) -> MemFabric
    ensures { AllBytesTaken (fabric_view result).put (fabric_view result).taken }
{
    MemFabric::new(alloc, failing)
}
