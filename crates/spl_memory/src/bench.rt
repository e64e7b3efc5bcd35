//! Disks in memory for a run.
ghost use Rattle.std.specs.Prelude.{◌≡◌, ◌<◌, ◌++◌, ◌∷◌, ℕ, [], length, IfOk, OnOk};
ghost use Rattle.spl_edge.specs.Devices.{bench};
ghost use Rattle.spl_memory.specs.{MemDisks.{IsFreshDisk, failing_of, disk_view}, Benches.{FirstFails, NoneFails}};
ghost use Rattle.spl_node.specs.Benches.{AreBlank, images_at, images, AllUnpicked};

use crate::MemDisk;
use spl_edge::{Bench, Pair};
use std::alloc::{AllocError, Global};

// Two blank disks, of which the first fails at the calls of these numbers.
fn blank_pair(alloc: Global, failing: Vec<u64>) -> Pair<MemDisk>
    ensures first { IsFreshDisk result.first }
    ensures second { IsFreshDisk result.second }
    ensures first_calls { failing_of result.first ≡ failing.items }
    ensures second_calls { failing_of result.second ≡ [] }
{
    Pair {
        first: MemDisk::new(alloc, failing),
        second: MemDisk::new(alloc, Vec::new(alloc)),
    }
}

// One pair more.
fn join(pairs: &mut Vec<Pair<MemDisk>>, pair: Pair<MemDisk>) -> Result<(), AllocError>
    ensures { OnOk result (pairs.new.items ≡ pairs.old.items ++ pair ∷ []) }
{
    pairs.push(pair)?;
    Ok(())
}

/// Sixteen pairs of blank disks in memory, none of which fails by itself.
pub fn blank_bench(alloc: Global) -> Result<Bench<MemDisk>, AllocError>
    ensures pairs { IfOk result (λ b. length b.pairs.items ≡ 16) }
    ensures blank { IfOk result (λ b. (i : ℕ) → i < 16 → AreBlank (images_at (images disk_view b.pairs.items) i)) }
    ensures unpicked { IfOk result (λ b. AllUnpicked (bench disk_view b.pairs.items)) }
    ensures sound { IfOk result (λ b. NoneFails b.pairs.items) }
{
    failing_bench(alloc, Vec::new(alloc))
}

/// Sixteen pairs of blank disks in memory, of which the first disk of all fails at the calls of these numbers, counted
/// from 1.
pub fn failing_bench(alloc: Global, failing: Vec<u64>) -> Result<Bench<MemDisk>, AllocError>
    ensures pairs { IfOk result (λ b. length b.pairs.items ≡ 16) }
    ensures blank { IfOk result (λ b. (i : ℕ) → i < 16 → AreBlank (images_at (images disk_view b.pairs.items) i)) }
    ensures unpicked { IfOk result (λ b. AllUnpicked (bench disk_view b.pairs.items)) }
    ensures calls { IfOk result (λ b. FirstFails failing.items b.pairs.items) }
{
    let mut pairs = Vec::new(alloc);
    join(&mut pairs, blank_pair(alloc, failing))?;
    'pairs: while pairs.len() < 16 {
        join(&mut pairs, blank_pair(alloc, Vec::new(alloc)))?;
    }
    Ok(Bench { pairs })
}
