//! Disks and streams between nodes in memory.
#![tactic(auto)]

mod bench;
mod calls;
mod history;
mod lane;
mod lies;
mod lying_disk;
mod marks;
mod mem_disk;
mod mem_fabric;
mod memory;
mod patch;

pub use bench::{blank_bench, failing_bench};
pub use lies::Lie;
pub use lying_disk::LyingDisk;
pub use mem_disk::MemDisk;
pub use mem_fabric::{LyingFabric, MemFabric, memory_is_honest};
pub use memory::{blank_fabric, blank_shelf};
