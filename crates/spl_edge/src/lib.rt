//! The traits of the outside, by which a run reads and writes, and objects in memory that meet them.
#![tactic(auto)]

mod bench;
mod disk;
mod fabric;
mod fault;
mod fill;
mod memory;
mod sink;
mod source;

pub use bench::{Bench, Pair, Shelf};
pub use disk::{Armed, Arming, Disk, StopDisk};
pub use fabric::{Fabric, PIECE};
pub use fault::{DeviceError, count_fault};
pub use fill::Fill;
pub use memory::{MemSink, MemSource};
pub use sink::{Sink, write_all};
pub use source::{MOST_BYTES, ReadEnd, Reading, Source, read_all};
