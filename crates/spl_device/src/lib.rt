//! The devices of the system: files that are read, files as disks, standard output, and streams between nodes over TCP.
//! What they say of the outside is trusted.
#![tactic(auto)]

mod descriptors;
mod endpoints;
mod file_disk;
mod file_source;
mod folder;
mod link;
mod node_disks;
mod std_sink;
mod tcp_fabric;

pub use descriptors::hold_descriptors;
pub use endpoints::registry_of;
pub use file_disk::{Backing, FileDisk};
pub use file_source::FileSource;
pub use folder::{Access, Folder};
pub use node_disks::{NodeDisks, Start};
pub use std_sink::StdSink;
pub use tcp_fabric::TcpFabric;
