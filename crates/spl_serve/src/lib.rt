//! One node over its own disks: what it does at a line of its operator or of a watcher, at a message of a peer, and by itself.
#![tactic(auto)]

mod fault;
mod finish;
mod hearing;
mod laws;
mod line;
mod outside;
mod process;
mod server;
mod tally;
mod ticks;
mod turn;
mod waits;
mod watching;

pub use fault::ServeFault;
pub use finish::Finish;
pub use laws::{
    turns_are_doings, watchers_of_processes_take_one_list, watchers_take_one_list,
    what_comes_may_be_done,
};
pub use line::{Asked, Unasked, read_asked};
pub use outside::{Arrival, Departure, PortFault, Ports};
pub use process::serve;
pub use server::Server;
pub use tally::Tally;
pub use ticks::Ticks;
pub use turn::ServerTurn;
