//! A run of Paxos Commit: its processes over their disks and the messages between them, its lines one by one, and the command.
#![tactic(auto)]

mod command;
mod decide;
mod fault;
mod hearing;
mod laws;
mod making;
mod place;
mod posts;
mod process;
mod run;
mod seat;
mod step;
mod whole;
mod world;

pub use command::paxos;
pub use decide::rounds_decide;
pub use fault::PaxosFault;
pub use laws::messages_move_one_process;
pub use place::process_count;
pub use posts::Posts;
pub use process::Process;
pub use run::PaxosEnd;
pub use seat::Seat;
pub use step::SeatStep;
pub use whole::run_paxos;
pub use world::PaxosWorld;
