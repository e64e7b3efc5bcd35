//! What the processes of Paxos Commit say to one another and keep, and the rules of its rounds.
#![tactic(auto)]

mod answer;
mod form;
mod group;
mod held;
mod keeps;
mod kind;
mod log;
mod log_form;
mod message;
mod message_form;
mod note;
mod plan;
mod process;
mod record;
mod rounds;
mod sending;

pub use answer::{PaxosAnswer, PaxosRefusal};
pub use group::Group;
pub use held::{Held, pair_among};
pub use keeps::Keeps;
pub use kind::{ACCEPTOR, LEADER, MEMBER};
pub use log::PaxosLog;
pub use log_form::{FoundRecord, PaxosForm};
pub use message::{Acceptance, Name, PaxosMsg, PaxosSends, Pledge, PledgeList};
pub use note::{PaxosNote, Stepped};
pub use plan::{AcceptorPlan, is_leader_of, leader_of};
pub use process::{PaxosAcceptor, PaxosProcess};
pub use record::{PaxosRecord, is_own};
pub use rounds::{AcceptorRounds, round_kept, round_of};
pub use sending::push_each;
