//! The members and leaders of Paxos Commit over their disks.
#![tactic(auto)]

mod counted;
mod heard;
mod kept;
mod laws;
mod leader;
mod leader_rounds;
mod leader_row;
mod line;
mod member;
mod member_rounds;
mod member_row;
mod plan;
mod read;
mod text;

pub use heard::{HeardPromise, OpenBallot};
pub use kept::Kept;
pub use laws::{lines_are_read_back, silent_lines_are_no_lines};
pub use leader::{PaxosLeader, lead};
pub use leader_rounds::LeaderRounds;
pub use line::PaxosLine;
pub use member::{PaxosMember, vote};
pub use member_rounds::MemberRounds;
pub use plan::{LeaderMove, LeaderPlan, MemberPlan};
pub use read::read_step;
pub use text::append_answer;
