//! What the members of a group agree on, what they say to one another, and the rules of one group.
#![tactic(auto)]

mod agreed;
mod event;
mod limit;
mod message;
mod number;
mod plan;
mod reason;
mod renew;

pub use agreed::Agreed;
pub use event::{GroupChange, GroupEvent, Note, OpenMove};
pub use limit::MOST_PENDING;
pub use message::CommitMsg;
pub use number::{Generation, Place, Round};
pub use plan::{GroupChanges, GroupPlan, GroupSends};
pub use reason::{Admit, Reason};
pub use renew::Renew;
