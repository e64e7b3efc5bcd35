//! One member of a group: what it plans for an event, its durable changes and its open round.
#![tactic(auto)]

mod changes;
mod fitting;
mod forwards;
mod history;
mod member;
mod messages;
mod packing;
mod plan;
mod plans;
mod readers;
mod requests;
mod sends;
mod ticks;
mod votes;

pub use member::Member;
pub use spl_agree::{GroupChange, GroupChanges, GroupEvent, GroupPlan, GroupSends, OpenMove};
pub use spl_group_safety::{
    group_agrees, histories_agree, keys_differ, members_stay_sound, plans_fit,
};
pub use spl_queue::Known;
