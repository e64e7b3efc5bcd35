//! The laws of one group: what its members agree on, and what each of them keeps by itself. Each law is a function without a body.
#![tactic(auto)]

mod agreement_laws;
mod member_laws;

pub use agreement_laws::{group_agrees, histories_agree};
pub use member_laws::{keys_differ, members_stay_sound, plans_fit};
