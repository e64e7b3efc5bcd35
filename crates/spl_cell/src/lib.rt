//! One circuit at one node.
#![tactic(auto)]

mod batches;
mod bind;
mod cell;
mod change;
mod durable;
mod hear;
mod held;
mod lane;
mod leave;
mod moves;
mod pack;
mod plan;
mod plans;
mod propose;
mod proving;
mod sends;
mod serve;
mod settled;
mod site;
mod state;
mod submit;
mod tell;
mod turn;
mod vote;

pub use cell::Cell;
pub use held::Held;
pub use spl_wire::{Outgoing, Plan, SendList};
