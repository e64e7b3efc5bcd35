//! The call that does all that the program does: it reads a registry and a schedule, runs the lines
//! over the registry's nodes, and writes their answers; or it audits what the nodes keep.
#![tactic(auto)]

mod agree;
mod ended;
mod fabric;
mod generated;
mod generating;
mod history;
mod links;
mod replay;
mod taken;
mod text;
mod top;

pub use history::{audits_find_no_clash, folders_have_one_history, runs_leave_one_history};
pub use taken::{traces_ask_watchers_alike, watchers_take_on, watchers_take_one_list};
pub use top::splinter;
