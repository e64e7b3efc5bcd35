//! What nodes keep, seen side by side: whether it goes together, and of which circuits it is.
#![tactic(auto)]

mod auditing;
mod cells;
mod clash;
mod command;
mod laws;
mod lists;
mod peeking;
mod report;
mod running;
mod saying;
mod search;
mod text;
mod verdict;

pub use auditing::{AuditFault, audit};
pub use clash::{Clash, Kind};
pub use command::audit_disks;
pub use laws::audited_nodes_agree;
pub use report::{Found, Report};
pub use running::run_audit;
pub use text::append_report;
pub use verdict::{AuditRunFault, Verdict};
