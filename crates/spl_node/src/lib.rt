//! A node over its disks: the cells of all circuits, and the journal that makes them again.
#![tactic(auto)]

mod ahead;
mod blank;
mod cells;
mod done;
mod form;
mod host;
mod keeper;
mod laws;
mod node;
mod opening;
mod packing;
mod stopping;
mod turn;

pub use blank::{BlankFault, check_blank};
pub use form::CellForm;
pub use host::{Host, disks_stand_for_cells};
pub use keeper::{Keeper, are_blank};
pub use laws::recorded_cells_are_kept;
pub use node::{Node, Outcome};
pub use stopping::Stopping;
pub use turn::Turn;
