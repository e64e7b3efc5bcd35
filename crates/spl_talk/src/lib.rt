//! What is said on a connection between two nodes.
#![tactic(auto)]

mod fault;
mod laws;
mod names;
mod side;
mod spoken;
mod talk;

pub use fault::TalkFault;
pub use laws::{
    a_prefix_is_heard_as_a_prefix, all_that_was_put_is_heard, pieces_make_no_difference,
    the_peer_stays,
};
pub use side::Side;
pub use spoken::Spoken;
pub use talk::Talk;
