//! What a node that serves has, laid out for people: its peers, its circuits, and for whom they wait.
#![tactic(auto)]

mod cells;
mod circuits;
mod peers;
mod waiting;

pub use circuits::{put_circuit, put_circuit_heads};
pub use peers::{own_node, put_peers};
