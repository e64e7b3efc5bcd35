//! The act ledger: what the admin group of a circuit agrees on.
#![tactic(auto)]

mod agreed;
mod key;
mod ledger;
mod standing;

pub use key::ActKey;
pub use ledger::Ledger;
