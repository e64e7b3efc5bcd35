//! Proofs that an address has a value, or none, under a root.
//!
//! A member makes a proof of what its state has at an address. Whoever holds the root checks it with
//! nothing else: without the state, without a node, and without trust in the member.
//!
//! ```rust
//! use spl_proof::{Proof, check, prove};
//! use spl_state::{Address, State};
//!
//! // A member proves what it has at an address.
//! let mut state = State::new();
//! let address = Address([7; 35]);
//! state.set(alloc, address, b"42".as_slice())?;
//! let root = state.root();
//! let bytes = prove(alloc, &state, &address)?.write(alloc)?;
//!
//! // Whoever holds the root checks that, wherever the bytes come from.
//! let proof = Proof::read(alloc, bytes.bytes())?;
//! assert!(rt; check(&root, &address, Some(b"42".as_slice()), &proof));
//! assert!(rt; !check(&root, &address, None, &proof));
//! ```
//!
//! If a proof is accepted with a claim that isn't what the state has, `extract` finds what such a
//! proof gives away: two byte strings with one SHA-256 digest, or one whose digest is zeros.
#![tactic(auto)]

mod accept;
mod clash;
mod codec;
mod make;
mod proof;

pub use accept::check;
pub use clash::{Clash, extract};
pub use codec::{
    no_proof_begins_another, proofs_are_read_back, proofs_of_short_values_have_a_form,
};
pub use make::prove;
pub use proof::{End, LONGEST_VALUE, Level, Levels, MOST_LEVELS, Proof};
