//! Circuits: their definitions, the acts on them, and the byte forms of both.
#![tactic(auto)]

mod act;
mod checked;
mod codec;
mod definition;
mod lifecycle;
mod members;
mod rules;
mod values;

pub use act::{Act, ActKind, VERSION_TOO_LOW};
pub use checked::CheckedDefinition;
pub use codec::{
    acts_are_read_back, definitions_are_read_back, no_act_begins_another,
    no_definition_begins_another, valid_definitions_have_a_form,
};
pub use definition::{Definition, Members, Service, Services};
pub use lifecycle::{Lifecycle, Mark, RouteFault};
