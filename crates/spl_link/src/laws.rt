//! The byte form of greetings, as laws of the definitions.
ghost use Rattle.std.specs.Prelude.{◌≡◌, Bool, true, not, List, ℕ, Some, Ok, IsTrue};
ghost use Rattle.spl_base.specs.{Form.IsBytes, Ids.is_node_id};
ghost use Rattle.spl_registry.specs.Nodes.{Entry, knows};
ghost use Rattle.spl_link.specs.{Greetings.{greeting, name_in}, Sides.Side, Heard.heard};

/// A peer that the registry knows, and that gives its own name, is heard.
#[tactic(auto, using(crate::proofs::Readings::peer_is_heard))]
pub fn a_peer_is_heard()
    ensures { (es : List Entry) (side : Side) → IsTrue (is_node_id side.peer) → knows es side.peer ≡ true
        → heard es side (greeting (not side.opens) side.peer) ≡ Ok side.peer }
{}

/// The greeting of a node has its name.
#[tactic(auto, using(crate::proofs::Readings::read_back))]
pub fn a_greeting_is_read_back()
    ensures { (opens : Bool) (name : List ℕ) → IsTrue (is_node_id name) → name_in opens (greeting opens name) ≡ Some name }
{}

/// A body that has a name is the greeting of the node of that name.
#[tactic(auto, using(crate::proofs::Readings::read_one_way))]
pub fn a_greeting_is_read_one_way()
    ensures { (opens : Bool) (body name : List ℕ) → IsBytes body → name_in opens body ≡ Some name → (body ≡ greeting opens name) × IsTrue (is_node_id name) }
{}
