//! What is known of what was put, and of lies.
ghost use Rattle.std.specs.Prelude.{◌≡◌, ◌++◌, ℕ, List, []};
ghost use Rattle.spl_edge.specs.Devices.{IsHonest, Streams};
ghost use Rattle.spl_registry.specs.Nodes.{Entry};
ghost use Rattle.spl_pump.specs.{Moves.IsFault, Wires.{AreTold, Carried, WireGoesOn, IsMessageDue, LiesOf, Puts, PutsPart, Wire, wire_from, wire_of}};
ghost use Rattle.spl_pump.specs.declared.fault.PumpFault.{PumpFault as Fault};
ghost use Rattle.spl_wire.specs.declared.message.Message.{Message as MessageValue};

/// What messages put, one after another: where none was carried nothing was put, and what some and then others put is
/// what they put together, also where the others were put in part. Of a pump whose nodes haven't met this is what
/// the format names.
#[tactic(auto, using(crate::proofs::Carrying::goes_on_none, crate::proofs::Carrying::goes_on_more, crate::proofs::Carrying::puts_on))]
pub fn messages_go_on()
    ensures none { (f : Wire) → ((a b : ℕ) → f [] a b ≡ []) → WireGoesOn [] f f }
    ensures more { (xs ys : List Carried) (f g h : Wire) → WireGoesOn xs f g → WireGoesOn ys g h → WireGoesOn (xs ++ ys) f h }
    ensures put { (xs ys : List Carried) (f g : Wire) (a b c : Streams) → WireGoesOn xs f g → Puts (f xs) a b → Puts (g ys) b c → Puts (f (xs ++ ys)) a c }
    ensures part { (xs ys : List Carried) (f g : Wire) (a b c : Streams) → WireGoesOn xs f g → Puts (f xs) a b → PutsPart (g ys) b c
        → PutsPart (f (xs ++ ys)) a c }
    ensures format { (es : List Entry) (sent : List Carried) (a b : ℕ) → wire_from es [] sent a b ≡ wire_of es sent a b }
{}

/// Over a fabric that reports its bytes, and on which what was taken is a prefix of what was put, no lie comes of a message that is carried.
#[tactic(auto, using(crate::proofs::Honest::never_lies))]
pub fn honest_fabrics_never_lie()
    ensures { (hello : ℕ → ℕ → List ℕ) (from to : ℕ) (m : MessageValue) (put taken : Streams) (e : Fault) → AreTold put taken → IsHonest put taken
        → LiesOf (IsMessageDue hello from to m) e put taken → IsFault e }
{}
