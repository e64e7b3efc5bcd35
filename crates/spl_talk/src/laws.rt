//! What is heard of what was put, as laws of the definitions.
ghost use Rattle.std.specs.{Prelude.{◌≡◌, ◌++◌, ◌∷◌, [], true, false, List, ℕ, Ok}, List.All};
ghost use Rattle.spl_frame.specs.Frames.{frames_of};
ghost use Rattle.spl_registry.specs.Nodes.{Entry};
ghost use Rattle.spl_wire.specs.declared.message.Message.{Message as MessageValue};
ghost use Rattle.spl_talk.specs.{Talks.{End, HearsFrame, Talking, listening, opening}, Connections.{HasFrames, HasSaid, HearsAll, HearsPrefix, IsOf}};
ghost use Rattle.spl_talk.specs.{Connections.{MayConnect, hears, puts}, declared.{side.Side.TheVariants.Knows, spoken.Spoken.Spoken as SpokenValue}};

use spl_fragments::{a_message_is_joined, bodies_are_sized};

/// Over a connection that gives a prefix of the bytes that were put, each end hears a prefix of the messages that the other
/// one put, from that peer alone, and no fault.
pub fn a_prefix_is_heard_as_a_prefix()
    ensures opened { (es : List Entry) (low high : List ℕ) (ms : List MessageValue) (came left : List ℕ) → MayConnect es low high → All HasFrames ms
        → came ++ left ≡ puts true low ms → HearsPrefix es (listening high) low ms came }
    ensures opens { (es : List Entry) (low high : List ℕ) (ms : List MessageValue) (came left : List ℕ) → MayConnect es low high → All HasFrames ms
        → came ++ left ≡ puts false high ms → HearsPrefix es (opening low high) high ms came }
{
    a_message_is_joined();
    bodies_are_sized();
}

/// Over a connection that gives all bytes that were put, each end hears all messages.
pub fn all_that_was_put_is_heard()
    ensures opened { (es : List Entry) (low high : List ℕ) (ms : List MessageValue) → MayConnect es low high → All HasFrames ms
        → HearsAll es (listening high) low ms (puts true low ms) }
    ensures opens { (es : List Entry) (low high : List ℕ) (ms : List MessageValue) → MayConnect es low high → All HasFrames ms
        → HearsAll es (opening low high) high ms (puts false high ms) }
{
    a_message_is_joined();
    bodies_are_sized();
}

/// Once a peer is known, whatever comes is heard as of that peer, and names no other.
pub fn the_peer_stays()
    ensures { (es : List Entry) (t : End) (peer : List ℕ) (bodies : List (List ℕ)) (said : List SpokenValue) → t.side ≡ Knows peer
        → hears es t bodies ≡ Ok said → All (IsOf peer) said }
{}

/// In whatever pieces bytes come, what `next` says, one after another, is what all frames say: at the beginning, once further
/// bytes are fed, and once something more is said. Where no whole frame is left, it is all that the bytes say.
pub fn pieces_make_no_difference()
    ensures begins { (es : List Entry) (start : End) → HasSaid es start [] [] (record { end = start; bytes = [] }) }
    ensures fed { (es : List Entry) (start : End) (came piece : List ℕ) (said : List SpokenValue) (end : End) (bytes : List ℕ)
        → HasSaid es start came said (record { end = end; bytes = bytes })
        → HasSaid es start (came ++ piece) said (record { end = end; bytes = bytes ++ piece }) }
    ensures says { (es : List Entry) (start : End) (came : List ℕ) (said : List SpokenValue) (old new : Talking) (s : SpokenValue)
        → HasSaid es start came said old → HearsFrame es old s new → HasSaid es start came (said ++ s ∷ []) new }
    ensures all { (es : List Entry) (start : End) (came : List ℕ) (said : List SpokenValue) (now : Talking)
        → HasSaid es start came said now → frames_of now.bytes ≡ [] → hears es start (frames_of came) ≡ Ok said }
{}
