//! The bodies of messages, as laws of the definitions.
ghost use Rattle.std.specs.{Prelude.{◌≡◌, ◌≤◌, length, IsTrue, Ok, Some}, List.All};
ghost use Rattle.spl_wire.specs.{Forms.message_form, declared.message.{Message.Message as MessageValue, TheConstants.LONGEST_MESSAGE}};
ghost use Rattle.spl_fragments.specs.{Parts.{IsSized, message_bodies}, Joining.joined_message};

/// The bodies of a message that has at most `LONGEST_MESSAGE` bytes are joined to that message.
pub fn a_message_is_joined()
    ensures { (m : MessageValue) → IsTrue (message_form.fits m) → length (message_form.spell m) ≤ LONGEST_MESSAGE
        → joined_message (message_bodies (message_form.spell m)) ≡ Ok (Some m) }
{}

/// Each body of a message has at least one byte, and at most `LONGEST_BODY`.
pub fn bodies_are_sized()
    ensures { (m : MessageValue) → All IsSized (message_bodies (message_form.spell m)) }
{}

/// No list of bodies is that of two messages.
pub fn no_bodies_are_of_two_messages()
    ensures { (x y : MessageValue) → IsTrue (message_form.fits x) → IsTrue (message_form.fits y)
        → message_bodies (message_form.spell x) ≡ message_bodies (message_form.spell y) → x ≡ y }
{}
