//! The byte forms of messages and records, as laws of the definitions.
ghost use Rattle.std.specs.{Prelude.{◌≡◌, ◌∷◌, [], List, ℕ, IsTrue, true}, List.list_all};
ghost use Rattle.spl_base.specs.Prefix.{NoneBeginsAnother};
ghost use Rattle.spl_wire.specs.{Forms.{message_form, record_form}, Grouping.{record_of, grouped, together, is_sized, is_small, is_lawful}};
ghost use Rattle.spl_wire.specs.declared.change.Change.{Change};

/// No spelling of a message begins another.
pub fn no_message_begins_another()
    ensures { NoneBeginsAnother message_form }
{}

/// No spelling of a record begins another.
pub fn no_record_begins_another()
    ensures { NoneBeginsAnother record_form }
{}

/// Changes in groups are the same changes in the same order. Each group has a change, and its
/// record at most `MOST_CHANGES` changes and `LONGEST_RECORD` bytes, where each change by itself makes
/// a record of at most so many bytes; and it does where it has a byte form and its batch breaks no rule.
pub fn groups_have_all_changes()
    ensures whole { (c : List ℕ) (xs : List Change) → together (grouped c xs) ≡ xs }
    ensures sized { (c : List ℕ) (xs : List Change) → list_all (is_small c) xs ≡ true → list_all (is_sized c) (grouped c xs) ≡ true }
    ensures small { (c : List ℕ) (x : Change) → IsTrue (record_form.fits (record_of c (x ∷ []))) → is_lawful x ≡ true → is_small c x ≡ true }
{}
