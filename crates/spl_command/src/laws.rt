//! Laws of batches.
ghost use Rattle.std.specs.{Prelude.{◌≡◌, ◌↔◌, ℕ, List, Some, None, IsTrue, is_none}, List.list_all, FinMap.Entries.is_sorted};
ghost use Rattle.spl_state.specs.{Entries.{Entry, address_cmp}, declared.address.Address.Address};
ghost use Rattle.spl_command.specs.{Forms.batch, Rules.{broken_batch, is_short}, Execution.{values_of, verdict_on, cause_of}, Lists.{after_batch, state_of}};
ghost use Rattle.spl_command.specs.{Runs.values_after_all, declared.batch.Batch.Batch};
ghost use Rattle.spl_command.specs.declared.receipt.Verdict.TheVariants as verdict;

/// Which cause comes in which transaction hangs on the batch alone, not on the state.
pub fn the_cause_hangs_on_the_batch()
    ensures { (m : List Entry) (b : Batch) (t c : ℕ) → (verdict_on m b ≡ verdict.Invalid t c) ↔ (cause_of b ≡ Some (t, c)) }
{}

/// A batch that breaks no rule has a byte form.
pub fn valid_batches_have_a_form()
    ensures { (b : Batch) → broken_batch b ≡ None → IsTrue (batch.bounded b) }
{}

/// On a state in address order, the changes of a valid batch make the state that its commands
/// left, again in address order.
pub fn the_changes_make_the_state()
    ensures { (m : List Entry) (b : Batch) → IsTrue (is_sorted address_cmp m) → cause_of b ≡ None
        → IsTrue (is_sorted address_cmp (after_batch m b)) × ((a : Address) → values_of (after_batch m b) a ≡ values_after_all (values_of m) b.transactions a) }
{}

/// The state of a list of batches is in address order, each address once.
pub fn states_are_in_address_order()
    ensures { (bs : List Batch) → IsTrue (is_sorted address_cmp (state_of bs)) }
{}

/// Where no batch breaks a rule, no value of their state has more than `LONGEST_DATA` bytes.
pub fn values_of_states_are_short()
    ensures { (bs : List Batch) → IsTrue (list_all (λ b. is_none (broken_batch b)) bs) → IsTrue (list_all (λ e. is_short e.1) (state_of bs)) }
{}
