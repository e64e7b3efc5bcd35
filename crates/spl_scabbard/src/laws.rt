//! Laws of what is reported of batches.
ghost use Rattle.std.specs.{Prelude.{◌≡◌, ℕ, List}, Option.option_and_then};
ghost use Rattle.spl_command.specs.{Lists.receipts_at, declared.batch.Batch.Batch};
ghost use Rattle.spl_scabbard.specs.Readers.{place_of, receipts_of};

/// The receipts reported of an id are those of the batch at its place: what that batch is on the state
/// of the batches before it.
pub fn receipts_are_those_at_the_place()
    ensures { (bs : List Batch) (i : ℕ) → receipts_of bs i ≡ option_and_then (receipts_at bs) (place_of bs i) }
{}
