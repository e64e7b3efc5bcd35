//! What a stop in an append to one of two disks leaves, as a law of the definitions.
ghost use Rattle.std.specs.Prelude.{◌≡◌, ◌<◌, length, List, ℕ, Bool, not};
ghost use Rattle.spl_edge.specs.{Devices.Image, declared.fill.Fill.Fill};
ghost use Rattle.spl_journal.specs.Records.{following, sized, AreGood, IsGood, Standing, is_kept, kept_all, kept_records};
ghost use Rattle.spl_snapshot.specs.{Counting.{chosen, second_counts, pair_records_of, HaveRecords}, Stopped.kept_on};

use spl_journal::{appends_are_kept_or_lost, groups_are_kept_or_lost};

/// Where so many calls of an append to the disk that counts succeeded and a fill is picked, the
/// records of both disks are those of before, with the new one where it is kept.
pub fn appends_to_pairs_are_kept_or_lost()
    ensures { (fits : List ℕ → Bool) (second : Bool) (end extent epoch : ℕ) (i j : Image) (r : List ℕ) (calls : ℕ) (fill : Fill)
        → Standing fits end extent epoch (chosen second i j) → second_counts i.bytes j.bytes ≡ second → IsGood fits r
        → HaveRecords fits (kept_records (is_kept calls fill) (pair_records_of fits i.bytes j.bytes) r)
        (kept_on (not second) fill end (sized r) calls i) (kept_on second fill end (sized r) calls j) }
{
    appends_are_kept_or_lost();
}

/// The same of an append of several records: all of them are kept, or none.
pub fn groups_on_pairs_are_kept_or_lost()
    ensures { (fits : List ℕ → Bool) (second : Bool) (end extent epoch : ℕ) (i j : Image) (more : List (List ℕ)) (calls : ℕ) (fill : Fill)
        → Standing fits end extent epoch (chosen second i j) → second_counts i.bytes j.bytes ≡ second → 0 < length more → AreGood fits more
        → HaveRecords fits (kept_all (is_kept calls fill) (pair_records_of fits i.bytes j.bytes) more)
        (kept_on (not second) fill end (following more) calls i) (kept_on second fill end (following more) calls j) }
{
    groups_are_kept_or_lost();
}
