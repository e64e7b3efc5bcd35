//! What a stop in an append, or in a journal that is written whole, leaves, as laws of the definitions.
ghost use Rattle.std.specs.Prelude.{◌≡◌, ◌<◌, length, List, ℕ, Bool, false, Ok};
ghost use Rattle.spl_edge.specs.{Devices.{Image, picked_bytes}, declared.fill.Fill.Fill};
ghost use Rattle.spl_journal.specs.{Clear.IsCleared, Gate.opened, Records.{filling, following, is_open, sized, records, records_of, IsGood, AreGood}};
ghost use Rattle.spl_journal.specs.Records.{Standing, SameHead, is_kept, kept_all, kept_records};

/// Where so many calls of an append succeeded and a fill is picked, the records are those of before, with the new one
/// after four calls, and after three where the fill leaves its gate open.
pub fn appends_are_kept_or_lost()
    ensures records { (fits : List ℕ → Bool) (end extent epoch : ℕ) (i : Image) (r : List ℕ) (calls : ℕ) (fill : Fill)
        → Standing fits end extent epoch i → IsGood fits r
        → records fits (picked_bytes fill (opened end (sized r) calls i)) ≡ Ok (kept_records (is_kept calls fill) (records_of fits i.bytes) r) }
    ensures head { (fits : List ℕ → Bool) (end extent epoch : ℕ) (i : Image) (r : List ℕ) (calls : ℕ) (fill : Fill)
        → Standing fits end extent epoch i → IsGood fits r
        → SameHead i.bytes (picked_bytes fill (opened end (sized r) calls i)) }
{}

/// The same of an append of several records: all of them are kept, or none.
pub fn groups_are_kept_or_lost()
    ensures records { (fits : List ℕ → Bool) (end extent epoch : ℕ) (i : Image) (more : List (List ℕ)) (calls : ℕ) (fill : Fill)
        → 0 < length more → Standing fits end extent epoch i → AreGood fits more
        → records fits (picked_bytes fill (opened end (following more) calls i)) ≡ Ok (kept_all (is_kept calls fill) (records_of fits i.bytes) more) }
    ensures head { (fits : List ℕ → Bool) (end extent epoch : ℕ) (i : Image) (more : List (List ℕ)) (calls : ℕ) (fill : Fill)
        → 0 < length more → Standing fits end extent epoch i → AreGood fits more
        → SameHead i.bytes (picked_bytes fill (opened end (following more) calls i)) }
{}

/// Where so many calls of `fill` succeeded on a cleared disk and a fill is picked, the head is shut before four calls, and
/// after three unless the fill leaves its gate open.
pub fn heads_are_opened_last()
    ensures { (epoch : ℕ) (rs : List (List ℕ)) (i : Image) (calls : ℕ) (fill : Fill) → IsCleared epoch i → is_kept calls fill ≡ false
        → is_open (picked_bytes fill (opened 16 (filling rs) calls i)) ≡ false }
{}
