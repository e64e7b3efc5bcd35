//! What a server did so far.
ghost use Rattle.std.specs.Prelude.{◌≡◌, ◌+◌, ◌<◌, ◌^◌, length};

use spl_node::Outcome;

/// What a server did since its process began. A count that has no room for more stays as it is.
#[derive(Clone, Copy, Drop)]
pub struct Tally {
    /// Turns that were kept.
    pub turns: u64,
    /// Events that were handled in them.
    pub events: u64,
    /// Records of events that changed something.
    pub records: u64,
    /// Syncs of the appends that kept these records, two for each turn that has any.
    pub syncs: u64,
}

fn records_in(given: &[Outcome]) -> u64 {
    given.iter().filter(|outcome| outcome.changed).count() as u64
}

impl Tally {
    /// Nothing yet.
    pub fn new() -> Tally
        ensures turns { result.turns ≡ 0 }
        ensures events { result.events ≡ 0 }
    {
        Tally {
            turns: 0,
            events: 0,
            records: 0,
            syncs: 0,
        }
    }

    /// After a turn more, which was kept and whose events gave this.
    pub(crate) fn after(&self, given: &[Outcome]) -> Tally
        ensures turns { self.now.turns + 1 < 2 ^ 64 → result.turns ≡ self.now.turns + 1 }
        ensures events { self.now.events + length given.now < 2 ^ 64 → result.events ≡ self.now.events + length given.now }
    {
        let records = records_in(given);
        let syncs = if records > 0 { 2 } else { 0 };
        Tally {
            turns: self.turns.saturating_add(1),
            events: self.events.saturating_add(given.len() as u64),
            records: self.records.saturating_add(records),
            syncs: self.syncs.saturating_add(syncs),
        }
    }
}
