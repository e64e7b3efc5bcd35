//! What happens at a member of a group, and what it gives.
ghost use Rattle.std.specs.{Prelude.◌≡◌, Option.option_copied};
ghost use Rattle.spl_agree.specs.Fits.{queued};

use crate::{CommitMsg, Reason, Round};

/// What happens at a member.
#[derive(Drop)]
pub enum GroupEvent<V> {
    /// It is asked to go on.
    Tick,
    /// It is asked to give up an open round.
    Expire,
    /// It is handed a value of its own node.
    Submit(V),
    /// A message comes from the member at a position; 255 stands for a sender that is no member.
    From { sender: u8, message: CommitMsg<V> },
}

/// A durable change of a member.
#[derive(Drop)]
pub enum GroupChange<V> {
    /// The value joins the pending ones.
    Queue(V),
    /// The value leaves the pending ones and joins the refused ones.
    Refuse(V, Reason),
    /// The round begins, and the next one is one more.
    Begin(Round),
    /// The round was seen.
    Seen(Round),
    /// The round was seen, and its value is promised.
    Promise(Round, V),
    /// The promise is given up.
    Abort,
    /// The value joins the history, the promise is kept, and the pending value of its key goes.
    Commit(Round, V),
    /// A new member has these rounds. No row gives it.
    Restore { next: Round, seen: Round },
    /// The value joins the refused ones of a member that has no more. No row gives it.
    Kept(V, Reason),
}

impl<V> GroupChange<V> {
    /// What the change queues, if it queues.
    pub fn queued(&self) -> Option<&V>
        ensures { option_copied result ≡ queued self.now }
    {
        match self {
            GroupChange::Queue(value) => Some(value),
            _ => None,
        }
    }
}

/// A move of the open round, which no stop survives.
#[derive(Clone, Copy, PartialEq, Eq)]
pub enum OpenMove {
    /// It stays.
    Keep,
    /// This round is open, and no other member voted yes.
    Begin(Round),
    /// The member at this position voted yes.
    Yes(u8),
    /// None is open.
    Close,
}

/// What is reported of an event.
#[derive(Clone, Copy, PartialEq, Eq)]
pub enum Note {
    Idle,
    Asked(Round),
    Refused(Reason),
    Begun(Round),
    Forwarded,
    Expired(Round),
    Declined(Round),
    Again(Round),
    Ignored,
    Promised(Round),
    Counted(Round),
    Committed(Round),
    Aborted(Round),
    Told(Round, bool),
    Returned(Reason),
    Queued,
    /// The group is not there; no row of a group gives it.
    Off,
}
