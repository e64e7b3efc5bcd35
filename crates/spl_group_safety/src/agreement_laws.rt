//! The agreement of one group.
ghost use Rattle.std.specs.Prelude.{◌≡◌, ◌≢◌, ℕ, ◌<◌, List, ◌++◌, [], true};
ghost use Rattle.spl_agree.specs.{Member.{Group, Member}, Rows.row, World.{World, Sent, Happening, new_world, carried_out, stopped, cut_short, happens, run}};
ghost use Rattle.spl_agree.specs.{World.{is_strange, IsPrefixOf}, Agreement.{Agrees, IsFresh, MayCome, MayHappen, Was}};
ghost use Rattle.spl_agree.specs.declared.{event.{GroupChange.GroupChange, GroupEvent.GroupEvent}, message.CommitMsg.CommitMsg};

use spl_agree::Agreed;

/// Over every list of ticks, expires, submits, deliveries of any message ever sent, restarts and
/// strangers' messages, each member's history is a beginning of the coordinator's.
pub fn histories_agree<M: Agreed>()
    ensures { (g : Group M.Value) (es : List (Happening M.Value)) (i : ℕ) →
        i < g.members →
        IsPrefixOf ((run g new_world es).at i).history ((run g new_world es).at g.coordinator).history }
{}

/// The fact by which the histories agree: it holds at first and from any fresh members on; it
/// outlives any row, a stop, a stop after any prefix of a plan's changes, and the loss of messages;
/// a message that was sent may come, and so may a stranger's; and it gives the prefix.
pub fn group_agrees<V>()
    ensures new { (g : Group V) → Agrees g new_world }
    ensures start { (g : Group V) (at : ℕ → Member V) → IsFresh g at → Agrees g (record { at = at; sent = [] }) }
    ensures rows { (g : Group V) (w : World V) (here : ℕ) (e : GroupEvent V) →
        here < g.members → MayHappen g w here e → Agrees g w →
        Agrees g (carried_out g w here (row g here (w.at here) e)) }
    ensures stop { (g : Group V) (w : World V) (here : ℕ) → here < g.members → Agrees g w → Agrees g (stopped w here) }
    ensures cut { (g : Group V) (w : World V) (here : ℕ) (e : GroupEvent V) (made rest : List (GroupChange V)) →
        here < g.members → MayHappen g w here e → made ++ rest ≡ (row g here (w.at here) e).changes → Agrees g w →
        Agrees g (cut_short g w here made) }
    ensures fewer { (g : Group V) (w : World V) (sent : List (Sent V)) →
        ((s : Sent V) → Was s sent → Was s w.sent) → Agrees g w →
        Agrees g (record { at = w.at; sent = sent }) }
    ensures comes { (g : Group V) (w : World V) (s : Sent V) → s.from ≢ s.to → Was s w.sent → Agrees g w → MayCome g w s.to s.from s.message }
    ensures strays { (g : Group V) (w : World V) (here sender : ℕ) (x : CommitMsg V) → is_strange g here sender x ≡ true → MayCome g w here sender x }
    ensures happening { (g : Group V) (w : World V) (e : Happening V) → Agrees g w → Agrees g (happens g w e) }
    ensures prefix { (g : Group V) (w : World V) (i : ℕ) → i < g.members → Agrees g w → IsPrefixOf (w.at i).history (w.at g.coordinator).history }
{}
