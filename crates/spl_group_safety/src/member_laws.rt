//! What a member keeps by itself.
ghost use Rattle.std.specs.Prelude.{◌≡◌, ℕ, List, Bool, true, []};
ghost use Rattle.spl_agree.specs.{Member.{Rules, Group, Member, new_member, changed_by, restarted}, Rows.row, World.after, Fits.{IsSound, IsRoomy, IsDue}};
ghost use Rattle.spl_agree.specs.{Fits.{MayQueue, AllFit, FitsMove, AllGood, KeysDiffer, RefusesKnown, any_value}, declared.event.GroupEvent.GroupEvent};

/// The changes of a plan, made in order, fit, and its move fits after them: at a sound and roomy
/// member, for an event that is due. `may` says which values the content lets into the pending
/// ones.
pub fn plans_fit<V>()
    ensures changes { (g : Group V) (may : V → Bool) (here : ℕ) (m : Member V) (e : GroupEvent V) →
        ((x : V) → g.rules.same x x ≡ true) → IsDue g here m e → MayQueue g may e → IsSound g here m → IsRoomy m →
        AllFit g.rules may m (row g here m e).changes }
    ensures moves { (g : Group V) (here : ℕ) (m : Member V) (e : GroupEvent V) →
        ((x : V) → g.rules.same x x ≡ true) → IsDue g here m e → IsSound g here m → IsRoomy m →
        FitsMove g here (changed_by g.rules m (row g here m e).changes) (row g here m e).opening }
    ensures any { (g : Group V) (e : GroupEvent V) → MayQueue g any_value e }
{}

/// Whatever a member hears, every committed, promised and open value had a good check against the
/// values before it, an open round is as it has to be, and the numbers stay in their bounds.
pub fn members_stay_sound<V>()
    ensures new { (g : Group V) (here : ℕ) → IsSound g here new_member × IsRoomy {V = V} new_member }
    ensures sound { (g : Group V) (here : ℕ) (m : Member V) (e : GroupEvent V) →
        IsDue g here m e → IsSound g here m → IsRoomy m →
        IsSound g here (after g here m (row g here m e)) }
    ensures roomy { (g : Group V) (here : ℕ) (m : Member V) (e : GroupEvent V) →
        ((x : V) → g.rules.same x x ≡ true) → IsDue g here m e → IsSound g here m → IsRoomy m →
        IsRoomy (after g here m (row g here m e)) }
    ensures stopped { (g : Group V) (here : ℕ) (m : Member V) → IsSound g here m → IsSound g here (restarted m) }
{}

/// No value of a list of good checks has the key of one before it, where the check refuses a known key.
pub fn keys_differ<V>()
    ensures { (rules : Rules V) (vs : List V) → RefusesKnown rules → AllGood rules [] vs → KeysDiffer rules [] vs }
{}
