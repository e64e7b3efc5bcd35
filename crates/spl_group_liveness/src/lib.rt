//! The calm of one group: passes of ticks and deliveries settle what is pending. Each law is a function without a body.
#![tactic(auto)]

ghost use Rattle.std.specs.Prelude.{[], None, ◌≡◌, ℕ, ◌<◌, ◌≤◌, List, ◌∷◌, length};
ghost use Rattle.spl_agree.specs.{Member.Group, World.{World, new_world, Happening, run}};
ghost use Rattle.spl_group_liveness.specs.{Calm.{Order, calm_by, group_calm, AllFull}, Bound.{Settles, IsKeyed, IsFit, AllGuarded, IsRunOf}};

use spl_agree::Agreed;

/// A calm of eight passes settles the first pending value of the coordinator, in each group that at
/// most 32,768 events reach; so do six passes or more in any orders, in each group that is fit. A
/// calm is a run of ticks and deliveries; where nothing is pending and no round is open, it leaves
/// the coordinator's history.
pub fn calms_settle<V>()
    ensures reached { (g : Group V) →
        IsKeyed g.rules → 2 ≤ g.members → g.coordinator < g.members → (es : List (Happening V)) → length es ≤ 32768 →
        AllGuarded g new_world es → (v : V) (rest : List V) →
        ((run g new_world es).at g.coordinator).pending ≡ v ∷ rest →
        Settles g v (group_calm g 8 (run g new_world es)) }
    ensures fit { (g : Group V) (w : World V) (v : V) (rest : List V) (os : List Order) →
        AllFull g.members os → 6 ≤ length os → IsFit g w → (w.at g.coordinator).pending ≡ v ∷ rest →
        Settles g v (calm_by g os w) }
    ensures events { (g : Group V) (os : List Order) (w : World V) → AllFull g.members os → IsRunOf g w (calm_by g os w) }
    ensures idle { (g : Group V) (os : List Order) (w : World V) →
        AllFull g.members os → ((i : ℕ) → i < g.members → (w.at i).pending ≡ []) → (w.at g.coordinator).opened ≡ None →
        ((calm_by g os w).at g.coordinator).history ≡ (w.at g.coordinator).history }
{}

/// The rules of each content have keys and equality as a calm needs them.
pub fn contents_are_keyed<M: Agreed>()
    ensures { (s : M) → IsKeyed (M.rules s) }
{}
