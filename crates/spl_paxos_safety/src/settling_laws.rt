//! When the members of a run decide.
ghost use Rattle.std.specs.Prelude.{◌≡◌, ◌≤◌, ◌<◌, ◌+◌, ◌*◌, ◌^◌, ℕ, suc, List, length, Bool, true, Some};
ghost use Rattle.spl_acceptor.specs.{Rows.{member, acceptor, leader}, Worlds.{Happening, paxos_run, paxos_world_after}, declared.group.Group.Group};
ghost use Rattle.spl_paxos_safety.specs.Settling.{IsAmong, Distinct, CanSettle, settling};

/// After any schedule, where a leader and F + 1 acceptors are up and nothing comes between: two
/// turns of the leader at these acceptors, and the delivery of the second ballot's orders to each
/// of them and of what they accepted to members, leave each of these members that is up decided.
/// Their numbers in the round have to leave room for two ballots, which they do after every
/// schedule that isn't very long.
pub fn leaders_settle()
    ensures room { (g : Group) (es : List Happening) (l r : ℕ) (those ms : List ℕ) →
        CanSettle g (paxos_world_after g es) l r those →
        (m : ℕ) → IsAmong m ms → (paxos_world_after g es).up (member m) ≡ true →
        (d : Bool) × (((paxos_run g (paxos_world_after g es) (settling g (paxos_world_after g es) l r those ms)).member m r).decision ≡ Some d) }
    ensures short { (g : Group) (es : List Happening) (l r : ℕ) (those ms : List ℕ) →
        1 ≤ g.members → (paxos_world_after g es).up (leader l) ≡ true →
        ((a : ℕ) → IsAmong a those → (paxos_world_after g es).up (acceptor a) ≡ true) →
        Distinct those → suc g.faults ≤ length those → 3 * length es + 6 < 2 ^ 64 →
        (m : ℕ) → IsAmong m ms → (paxos_world_after g es).up (member m) ≡ true →
        (d : Bool) × (((paxos_run g (paxos_world_after g es) (settling g (paxos_world_after g es) l r those ms)).member m r).decision ≡ Some d) }
{}

/// Each line raises the numbers of ballots by three at most, so that those of a schedule within its
/// limits leave room for two ballots more.
pub fn ballots_stay_low()
    ensures used { (g : Group) (es : List Happening) (l r : ℕ) → ((paxos_world_after g es).leader l r).used ≤ 3 * length es }
    ensures promised { (g : Group) (es : List Happening) (a r : ℕ) → ((paxos_world_after g es).acceptor a r).promised ≤ 3 * length es }
{}
