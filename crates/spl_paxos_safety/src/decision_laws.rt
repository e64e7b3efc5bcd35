//! What the members of a run decide in each round.
ghost use Rattle.std.specs.Prelude.{◌≡◌, ℕ, ◌⊎◌, List, ◌++◌, Bool, true, false, Some};
ghost use Rattle.spl_acceptor.specs.{Quorums.IsWithin, Worlds.{Happening, paxos_world_after}, declared.group.Group.Group};
ghost use Rattle.spl_paxos_safety.specs.Begun.{HasBegun};

/// Over every list of votes, turns of leaders, deliveries of any message ever sent, stops and
/// starts, in each round: no two members decide differently; no decision changes; commit comes only
/// where every member voted yes; and abort only where a member voted no or a leader began a ballot.
pub fn rounds_agree()
    ensures same { (g : Group) (es : List Happening) (r m n : ℕ) (p q : Bool) →
        ((paxos_world_after g es).member m r).decision ≡ Some p → ((paxos_world_after g es).member n r).decision ≡ Some q →
        p ≡ q }
    ensures stays { (g : Group) (es fs : List Happening) (r m : ℕ) (d : Bool) →
        ((paxos_world_after g es).member m r).decision ≡ Some d →
        ((paxos_world_after g (es ++ fs)).member m r).decision ≡ Some d }
    ensures commit { (g : Group) (es : List Happening) (r m i : ℕ) →
        ((paxos_world_after g es).member m r).decision ≡ Some true → IsWithin g.members i →
        ((paxos_world_after g es).member i r).vote ≡ Some true }
    ensures abort { (g : Group) (es : List Happening) (r m : ℕ) →
        ((paxos_world_after g es).member m r).decision ≡ Some false →
        ((i : ℕ) × IsWithin g.members i × (((paxos_world_after g es).member i r).vote ≡ Some false)) ⊎ HasBegun g es r }
{}
