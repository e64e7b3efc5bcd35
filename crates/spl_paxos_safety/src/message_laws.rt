//! What is sent in a run.
ghost use Rattle.std.specs.Prelude.{◌≡◌, ℕ, List, Some, IsTrue};
ghost use Rattle.spl_acceptor.specs.{Acceptors.orders_own, Worlds.{Happening, message_at, paxos_world_after}, declared.group.Group.Group};
ghost use Rattle.spl_acceptor.specs.declared.message.{Name.Name, PaxosMsg.PaxosMsg};

/// Whatever may be delivered after any schedule, an order to accept is about one of the run's members.
pub fn orders_are_own()
    ensures { (g : Group) (es : List Happening) (from to : Name) (k : ℕ) (m : PaxosMsg) →
        message_at (paxos_world_after g es) from to k ≡ Some m → IsTrue (orders_own g.members m) }
{}
