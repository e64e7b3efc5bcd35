//! What the records of a process make.
ghost use Rattle.std.specs.Prelude.{◌≡◌, ℕ, List};
ghost use Rattle.spl_acceptor.specs.{Records.{acceptor_of, member_of, leader_of_records}, Rows.{member, acceptor, leader}, Worlds.Happening};
ghost use Rattle.spl_acceptor.specs.{Worlds.{first_paxos_world, paxos_world_after}, declared.group.Group.Group};
ghost use Rattle.spl_paxos_safety.specs.Written.{written};

/// What a process keeps durably of each round is what the records make that it wrote, in their order, whatever stops came between.
pub fn records_fold()
    ensures acceptors { (g : Group) (es : List Happening) (a r : ℕ) →
        acceptor_of (written g (first_paxos_world g) es (acceptor a)) r ≡ (paxos_world_after g es).acceptor a r }
    ensures votes { (g : Group) (es : List Happening) (i r : ℕ) →
        (member_of (written g (first_paxos_world g) es (member i)) r).vote ≡ ((paxos_world_after g es).member i r).vote }
    ensures decisions { (g : Group) (es : List Happening) (i r : ℕ) →
        (member_of (written g (first_paxos_world g) es (member i)) r).decision ≡ ((paxos_world_after g es).member i r).decision }
    ensures used { (g : Group) (es : List Happening) (l r : ℕ) →
        (leader_of_records (written g (first_paxos_world g) es (leader l)) r).used ≡ ((paxos_world_after g es).leader l r).used }
{}
