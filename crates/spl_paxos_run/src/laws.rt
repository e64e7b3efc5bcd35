//! What a message does to the processes of a world, whatever their kind. The function's contract is the law.
ghost use Rattle.std.specs.Prelude.{◌≡◌, false, IsTrue};
ghost use Rattle.spl_acceptor.specs.{Worlds.{PaxosCommitWorld, has_name, same_name, round_of, message_heard, heard_plan}, declared.group.Group.Group};
ghost use Rattle.spl_acceptor.specs.declared.message.{Name.Name, PaxosMsg.PaxosMsg};
ghost use Rattle.spl_paxos_run.specs.States.{states_in, states_after, heard_by};

/// A message gives the row of the process that hears it, and moves that process by it, and no other.
pub fn messages_move_one_process()
    ensures plan { (g : Group) (w : PaxosCommitWorld) (from to : Name) (m : PaxosMsg) → IsTrue (has_name g to)
        → heard_plan g w from to m ≡ heard_by g (states_in w to) from m }
    ensures moved { (g : Group) (w : PaxosCommitWorld) (from to : Name) (m : PaxosMsg) → IsTrue (has_name g to)
        → states_in (message_heard g w from to m) to ≡ states_after (states_in w to) (round_of m) (heard_by g (states_in w to) from m) }
    ensures others { (g : Group) (w : PaxosCommitWorld) (from to n : Name) (m : PaxosMsg) → IsTrue (has_name g to) → IsTrue (has_name g n)
        → same_name to n ≡ false → states_in (message_heard g w from to m) n ≡ states_in w n }
{}
