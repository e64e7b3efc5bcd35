//! All processes of a run, and all messages between them.
ghost use Rattle.std.specs.Prelude.{◌≤◌};

use crate::fault::{PaxosFault, fault_at};
use crate::place::{knows, place_of, process_of};
use crate::{Posts, Seat, SeatStep};
use spl_acceptor::{Group, PaxosAnswer};
use spl_edge::{Pair, StopDisk};
use spl_journal::JournalFault;
use spl_paxos::PaxosLine;
use std::alloc::Global;

/// All processes of a run by their places, and all messages that were ever sent.
#[derive(Drop)]
pub struct PaxosWorld {
    pub(crate) group: Group,
    pub(crate) seats: Vec<Seat>,
    pub(crate) posts: Posts,
    ghost some: { 2 ≤ group.members },
    ghost small: { group.members ≤ 8 },
    ghost few: { group.faults ≤ 2 },
}

impl PaxosWorld {
    ghost use Rattle.std.specs.Prelude.{◌≡◌, ◌<◌, ◌++◌, ◌∷◌, [], ℕ, List, IsTrue, IfOk, IfErr, OnOk, OnErr, IsErrOf};
    ghost use Rattle.spl_edge.specs.Devices.{PairView, bench};
    ghost use Rattle.spl_acceptor.specs.{Worlds.{Happening, has_name, paxos_answer, paxos_world_after}, declared.message.Name.Name};
    ghost use Rattle.spl_paxos.specs.Lines.{happening_of};
    ghost use Rattle.spl_paxos_safety.specs.Written.{process_of};
    ghost use Rattle.spl_paxos_run.specs.{Faults.IsOfWorld, Places.{process_count, process_place, EachDisk, has_line_names}, Wholes.{StepsAt, group_of}};
    ghost use Rattle.spl_paxos_run.specs.Wholes.{WorldStands, ProcessHasPicked, HasFallen, HasFailedAt, ChangesFirst};

    /// Whether a line names no other processes than those of the run.
    pub fn knows(&self, line: &PaxosLine) -> bool
        ensures { result ≡ has_line_names (group_of self.now) line.now }
    {
        knows(self.group, line)
    }

    // Carries out a line at the process at a place, which is its own.
    fn step_at<D: StopDisk>(
        &mut self,
        alloc: Global,
        pairs: &mut Vec<Pair<D>>,
        place: u8,
        line: &PaxosLine,
    ) -> Result<SeatStep, JournalFault>
        requires stands { (es : List Happening) × WorldStands es self.old (bench D.view pairs.old.items) }
        requires known { IsTrue (has_name self.old.group (process_of (happening_of line.now))) }
        requires place { place ≡ process_place self.old.group (process_of (happening_of line.now)) }
        ensures group { self.new.group ≡ self.old.group }
        ensures posts { self.new.posts ≡ self.old.posts }
        ensures steps { (es : List Happening) → WorldStands es self.old (bench D.view pairs.old.items)
            → StepsAt self.old.group es (happening_of line.now) place self.old.seats.items self.new.seats.items
            (bench D.view pairs.old.items) (bench D.view pairs.new.items) result }
        ensures changes { ChangesFirst place (bench D.view pairs.old.items) (bench D.view pairs.new.items) }
    {
        let at = usize::from(place);
        self.seats[at].step(alloc, &mut pairs[at].first, self.group, &self.posts, line)
    }

    /// Carries out a line at its process, and answers it, after any lines of a run by whose world the processes, their disks and
    /// the messages stand: so they do after the line. A stop of a process that is up makes one pick of its disk, and no other
    /// line any. After an error each disk holds what its process kept before the line, or what it keeps after it, and the error
    /// is that the disk of the line's process failed, or that memory ran out.
    pub fn step<D: StopDisk>(
        &mut self,
        alloc: Global,
        pairs: &mut Vec<Pair<D>>,
        line: &PaxosLine,
    ) -> Result<PaxosAnswer, PaxosFault>
        requires stands { (es : List Happening) × WorldStands es self.old (bench D.view pairs.old.items) }
        requires known { IsTrue (has_line_names (group_of self.old) line.now) }
        ensures group { group_of self.new ≡ group_of self.old }
        ensures answer { (es : List Happening) → WorldStands es self.old (bench D.view pairs.old.items)
            → IfOk result (λ a. a ≡ paxos_answer (group_of self.old) (paxos_world_after (group_of self.old) es) (happening_of line.now)) }
        ensures stands { (es : List Happening) → WorldStands es self.old (bench D.view pairs.old.items)
            → OnOk result (WorldStands (es ++ happening_of line.now ∷ []) self.new (bench D.view pairs.new.items)) }
        ensures picked { (es : List Happening) (start : List PairView) → WorldStands es self.old (bench D.view pairs.old.items)
            → EachDisk (ProcessHasPicked (group_of self.old) es) (group_of self.old) start (bench D.view pairs.old.items)
            → OnOk result (EachDisk (ProcessHasPicked (group_of self.old) (es ++ happening_of line.now ∷ [])) (group_of self.old) start
            (bench D.view pairs.new.items)) }
        ensures fallen { (es : List Happening) (start : List PairView) → WorldStands es self.old (bench D.view pairs.old.items)
            → EachDisk (ProcessHasPicked (group_of self.old) es) (group_of self.old) start (bench D.view pairs.old.items)
            → OnErr result (EachDisk (HasFallen (group_of self.old) es (happening_of line.now)) (group_of self.old) start (bench D.view pairs.new.items)) }
        ensures failed { (es : List Happening) (start : List PairView) → WorldStands es self.old (bench D.view pairs.old.items)
            → EachDisk (ProcessHasPicked (group_of self.old) es) (group_of self.old) start (bench D.view pairs.old.items)
            → (n : Name) → IsErrOf result (PaxosFault.Disk n)
            → (n ≡ process_of (happening_of line.now)) × HasFailedAt (group_of self.old) n start (bench D.view pairs.new.items) }
        ensures only { IfErr result IsOfWorld }
        ensures changes { (k : ℕ) × (k < process_count (group_of self.old)) × ChangesFirst k (bench D.view pairs.old.items) (bench D.view pairs.new.items) }
    {
        let name = process_of(line);
        let place = place_of(self.group, name);
        match self.step_at(alloc, pairs, place, line) {
            Ok(SeatStep { answer, sends }) => match self.posts.post(alloc, name, sends) {
                Ok(()) => Ok(answer),
                Err(_) => Err(PaxosFault::NoMemory),
            },
            Err(fault) => Err(fault_at(name, fault)),
        }
    }
}
