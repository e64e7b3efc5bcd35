//! A process of a run, up or down.

use crate::{Posts, Process, SeatStep};
use spl_acceptor::{Group, Name, PaxosAnswer, PaxosMsg, PaxosRefusal};
use spl_agree::Round;
use spl_edge::{Fill, StopDisk};
use spl_journal::JournalFault;
use spl_paxos::PaxosLine;
use std::alloc::{AllocError, Global};

/// A process of a run. While it is down its disk alone has what it keeps.
#[derive(Drop)]
pub struct Seat {
    pub(crate) name: Name,
    pub(crate) process: Option<Process>,
}

impl Seat {
    ghost use Rattle.std.specs.Prelude.{◌≡◌, ◌≤◌, ℕ, ⊤, List, Option, None, Some, IsTrue, MatchOption};
    ghost use Rattle.spl_edge.specs.Devices.{Image, image_now};
    ghost use Rattle.spl_acceptor.specs.{Acceptors.orders_own, Worlds.{PaxosCommitWorld, Happening, Votes, Leads, Delivers, Shows, Stops, Starts, has_name}};
    ghost use Rattle.spl_acceptor.specs.{Worlds.{paxos_answer, message_at, paxos_world_after}, declared.{group.Group.Group, kind.TheConstants.MEMBER}};
    ghost use Rattle.spl_acceptor.specs.declared.kind.TheConstants.{LEADER};
    ghost use Rattle.spl_paxos.specs.Lines.{happening_of};
    ghost use Rattle.spl_paxos_safety.specs.Written.{process_of};
    ghost use Rattle.spl_paxos_run.specs.{Posts.HoldsSent, Seats.{SeatStands, IsProcessSeated}, Steps.{SeatDoes, LeavesDisk}};

    // A vote of a member.
    fn vote<D: StopDisk>(
        &mut self,
        alloc: Global,
        disk: &mut D,
        round: Round,
        yes: bool,
    ) -> Result<SeatStep, JournalFault>
        requires kind { self.old.name.kind ≡ MEMBER }
        requires seated { IsProcessSeated self.old (image_now (D.view disk.old)) }
        ensures name { self.new.name ≡ self.old.name }
        ensures done { (g : Group) (w : PaxosCommitWorld) → SeatStands g w self.old (image_now (D.view disk.old))
            → SeatDoes g w (Votes self.old.name.number round yes) self.old.name self.new (D.view disk.old) (D.view disk.new) result }
        ensures disk { LeavesDisk (D.view disk.old) (D.view disk.new) result }
    {
        let Some(process) = &mut self.process else {
            return Ok(SeatStep::silent(alloc, PaxosAnswer::Refused(PaxosRefusal::Down)));
        };
        if process.voted(round).is_some() {
            return Ok(SeatStep::silent(alloc, PaxosAnswer::Refused(PaxosRefusal::Voted)));
        }
        match process.vote(alloc, disk, round, yes) {
            Ok(stepped) => Ok(SeatStep::of(stepped)),
            Err(fault) => Err(fault),
        }
    }

    // A turn of a leader.
    fn lead<D: StopDisk>(
        &mut self,
        alloc: Global,
        disk: &mut D,
        round: Round,
    ) -> Result<SeatStep, JournalFault>
        requires kind { self.old.name.kind ≡ LEADER }
        requires seated { IsProcessSeated self.old (image_now (D.view disk.old)) }
        ensures name { self.new.name ≡ self.old.name }
        ensures done { (g : Group) (w : PaxosCommitWorld) → SeatStands g w self.old (image_now (D.view disk.old))
            → SeatDoes g w (Leads self.old.name.number round) self.old.name self.new (D.view disk.old) (D.view disk.new) result }
        ensures disk { LeavesDisk (D.view disk.old) (D.view disk.new) result }
    {
        let Some(process) = &mut self.process else {
            return Ok(SeatStep::silent(alloc, PaxosAnswer::Refused(PaxosRefusal::Down)));
        };
        match process.lead(alloc, disk, round) {
            Ok(stepped) => Ok(SeatStep::of(stepped)),
            Err(fault) => Err(fault),
        }
    }

    // A message comes, or there is none of its number.
    fn deliver<D: StopDisk>(
        &mut self,
        alloc: Global,
        disk: &mut D,
        from: Name,
        message: Option<&PaxosMsg>,
    ) -> Result<SeatStep, JournalFault>
        requires own { (g : Group) × (w : PaxosCommitWorld) × SeatStands g w self.old (image_now (D.view disk.old))
            × MatchOption message ⊤ (λ m. IsTrue (orders_own g.members m.now)) }
        ensures name { self.new.name ≡ self.old.name }
        ensures done { (g : Group) (w : PaxosCommitWorld) (k : ℕ) → IsTrue (has_name g self.old.name) → SeatStands g w self.old (image_now (D.view disk.old))
            → MatchOption message.entry (message_at w from self.old.name k ≡ None) (λ m. message_at w from self.old.name k ≡ Some m.now)
            → SeatDoes g w (Delivers from self.old.name k) self.old.name self.new (D.view disk.old) (D.view disk.new) result }
        ensures disk { LeavesDisk (D.view disk.old) (D.view disk.new) result }
    {
        let Some(process) = &mut self.process else {
            return Ok(SeatStep::silent(alloc, PaxosAnswer::Refused(PaxosRefusal::Down)));
        };
        let Some(message) = message else {
            return Ok(SeatStep::silent(alloc, PaxosAnswer::Refused(PaxosRefusal::NoMessage)));
        };
        match process.hear(alloc, disk, from, message) {
            Ok(stepped) => Ok(SeatStep::of(stepped)),
            Err(fault) => Err(fault),
        }
    }

    // What a member has decided in a round.
    fn show(&self, round: Round) -> PaxosAnswer
        requires kind { self.now.name.kind ≡ MEMBER }
        ensures { (g : Group) (w : PaxosCommitWorld) (o : Option Image) → SeatStands g w self.now o
            → result ≡ paxos_answer g w (Shows self.now.name.number round) }
    {
        match &self.process {
            None => PaxosAnswer::Refused(PaxosRefusal::Down),
            Some(process) => match process.decision(round) {
                None => PaxosAnswer::Undecided,
                Some(commit) => PaxosAnswer::Decided(commit),
            },
        }
    }

    // The process goes down: what it has in memory is forgotten, and its disk picks what was synced last. Nothing happens if
    // it is down.
    fn stop<D: StopDisk>(&mut self, alloc: Global, disk: &mut D) -> Result<SeatStep, JournalFault>
        requires seated { IsProcessSeated self.old (image_now (D.view disk.old)) }
        ensures name { self.new.name ≡ self.old.name }
        ensures done { (g : Group) (w : PaxosCommitWorld) → IsTrue (has_name g self.old.name) → SeatStands g w self.old (image_now (D.view disk.old))
            → SeatDoes g w (Stops self.old.name) self.old.name self.new (D.view disk.old) (D.view disk.new) result }
        ensures disk { LeavesDisk (D.view disk.old) (D.view disk.new) result }
    {
        if self.process.is_none() {
            return Ok(SeatStep::silent(alloc, PaxosAnswer::IsDown));
        }
        match disk.pick(alloc, Fill::Old) {
            Ok(()) => {
                self.process = None;
                Ok(SeatStep::silent(alloc, PaxosAnswer::IsDown))
            }
            Err(AllocError) => Err(JournalFault::NoMemory),
        }
    }

    // The process comes up, with what the records of its disk make. Nothing happens if it is up.
    fn start<D: StopDisk>(
        &mut self,
        alloc: Global,
        disk: &mut D,
        group: Group,
    ) -> Result<SeatStep, JournalFault>
        requires members { (2 ≤ group.members) × (group.members ≤ 8) }
        requires faults { group.faults ≤ 2 }
        requires named { IsTrue (has_name group self.old.name) }
        requires seated { IsProcessSeated self.old (image_now (D.view disk.old)) }
        ensures name { self.new.name ≡ self.old.name }
        ensures done { (w : PaxosCommitWorld) → SeatStands group w self.old (image_now (D.view disk.old))
            → SeatDoes group w (Starts self.old.name) self.old.name self.new (D.view disk.old) (D.view disk.new) result }
        ensures disk { LeavesDisk (D.view disk.old) (D.view disk.new) result }
    {
        if self.process.is_some() {
            return Ok(SeatStep::silent(alloc, PaxosAnswer::IsUp));
        }
        match Process::open(alloc, disk, group, self.name) {
            Ok(process) => {
                self.process = Some(process);
                Ok(SeatStep::silent(alloc, PaxosAnswer::IsUp))
            }
            Err(fault) => Err(fault),
        }
    }

    /// Carries out a line at its process, after any lines of a run by whose world the process, its disk and the messages stand:
    /// so they do after the line. A stop of a process that is up makes one pick of its disk. `Disk` comes only if the disk
    /// failed in the call, and the bytes of the disk are a journal. After an error the disk holds what the process kept before
    /// the line, or what it keeps after it.
    pub(crate) fn step<D: StopDisk>(
        &mut self,
        alloc: Global,
        disk: &mut D,
        group: Group,
        posts: &Posts,
        line: &PaxosLine,
    ) -> Result<SeatStep, JournalFault>
        requires members { (2 ≤ group.members) × (group.members ≤ 8) }
        requires faults { group.faults ≤ 2 }
        requires named { IsTrue (has_name group self.old.name) }
        requires own { process_of (happening_of line.now) ≡ self.old.name }
        requires stands { (es : List Happening) × SeatStands group (paxos_world_after group es) self.old (image_now (D.view disk.old))
            × HoldsSent posts.now (paxos_world_after group es).sent }
        ensures name { self.new.name ≡ self.old.name }
        ensures done { (es : List Happening) → SeatStands group (paxos_world_after group es) self.old (image_now (D.view disk.old))
            → HoldsSent posts.now (paxos_world_after group es).sent
            → SeatDoes group (paxos_world_after group es) (happening_of line.now) self.old.name self.new (D.view disk.old) (D.view disk.new) result }
        ensures disk { LeavesDisk (D.view disk.old) (D.view disk.new) result }
    {
        match line {
            PaxosLine::Vote { round, yes, .. } => self.vote(alloc, disk, *round, *yes),
            PaxosLine::Lead { round, .. } => self.lead(alloc, disk, *round),
            PaxosLine::Deliver { from, to, number } => {
                self.deliver(alloc, disk, *from, posts.message(*from, *to, *number))
            }
            PaxosLine::Show { round, .. } => Ok(SeatStep::silent(alloc, self.show(*round))),
            PaxosLine::Stop(_) => self.stop(alloc, disk),
            PaxosLine::Start(_) => self.start(alloc, disk, group),
        }
    }
}
