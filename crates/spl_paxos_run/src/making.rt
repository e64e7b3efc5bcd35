//! The processes of a run, where nothing happened yet.
ghost use Rattle.std.specs.Prelude.{◌≡◌, ◌≤◌, ◌++◌, ◌∷◌, [], IsTrue, IfOk, IfErr, IfSome, OnOk, IsErrOf, length};
ghost use Rattle.spl_edge.specs.Devices.{Onward, Rose, bench, image_now};
ghost use Rattle.spl_journal.specs.Records.{IsBlank};
ghost use Rattle.spl_acceptor.specs.{Worlds.{first_paxos_world, has_name}, declared.message.Name.Name};
ghost use Rattle.spl_paxos_run.specs.{Faults.IsOfWorld, Places.{process_count, EachDisk}, Seats.SeatStands, Wholes.{group_of, WorldStands, ProcessHasPicked}};
ghost use Rattle.spl_paxos_run.specs.Wholes.{AreSpared, AreFresh, AreProcessesUnmade};

use crate::fault::{PaxosFault, fault_at};
use crate::place::{name_at, process_count};
use crate::{PaxosWorld, Posts, Process, Seat};
use spl_acceptor::{Group, Name};
use spl_edge::{Pair, StopDisk};
use std::alloc::{AllocError, Global};

// A process that is up, over a blank disk.
fn seat_at<D: StopDisk>(
    alloc: Global,
    disk: &mut D,
    group: Group,
    name: Name,
) -> Result<Seat, PaxosFault>
    requires members { (2 ≤ group.members) × (group.members ≤ 8) }
    requires faults { group.faults ≤ 2 }
    requires named { IsTrue (has_name group name) }
    requires blank { IfSome (image_now (D.view disk.old)) IsBlank }
    ensures name { IfOk result (λ s. s.name ≡ name) }
    ensures stands { IfOk result (λ s. SeatStands group (first_paxos_world group) s (image_now (D.view disk.new))) }
    ensures failed { (n : Name) → IsErrOf result (PaxosFault.Disk n) → (n ≡ name) × Rose (D.view disk.old).faults (D.view disk.new).faults }
    ensures only { IfErr result IsOfWorld }
    ensures onward { Onward (D.view disk.old) (D.view disk.new) }
{
    match Process::create(alloc, disk, group, name) {
        Ok(process) => Ok(Seat {
            name,
            process: Some(process),
        }),
        Err(fault) => Err(fault_at(name, fault)),
    }
}

// One process more.
fn join(seats: &mut Vec<Seat>, seat: Seat) -> Result<(), AllocError>
    ensures { OnOk result (seats.new.items ≡ seats.old.items ++ seat ∷ []) }
{
    seats.push(seat)?;
    Ok(())
}

impl PaxosWorld {
    /// The processes of a run, each of them up, over the first disks of as many pairs, which are blank. Nothing happened yet.
    /// They are made by their places. After an error one of them may be half made, and its disk may have failed; each other is
    /// made or not begun.
    pub fn new<D: StopDisk>(
        alloc: Global,
        group: Group,
        pairs: &mut Vec<Pair<D>>,
    ) -> Result<PaxosWorld, PaxosFault>
        requires members { (2 ≤ group.members) × (group.members ≤ 8) }
        requires faults { group.faults ≤ 2 }
        requires room { process_count group ≤ length pairs.old.items }
        requires fresh { AreFresh group (bench D.view pairs.old.items) }
        ensures group { IfOk result (λ w. group_of w ≡ group) }
        ensures stands { IfOk result (λ w. WorldStands [] w (bench D.view pairs.new.items)) }
        ensures picked { OnOk result (EachDisk (ProcessHasPicked group []) group (bench D.view pairs.old.items) (bench D.view pairs.new.items)) }
        ensures unmade { IfErr result (λ f. AreProcessesUnmade group f (bench D.view pairs.old.items) (bench D.view pairs.new.items)) }
        ensures only { IfErr result IsOfWorld }
        ensures spared { AreSpared group (bench D.view pairs.old.items) (bench D.view pairs.new.items) }
    {
        let mut seats = Vec::new(alloc);
        'places: for place in 0..process_count(group) {
            let name = name_at(group, place);
            match seat_at(alloc, &mut pairs[usize::from(place)].first, group, name) {
                Ok(seat) => match join(&mut seats, seat) {
                    Ok(()) => {}
                    Err(AllocError) => return Err(PaxosFault::NoMemory),
                },
                Err(fault) => return Err(fault),
            }
        }
        Ok(PaxosWorld {
            group,
            seats,
            posts: Posts::new(alloc),
        })
    }
}
