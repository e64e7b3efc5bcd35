//! A node over its two disks.
ghost use Rattle.std.specs.{Prelude.{◌≡◌, ◌≢◌, ◌<◌, [], ℕ, true, false, OnOk, IfOk, IfSome, IsErrOf}, List.{list_any, Sorted.IsStrictlySortedBy}};
ghost use Rattle.std.specs.{Option.option_copied, Ordering.nat_cmp, Cmp.Lexicographic.slice_cmp, Str.bytes_eq};
ghost use Rattle.spl_circuit.specs.Nodes.{NodeId, CircuitId};
ghost use Rattle.spl_edge.specs.Devices.{Onward, Rose, image_now, pair_view};
ghost use Rattle.spl_journal.specs.{Journals.{base_of, epoch_of}, Records.IsBlank};
ghost use Rattle.spl_snapshot.specs.{Calls.Ends, Counting.{chosen, TellsAs, HasRisen}, Pairs.{PairStandsOn, is_second, journal_in}};
ghost use Rattle.spl_cell_rules.specs.{Cells.{Empty, is_bound, site_at}, Valid.IsFor};
ghost use Rattle.spl_cell.specs.Due.{due};
ghost use Rattle.spl_node.specs.{Kept.state_or_empty, Records.is_record, Stands.{NodeStandsOn, here_of, circuit_cell, is_node_halted}, Steps.Gives};
ghost use Rattle.spl_node.specs.Steps.{LeavesStep, StaysBounded, StepCalls, cells_at, changes_at, plan_at};

use crate::CellForm;
use crate::cells::Cells;
use crate::done::Done;
use spl_base::{CircuitId, Listing, NodeId};
use spl_cell::Cell;
use spl_edge::{Disk, Pair};
use spl_journal::JournalFault;
use spl_snapshot::{Pairing, appends_to_pairs_are_kept_or_lost, format_pair};
use spl_state::RunCache;
use spl_wire::{Answer, Event, SendList};
use std::alloc::{AllocError, Global};

/// A node: its cells, and the journals on its disks, which make them again.
#[derive(Drop)]
pub struct Node {
    pub(crate) cells: Cells,
    pub(crate) pairing: Pairing<CellForm>,
    pub(crate) halted: bool,
}

/// What an event gave: an answer, and messages in the order in which they are sent.
#[derive(Drop)]
pub struct Outcome {
    pub answer: Answer,
    pub sends: SendList,
    /// Whether the event had changes, so that their record is on the disks.
    pub changed: bool,
}

impl Node {
    /// A node where nothing happened, over two blank disks; the journal is made on the first, by
    /// four calls.
    pub fn create<D: Disk>(
        alloc: Global,
        here: NodeId,
        disks: &mut Pair<D>,
    ) -> Result<Node, JournalFault>
        requires first { IfSome (image_now (D.view disks.old.first)) IsBlank }
        requires second { IfSome (image_now (D.view disks.old.second)) IsBlank }
        ensures here { IfOk result (λ n. here_of n ≡ here) }
        ensures empty { IfOk result (λ n. (c : CircuitId) → circuit_cell n c ≡ Empty) }
        ensures running { IfOk result (λ n. is_node_halted n ≡ false) }
        ensures stands { IfOk result (λ n. NodeStandsOn n (pair_view D.view disks.new)) }
        ensures told_first { OnOk result (TellsAs (image_now (D.view disks.old.first)) (image_now (D.view disks.new.first))) }
        ensures base { IfOk result (λ n. (is_second n.pairing ≡ false) × (epoch_of (journal_in n.pairing) ≡ 1) × (base_of (journal_in n.pairing) ≡ 18)) }
        ensures not { (at : ℕ) → IsErrOf result (JournalFault.NotAJournal at) → ⊥ }
        ensures failed { IsErrOf result JournalFault.Disk → Rose (D.view disks.old.first).faults (D.view disks.new.first).faults }
        ensures on_first { Onward (D.view disks.old.first) (D.view disks.new.first) }
        ensures second { disks.new.second ≡ disks.old.second }
    {
        let pairing = format_pair::<CellForm, D>(alloc, disks)?;
        Ok(Node {
            cells: Cells::new(alloc, here),
            pairing,
            halted: false,
        })
    }

    /// The id of the node.
    pub fn here(&self) -> NodeId
        ensures { result ≡ here_of self.now }
    {
        self.cells.here()
    }

    /// Whether a call failed, so that the disks have to be read again.
    pub fn is_halted(&self) -> bool
        ensures { result ≡ is_node_halted self.now }
    {
        self.halted || self.pairing.halted()
    }

    /// Whether a tick has anything to do at the cell of a circuit; None where it isn't bound and
    /// open.
    pub fn due(&self, circuit: &CircuitId) -> Option<bool>
        ensures { result ≡ due (site_at (here_of self.now) circuit.now) (circuit_cell self.now circuit.now) }
    {
        self.cells.due(circuit)
    }

    /// The cell of a circuit; None where nothing is kept of it.
    pub fn cell(&self, circuit: &CircuitId) -> Option<&Cell>
        ensures { state_or_empty (option_copied result) ≡ circuit_cell self.now circuit.now }
    {
        self.cells.cell(circuit)
    }

    /// 0 where the journal on the first disk counts, and 1 where that on the second does.
    pub fn counting(&self) -> u8
        ensures { result ≡ chosen (is_second self.now.pairing) 0 1 }
    {
        self.pairing.counting()
    }

    /// Makes the digests of the state of a circuit's cell again, so that reporting its root costs
    /// nothing; nothing that is seen changes.
    pub fn renew(&mut self, circuit: &CircuitId, cache: &mut RunCache)
        ensures { self.new ≡ self.old }
    {
        self.cells.renew(circuit, cache);
    }

    /// An event at the cell of a circuit. Where it changes the cell, the record of the changes is
    /// kept before the answer comes, and where that leaves no room for more, all cells are written
    /// again on the other disk. After an error the node is halted.
    #[inline(always)]
    pub fn step<D: Disk>(
        &mut self,
        alloc: Global,
        disks: &mut Pair<D>,
        circuit: &CircuitId,
        event: &Event,
    ) -> Result<Outcome, JournalFault>
        requires running { is_node_halted self.old ≡ false }
        requires own { IsFor (site_at (here_of self.old) circuit.now) event.now }
        requires pair { PairStandsOn is_record self.old.pairing (pair_view D.view disks.old) }
        ensures here { here_of self.new ≡ here_of self.old }
        ensures gives { IfOk result (Gives (plan_at self.old circuit.now event.now)) }

        // The plan is carried out at the cell of the circuit, and the other cells stay.
        ensures cells { OnOk result ((c : CircuitId) → circuit_cell self.new c ≡ cells_at self.old circuit.now event.now c) }

        // A stop at any moment of the call leaves disks that stand for the cells before the event or for those after it; after Ok for those after it.
        ensures leaves { LeavesStep circuit.now event.now result self.old self.new (pair_view D.view disks.old) (pair_view D.view disks.new) }
        ensures calls { StepCalls D.view circuit.now event.now result self.old self.new disks.old disks.new }
        ensures bound { StaysBounded (changes_at self.old circuit.now event.now ≢ []) result self.old self.new }
        ensures ends { Ends result (is_node_halted self.new) (HasRisen (pair_view D.view disks.old) (pair_view D.view disks.new))
            (pair_view D.view disks.old) (pair_view D.view disks.new) }
    {
        let done = match self.cells.handle(alloc, *circuit, event) {
            Ok(done) => done,
            Err(AllocError) => {
                self.halted = true;
                return Err(JournalFault::NoMemory);
            }
        };
        let Done {
            answer,
            bytes,
            sends,
        } = done;
        let Some(bytes) = bytes else {
            return Ok(Outcome {
                answer,
                sends,
                changed: false,
            });
        };
        self.cells.is_ordered();
        appends_to_pairs_are_kept_or_lost();
        if let Err(fault) = self.pairing.keep(alloc, disks, bytes.bytes(), &self.cells) {
            self.halted = true;
            return Err(fault);
        }
        Ok(Outcome {
            answer,
            sends,
            changed: true,
        })
    }

    /// The ids of the circuits that are bound here, in order. The only error is that memory ran out.
    pub fn roll(&self, alloc: Global) -> Result<Listing<CircuitId>, AllocError>
        ensures sorted { IfOk result (λ ids. IsStrictlySortedBy (slice_cmp nat_cmp) ids) }
        ensures bound { IfOk result (λ ids. (c : CircuitId) → list_any (bytes_eq c) ids ≡ is_bound (circuit_cell self.now c)) }
    {
        self.cells.is_ordered();
        self.cells.bound(alloc)
    }
}
