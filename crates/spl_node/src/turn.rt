//! Several events at a node in one turn, whose records are kept together.
ghost use Rattle.std.specs.{Prelude.{◌≡◌, ◌⊎◌, ◌++◌, ◌∷◌, [], ℕ, List, false, map, OnOk, IfOk, IsErrOf}, List.{AllByRecursion, list_any}};
ghost use Rattle.std.specs.{List.Sorted.IsStrictlySortedBy, Option.option_copied, Ordering.nat_cmp, Cmp.Lexicographic.slice_cmp, Str.bytes_eq};
ghost use Rattle.spl_circuit.specs.Nodes.{CircuitId as Circuit, NodeId as Id};
ghost use Rattle.spl_cell.specs.Due.{due};
ghost use Rattle.spl_edge.specs.Devices.{image_now, pair_view};
ghost use Rattle.spl_journal.specs.Records.{AreGood};
ghost use Rattle.spl_snapshot.specs.{Counting.{HasRisen, IfBoth, PairLeavesInTurn, PairOnward, PairTellsAs, IfPairTells}, Pairs.{PairStands, is_second}};
ghost use Rattle.spl_snapshot.specs.Pairs.{PairStandsOn};
ghost use Rattle.spl_cell_rules.specs.{Cells.{Cell as CellState, is_bound, site_at}, Valid.IsFor};
ghost use Rattle.spl_node.specs.{Kept.state_or_empty, Records.is_record, Stands.{IfStand, NodeStandsOn, StandFor, circuit_cell, here_of, is_node_halted}};
ghost use Rattle.spl_node.specs.Turns.{At, Handled, MayBeSent, cells_through, given_by_events, given_in};

use crate::{Node, Outcome};
use spl_base::{CircuitId, Listing, NodeId};
use spl_cell::Cell;
use spl_edge::{Disk, Pair};
use spl_journal::{JournalFault, Records};
use spl_state::RunCache;
use spl_wire::Event;
use std::alloc::{AllocError, Global};

/// A node in a turn: its cells are ahead of its disks by the records of the events that it handled. What
/// these gave comes out of `keep` alone, so that nothing of it leaves before the records are kept.
#[derive(Drop)]
pub struct Turn {
    node: Node,
    records: Records,
    given: Vec<Outcome>,
}

impl Turn {
    /// A turn of a node, in which nothing was handled yet.
    pub fn new(alloc: Global, node: Node) -> Turn
        requires running { is_node_halted node ≡ false }
        ensures node { result.node ≡ node }
        ensures good { AreGood is_record result.records }
        ensures nothing { (before : Circuit → CellState) → ((c : Circuit) → circuit_cell node c ≡ before c) → Handled (here_of node) before [] result }
    {
        Turn {
            node,
            records: Records::new(alloc),
            given: Vec::new(alloc),
        }
    }

    /// The id of the node.
    pub fn here(&self) -> NodeId
        ensures { result ≡ here_of self.now.node }
    {
        self.node.here()
    }

    /// The ids of the circuits that are bound, as the events so far left them, in order. The only error is that memory ran
    /// out.
    pub fn roll(&self, alloc: Global) -> Result<Listing<CircuitId>, AllocError>
        ensures sorted { IfOk result (λ ids. IsStrictlySortedBy (slice_cmp nat_cmp) ids) }
        ensures bound { IfOk result (λ ids. (c : Circuit) → list_any (bytes_eq c) ids ≡ is_bound (circuit_cell self.now.node c)) }
    {
        self.node.roll(alloc)
    }

    /// Makes the digests of the state of a circuit's cell again, so that reporting its root costs nothing; nothing that is
    /// seen changes.
    pub fn renew(&mut self, circuit: &CircuitId, cache: &mut RunCache)
        ensures { self.new ≡ self.old }
    {
        self.node.renew(circuit, cache);
    }

    /// The cell of a circuit, as the events so far left it; None where nothing is kept of it.
    pub fn cell(&self, circuit: &CircuitId) -> Option<&Cell>
        ensures { state_or_empty (option_copied result) ≡ circuit_cell self.now.node circuit.now }
    {
        self.node.cell(circuit)
    }

    /// Whether a tick has anything to do at the cell of a circuit; None where it isn't bound and open.
    pub fn due(&self, circuit: &CircuitId) -> Option<bool>
        ensures { result ≡ due (site_at (here_of self.now.node) circuit.now) (circuit_cell self.now.node circuit.now) }
    {
        self.node.due(circuit)
    }

    /// Handles an event at the cell of a circuit. It calls no disk, and holds back what the event gives. The only
    /// error is that memory ran out, and after it nothing more can be kept: the node is read again from its disks.
    pub fn handle(
        &mut self,
        alloc: Global,
        circuit: &CircuitId,
        event: &Event,
    ) -> Result<(), AllocError>
        requires running { is_node_halted self.old.node ≡ false }
        requires own { IsFor (site_at (here_of self.old.node) circuit.now) event.now }
        ensures here { here_of self.new.node ≡ here_of self.old.node }
        ensures pairing { self.new.node.pairing ≡ self.old.node.pairing }
        ensures running { OnOk result (is_node_halted self.new.node ≡ false) }
        ensures good { OnOk result (AreGood is_record self.old.records → AreGood is_record self.new.records) }
        ensures handled { OnOk result ((here : Id) (before : Circuit → CellState) (es : List At) → Handled here before es self.old
            → Handled here before (es ++ (circuit.now, event.now) ∷ []) self.new) }
    {
        let outcome = self
            .node
            .step_ahead(alloc, &mut self.records, circuit, event)?;
        self.given.push(outcome)?;
        Ok(())
    }

    /// Keeps the records of the turn by one append, two syncs whatever their number, and then hands out
    /// what its events gave, in order. Where nothing changed no disk is called. After an error nothing is
    /// handed out, and the node is read again from its disks: they stand for the cells before all of the
    /// turn or for those after it.
    pub fn keep<D: Disk>(
        self,
        alloc: Global,
        disks: &mut Pair<D>,
    ) -> Result<(Node, Vec<Outcome>), JournalFault>
        requires running { is_node_halted self.node ≡ false }
        requires good { AreGood is_record self.records }
        requires pair { PairStandsOn is_record self.node.pairing (pair_view D.view disks.old) }
        ensures here { IfOk result (λ r. here_of r.0 ≡ here_of self.node) }
        ensures running { IfOk result (λ r. is_node_halted r.0 ≡ false) }

        // What is handed out is what the events give, and the node has the cells after them.
        ensures given { IfOk result (λ r. (here : Id) (before : Circuit → CellState) (es : List At) → Handled here before es self
            → map given_in r.1.items ≡ given_by_events here before es) }
        ensures sendable { IfOk result (λ r. (here : Id) (before : Circuit → CellState) (es : List At) → Handled here before es self
            → AllByRecursion MayBeSent r.1.items) }
        ensures cells { IfOk result (λ r. (here : Id) (before : Circuit → CellState) (es : List At) → Handled here before es self
            → (c : Circuit) → circuit_cell r.0 c ≡ cells_through here before es c) }

        // A stop at any moment of the call leaves disks that stand for the cells before the turn or for those after it.
        ensures any_moment { (here : Id) (before : Circuit → CellState) (es : List At) → Handled here before es self
            → IfStand here before (pair_view D.view disks.old)
            (PairLeavesInTurn (is_second self.node.pairing) (pair_view D.view disks.old) (pair_view D.view disks.new)
            (λ c d. StandFor here before c d ⊎ StandFor here (cells_through here before es) c d)) }
        ensures stands { IfOk result (λ r. (here : Id) (before : Circuit → CellState) (es : List At) → Handled here before es self
            → IfStand here before (pair_view D.view disks.old)
            (NodeStandsOn r.0 (pair_view D.view disks.new))) }
        ensures pair { IfOk result (λ r. PairStandsOn is_record r.0.pairing (pair_view D.view disks.new)) }
        ensures told { OnOk result (PairTellsAs (pair_view D.view disks.old) (pair_view D.view disks.new)) }
        ensures not { (at : ℕ) → IsErrOf result (JournalFault.NotAJournal at) → ⊥ }
        ensures failed { IsErrOf result JournalFault.Disk → HasRisen (pair_view D.view disks.old) (pair_view D.view disks.new) }
        ensures onward { PairOnward (pair_view D.view disks.old) (pair_view D.view disks.new) }
    {
        let mut turn = self;
        turn.node.keep_turn(alloc, disks, &turn.records)?;
        Ok((turn.node, turn.given))
    }
}
