//! A node whose cells are ahead of its disks by the records of a turn.
ghost use Rattle.std.specs.Prelude.{◌≡◌, ◌<◌, ℕ, true, false, length, OnOk, OnErr, IfOk};
ghost use Rattle.spl_circuit.specs.Nodes.{CircuitId};
ghost use Rattle.spl_edge.specs.Devices.{pair_view};
ghost use Rattle.spl_journal.specs.Records.{AreGood};
ghost use Rattle.spl_snapshot.specs.{Calls.Ends, Counting.HasRisen, Pairs.PairStandsOn};
ghost use Rattle.spl_cell_rules.specs.{Cells.{Cell as CellState, site_at}, Valid.IsFor};
ghost use Rattle.spl_node.specs.{Records.is_record, Stands.{here_of, circuit_cell, is_node_halted}, Steps.{Gives, StaysBounded, cells_at, plan_at}};
ghost use Rattle.spl_node.specs.Turns.{RecordsLead, LeavesTurn};

use crate::done::Done;
use crate::{Node, Outcome};
use spl_base::CircuitId;
use spl_edge::{Disk, Pair};
use spl_journal::{JournalFault, Records};
use spl_wire::Event;
use std::alloc::{AllocError, Global};

impl Node {
    // An event at the cell of a circuit. Where it changes the cell, the record of the changes joins
    // those of a turn, and no disk is called: what the event gives is held back until `keep_turn`
    // has kept them. After an error, which comes only when memory runs out, the node is halted.
    pub(crate) fn step_ahead(
        &mut self,
        alloc: Global,
        turn: &mut Records,
        circuit: &CircuitId,
        event: &Event,
    ) -> Result<Outcome, AllocError>
        requires running { is_node_halted self.old ≡ false }
        requires own { IsFor (site_at (here_of self.old) circuit.now) event.now }
        ensures here { here_of self.new ≡ here_of self.old }
        ensures gives { IfOk result (Gives (plan_at self.old circuit.now event.now)) }

        // The plan is carried out at the cell of the circuit, and the other cells stay.
        ensures cells { OnOk result ((c : CircuitId) → circuit_cell self.new c ≡ cells_at self.old circuit.now event.now c) }

        // The records of the turn lead from where they began to the cells of now.
        ensures leads { OnOk result ((before : CircuitId → CellState) → RecordsLead (here_of self.old) before (circuit_cell self.old) turn.old
            → RecordsLead (here_of self.old) before (circuit_cell self.new) turn.new) }
        ensures good { OnOk result (AreGood is_record turn.old → AreGood is_record turn.new) }
        ensures pairing { self.new.pairing ≡ self.old.pairing }
        ensures halted { OnErr result (is_node_halted self.new ≡ true) }
        ensures running { OnOk result (is_node_halted self.new ≡ false) }
    {
        let done = match self.cells.handle(alloc, *circuit, event) {
            Ok(done) => done,
            Err(AllocError) => {
                self.halted = true;
                return Err(AllocError);
            }
        };
        let Done {
            answer,
            bytes,
            sends,
        } = done;
        let Some(bytes) = bytes else {
            return Ok(Outcome {
                answer,
                sends,
                changed: false,
            });
        };
        if let Err(AllocError) = turn.take(bytes) {
            self.halted = true;
            return Err(AllocError);
        }
        Ok(Outcome {
            answer,
            sends,
            changed: true,
        })
    }

    // Keeps the records of a turn by one append, and where that leaves no room for more writes all
    // cells again on the other disk. Where there are none no disk is called. After an error the node
    // is halted.
    pub(crate) fn keep_turn<D: Disk>(
        &mut self,
        alloc: Global,
        disks: &mut Pair<D>,
        turn: &Records,
    ) -> Result<(), JournalFault>
        requires running { is_node_halted self.old ≡ false }
        requires good { AreGood is_record turn.now }
        requires pair { PairStandsOn is_record self.old.pairing (pair_view D.view disks.old) }
        ensures here { here_of self.new ≡ here_of self.old }
        ensures cells { (c : CircuitId) → circuit_cell self.new c ≡ circuit_cell self.old c }

        // Where the records lead from some cells to those of now, a stop at any moment of the call leaves disks that stand for
        // the former or the latter; after Ok for the latter.
        ensures leaves { LeavesTurn turn.now result self.old self.new (pair_view D.view disks.old) (pair_view D.view disks.new) }
        ensures bound { StaysBounded (0 < length turn.now) result self.old self.new }
        ensures ends { Ends result (is_node_halted self.new) (HasRisen (pair_view D.view disks.old) (pair_view D.view disks.new))
            (pair_view D.view disks.old) (pair_view D.view disks.new) }
    {
        if turn.as_slice().is_empty() {
            return Ok(());
        }
        self.cells.is_ordered();
        if let Err(fault) = self.pairing.keep_all(alloc, disks, turn, &self.cells) {
            self.halted = true;
            return Err(fault);
        }
        Ok(())
    }
}
