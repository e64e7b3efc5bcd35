//! The watchers of all circuits.
ghost use Rattle.std.specs.{Prelude.{◌≡◌, [], false, IfOk, OnErr, OnOk}, Str.bytes_eq};
ghost use Rattle.spl_circuit.specs.Nodes.{CircuitId as Id};
ghost use Rattle.spl_cell_rules.specs.Cells.{Bound, Held};
ghost use Rattle.spl_delta.specs.{Kept.watchers_of, Watches.{IsHere, told_by, watch_circuit, watchers_after}};

use crate::answer::WatchAnswer;
use crate::group::Group;
use crate::line::WatchLine;
use spl_base::CircuitId;
use spl_circuit::Definition;
use spl_scabbard::Service;
use std::alloc::{AllocError, Global};
use std::collections::BTreeMap;
use std::marker::Model;

/// The watchers of a run, by their circuits. Contracts see the circuits that have any, or had a line of a watcher, with their
/// watchers.
#[derive(Drop)]
pub struct Watchers {
    groups: BTreeMap<CircuitId, Group>,
}

impl Model for Watchers {
    ghost use Rattle.spl_delta.specs.Kept.{Groups};

    ghost Value = { Groups };

    ghost view = { λ w. w.groups.entries };
}

impl Watchers {
    /// No watcher yet; nothing is allocated.
    pub fn new(alloc: Global) -> Watchers
        ensures { (c : Id) → watchers_of result c ≡ [] }
    {
        Watchers {
            groups: BTreeMap::new(alloc),
        }
    }

    // The watchers of a circuit are these.
    fn keep(&mut self, circuit: CircuitId, group: Group) -> Result<(), AllocError>
        ensures own { OnOk result (watchers_of self.new circuit ≡ group) }
        ensures others { (c : Id) → bytes_eq circuit c ≡ false → watchers_of self.new c ≡ watchers_of self.old c }
        ensures err { OnErr result ((c : Id) → watchers_of self.new c ≡ watchers_of self.old c) }
    {
        match self.groups.insert(circuit, group) {
            Ok(_) => Ok(()),
            Err(_) => Err(AllocError),
        }
    }

    /// The answer to the line of a watcher at a node that is bound to a definition, and where the circuit runs with this
    /// service. The watchers of its circuit are then as the answer says, and those of other circuits as before. Fails only
    /// where memory runs out, and leaves all of them then as they were.
    pub fn answer(
        &mut self,
        alloc: Global,
        definition: &Definition,
        service: &Service,
        line: &WatchLine,
    ) -> Result<WatchAnswer, AllocError>
        ensures answer { (h : Bound) → IsHere h definition.now service.now
            → IfOk result (λ a. a ≡ told_by h (watchers_of self.old (watch_circuit line.now)) line.now) }
        ensures after { (h : Bound) → IsHere h definition.now service.now
            → IfOk result (λ a. watchers_of self.new (watch_circuit line.now)
            ≡ watchers_after (Held h) (watchers_of self.old (watch_circuit line.now)) line.now a) }
        ensures others { (c : Id) → bytes_eq (watch_circuit line.now) c ≡ false → watchers_of self.new c ≡ watchers_of self.old c }
        ensures err { OnErr result ((c : Id) → watchers_of self.new c ≡ watchers_of self.old c) }
    {
        let circuit = line.circuit();
        if let Some(group) = self.groups.get_mut(&circuit) {
            return group.answer(alloc, definition, service, line);
        }
        let mut group = Group::new(alloc);
        let answer = group.answer(alloc, definition, service, line)?;
        self.keep(circuit, group)?;
        Ok(answer)
    }
}
