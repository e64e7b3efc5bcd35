//! A watcher of a circuit.
ghost use Rattle.std.specs.{Prelude.{◌≡◌, ◌+◌, IfOk, OnErr, Some}, Str.bytes_eq};
ghost use Rattle.spl_cell_rules.specs.Cells.{Bound};
ghost use Rattle.spl_delta.specs.Watches.{IsHere, is_named, pulled_by, taken_count};

use crate::answer::WatchAnswer;
use crate::taker::Taker;
use spl_agree::Place;
use spl_base::Label;
use spl_circuit::Definition;
use spl_scabbard::Service;
use std::alloc::{AllocError, Global};
use std::marker::Model;

/// A watcher: its name, the place at which it began, and what takes for it.
#[derive(Drop)]
pub(crate) struct Watcher {
    name: Label,
    start: Place,
    taker: Taker,
}

impl Model for Watcher {
    ghost use Rattle.spl_delta.specs.Watches.{Watcher as Watching};

    ghost Value = { Watching };

    ghost view = { λ w. record { name = w.name; definition = w.taker.definition; start = w.start; next = w.taker.next } };
}

impl Watcher {
    /// A watcher of the circuit of this definition, which begins at a place. Fails only where memory runs out.
    pub(crate) fn new(
        alloc: Global,
        name: Label,
        definition: &Definition,
        start: Place,
    ) -> Result<Watcher, AllocError>
        ensures { IfOk result (λ w. w ≡ record { name = name; definition = definition.now; start = start; next = start }) }
    {
        Ok(Watcher {
            name,
            start,
            taker: Taker::new(alloc, definition, start)?,
        })
    }

    /// Whether it has this name.
    pub(crate) fn is_named(&self, name: &Label) -> bool
        ensures { result ≡ is_named name.now self.now }
    {
        self.name == *name
    }

    /// What it takes at a node that is bound to a definition and has this service: of its own circuit alone. Fails only where
    /// memory runs out, and is then as it was.
    pub(crate) fn pull(
        &mut self,
        alloc: Global,
        definition: &Definition,
        service: &Service,
        count: u32,
    ) -> Result<WatchAnswer, AllocError>
        ensures answer { (h : Bound) → IsHere h definition.now service.now → IfOk result (λ a. a ≡ pulled_by h count (Some self.old)) }
        ensures moved { IfOk result (λ a. self.new ≡ record self.old { next = self.old.next + taken_count a }) }
        ensures err { OnErr result (self.new ≡ self.old) }
    {
        if !self.taker.fits(definition) {
            return Ok(WatchAnswer::WrongCircuit);
        }
        let deltas = self.taker.take(alloc, service, count)?;
        Ok(WatchAnswer::Taken(deltas))
    }
}
