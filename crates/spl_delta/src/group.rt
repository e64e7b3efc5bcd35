//! The watchers of one circuit.
ghost use Rattle.std.specs.{Prelude.{◌≡◌, [], IfOk, List, OnErr, ℕ}, List.position_from};
ghost use Rattle.spl_cell_rules.specs.Cells.{Bound, Held};
ghost use Rattle.spl_delta.specs.Watches.{IsHere, is_named, pulled_by, told_by, watched, watcher_named, watchers_after};
ghost use Rattle.spl_delta.specs.declared.line.WatchLine.TheVariants.{Pull, Watch};

use crate::answer::WatchAnswer;
use crate::line::WatchLine;
use crate::watcher::Watcher;
use spl_agree::Place;
use spl_base::Label;
use spl_circuit::Definition;
use spl_scabbard::Service;
use std::alloc::{AllocError, Global};
use std::marker::Model;

/// A circuit has at most this many watchers.
pub const MOST_WATCHERS: u8 = 16;

/// The watchers of one circuit, in the order in which they came. Contracts see the list.
#[derive(Drop)]
pub(crate) struct Group {
    watchers: Vec<Watcher>,
}

impl Model for Group {
    ghost use Rattle.std.specs.Prelude.{List};
    ghost use Rattle.spl_delta.specs.Watches.{Watcher as Watching};

    ghost Value = { List Watching };

    ghost view = { λ g. g.watchers.items };
}

impl Group {
    /// No watcher yet; nothing is allocated.
    pub(crate) fn new(alloc: Global) -> Group
        ensures { result ≡ [] }
    {
        Group {
            watchers: Vec::new(alloc),
        }
    }

    // Where the watcher of a name stands.
    fn position(&self, name: &Label) -> Option<usize>
        ensures { result ≡ position_from (is_named name.now) 0 self.now }
    {
        self.watchers
            .iter()
            .position(|watcher| watcher.is_named(name))
    }

    // One watcher more, where the circuit may have it.
    fn watch(
        &mut self,
        alloc: Global,
        definition: &Definition,
        service: &Service,
        name: Label,
        place: Place,
    ) -> Result<WatchAnswer, AllocError>
        ensures answer { (h : Bound) → IsHere h definition.now service.now → IfOk result (λ a. a ≡ watched h self.old name place) }
        ensures after { (h : Bound) (n c : List ℕ) → IsHere h definition.now service.now
            → IfOk result (λ a. self.new ≡ watchers_after (Held h) self.old (Watch n c name place) a) }
        ensures err { OnErr result (self.new ≡ self.old) }
    {
        if self.position(&name).is_some() {
            return Ok(WatchAnswer::NameTaken);
        }
        let committed = service.history().len();
        if committed < place.0 as usize {
            let committed = Place(committed as u32);
            return Ok(WatchAnswer::BadPlace { committed });
        }
        if self.watchers.len() >= usize::from(MOST_WATCHERS) {
            return Ok(WatchAnswer::TooManyWatchers);
        }
        let watcher = Watcher::new(alloc, name, definition, place)?;
        self.watchers.push(watcher)?;
        Ok(WatchAnswer::Watching(place))
    }

    // The watcher of a name takes.
    fn pull(
        &mut self,
        alloc: Global,
        definition: &Definition,
        service: &Service,
        name: &Label,
        count: u32,
    ) -> Result<WatchAnswer, AllocError>
        ensures answer { (h : Bound) → IsHere h definition.now service.now
            → IfOk result (λ a. a ≡ pulled_by h count (watcher_named name.now self.old)) }
        ensures after { (h : Bound) (n c : List ℕ) → IfOk result (λ a. self.new ≡ watchers_after (Held h) self.old (Pull n c name.now count) a) }
        ensures err { OnErr result (self.new ≡ self.old) }
    {
        let Some(index) = self.position(name) else {
            return Ok(WatchAnswer::NoWatcher);
        };
        let watcher = &mut self.watchers[index];
        watcher.pull(alloc, definition, service, count)
    }

    /// The answer to a line at a node that is bound to a definition, and where the circuit runs with this service; and what it
    /// makes of the watchers. Fails only where memory runs out, and leaves them then as they were.
    pub(crate) fn answer(
        &mut self,
        alloc: Global,
        definition: &Definition,
        service: &Service,
        line: &WatchLine,
    ) -> Result<WatchAnswer, AllocError>
        ensures answer { (h : Bound) → IsHere h definition.now service.now → IfOk result (λ a. a ≡ told_by h self.old line.now) }
        ensures after { (h : Bound) → IsHere h definition.now service.now
            → IfOk result (λ a. self.new ≡ watchers_after (Held h) self.old line.now a) }
        ensures err { OnErr result (self.new ≡ self.old) }
    {
        match line {
            WatchLine::Watch { name, place, .. } => {
                self.watch(alloc, definition, service, *name, *place)
            }
            WatchLine::Pull { name, count, .. } => {
                self.pull(alloc, definition, service, name, *count)
            }
        }
    }
}
