//! A calm: passes of ticks and deliveries, one after the other.
ghost use Rattle.std.specs.Prelude.{◌≡◌, ◌+◌, ◌*◌, ◌<◌, ◌≤◌, ℕ, List, None, length, true, false, IfOk, IfSome};
ghost use Rattle.spl_circuit.specs.Nodes.{NodeId as Id};
ghost use Rattle.spl_circuit_world.specs.{Calm.{Calming, calm, calming}, Worlds.World as CircuitWorld, declared.TheConstants.MOST_EVENTS};
ghost use Rattle.spl_world.specs.{Calms.{IsSquare, Tracks}, Cursor.{AreApart, CalmFollows, CalmGoesOn, HasMessagesLeft, IsTickDue, IsIdleSoFar, IsLast}};
ghost use Rattle.spl_world.specs.Cursor.{IsOver, IsTurn, Opens, FoundPairLeaves, PairWaits, SkipsPairs, SkipsTo, TicksOn, Waits, cursor_of, calm_ended};
ghost use Rattle.spl_world.specs.{Cursor.is_idle_turn, Views.{HoldsWorld, IsNodeAt, Sits, world_node_ids, nodes_over}};
ghost use Rattle.spl_node.specs.Benches.{Images};

use crate::taken::left_of;
use crate::world::World;
use spl_base::CircuitId;
use spl_circuit_world::MOST_EVENTS;
use std::alloc::{AllocError, Global};

/// What a calm does next: a tick at the node of this index, and whether it has anything to do there; or the delivery of the
/// message of this index, from 0, of those that one node sent to another.
#[derive(Clone, Copy)]
pub enum Turn {
    Tick {
        slot: usize,
        due: bool,
    },
    Deliver {
        from: usize,
        to: usize,
        index: usize,
    },
}

impl Turn {
    /// Whether it is a tick that has nothing to do.
    pub fn is_idle(&self) -> bool
        ensures { result ≡ is_idle_turn self.now }
    {
        match self {
            Turn::Tick { due, .. } => !*due,
            Turn::Deliver { .. } => false,
        }
    }
}

/// Where a calm stands between two of its turns: how many messages of each pair need no delivery any more, how many passes
/// come after this one, and whose turn is next in this one. It reads the world and changes nothing of it.
#[derive(Drop)]
pub struct Calm {
    circuit: CircuitId,
    rows: Vec<Vec<usize>>,
    // So many passes come after this one.
    later: u8,
    // Whether they come where there is nothing to do in this one too.
    whole: bool,
    // Whether there was anything to do in this pass so far, and how many ticks it had.
    moved: bool,
    ticks: usize,
    // The node whose tick is next; and after all ticks the sender and the recipient whose turn is next.
    slot: usize,
    from: usize,
    to: usize,
    // How many messages of that sender aren't taken; None where that wasn't asked yet.
    left: Option<usize>,
}

impl Calm {
    // How many messages of a sender aren't taken.
    #[inline(always)]
    fn left_of(&self, world: &World, from: usize) -> usize
        requires below { from < length world.now.slots.items }
        requires square { IsSquare (length world.now.slots.items) self.now.rows.items }
        ensures { (is : List Images) (z : Calming) (a : Id) → HoldsWorld self.now.circuit z.world (nodes_over world.now is)
            → CalmFollows (world_node_ids world.now) self.now z → IsNodeAt world.now from a → HasMessagesLeft result (world_node_ids world.now) z a }
    {
        if let Some(left) = self.left {
            if from == self.from {
                return left;
            }
        }
        let total = world.total(&self.circuit, from);
        left_of(total, self.rows[from].as_slice())
    }

    // The first recipient of a sender, from this index on, for whom a message waits; none where all that it sent is taken.
    #[inline(always)]
    fn waiting(&self, world: &World, from: usize, first: usize, left: usize) -> Option<usize>
        requires below { from < length world.now.slots.items }
        requires square { IsSquare (length world.now.slots.items) self.now.rows.items }
        ensures below { IfSome result (λ to. to < length world.now.slots.items) }
        ensures apart { IfSome result (AreApart world.now from) }
        ensures skips { (is : List Images) (z : Calming) (a : Id) → HoldsWorld self.now.circuit z.world (nodes_over world.now is)
            → Tracks z (world_node_ids world.now) self.now.rows.items → IsNodeAt world.now from a → HasMessagesLeft left (world_node_ids world.now) z a
            → SkipsTo result self.now.circuit (world_node_ids world.now) z a first }
        ensures waits { (is : List Images) (z : Calming) (a : Id) → HoldsWorld self.now.circuit z.world (nodes_over world.now is)
            → Tracks z (world_node_ids world.now) self.now.rows.items → IsNodeAt world.now from a → Waits result (world_node_ids world.now) z a }
    {
        if left == 0 {
            return None;
        }
        let row = &self.rows[from];
        for to in first..world.len() {
            if row[to] < world.count(from, to, &self.circuit)
                && world.is_up(to)
                && !world.is_same(from, to)
            {
                return Some(to);
            }
        }
        None
    }

    // The first pair whose turn comes yet and on which a message waits; and how many of its sender aren't taken.
    #[inline(always)]
    fn next_pair(&self, world: &World) -> Option<(usize, usize, usize)>
        requires square { IsSquare (length world.now.slots.items) self.now.rows.items }
        ensures below { IfSome result (λ p. (p.0 < length world.now.slots.items) × (p.1 < length world.now.slots.items)) }
        ensures apart { IfSome result (λ p. AreApart world.now p.0 p.1) }
        ensures skips { (is : List Images) (z : Calming) → HoldsWorld self.now.circuit z.world (nodes_over world.now is)
            → CalmFollows (world_node_ids world.now) self.now z
            → SkipsPairs result self.now.circuit (world_node_ids world.now) z self.now.from self.now.to }
        ensures waits { (is : List Images) (z : Calming) → HoldsWorld self.now.circuit z.world (nodes_over world.now is)
            → CalmFollows (world_node_ids world.now) self.now z → PairWaits result (world_node_ids world.now) z }
        ensures leaves { (is : List Images) (z : Calming) → HoldsWorld self.now.circuit z.world (nodes_over world.now is)
            → CalmFollows (world_node_ids world.now) self.now z → FoundPairLeaves result (world_node_ids world.now) z }
    {
        let mut first = self.to;
        for from in self.from..world.len() {
            let left = self.left_of(world, from);
            if let Some(to) = self.waiting(world, from, first, left) {
                return Some((from, to, left));
            }
            first = 0;
        }
        None
    }

    // The next delivery of this pass, after its ticks.
    #[inline(always)]
    fn next_delivery(&mut self, world: &World) -> Option<Turn>
        requires square { IsSquare (length world.now.slots.items) self.old.rows.items }
        requires ticked { length world.now.slots.items ≤ self.old.slot }
        ensures square { IsSquare (length world.now.slots.items) self.new.rows.items }
        ensures circuit { self.new.circuit ≡ self.old.circuit }
        ensures later { self.new.later ≡ self.old.later }
        ensures whole { self.new.whole ≡ self.old.whole }
        ensures over { result ≡ None → IsOver (length world.now.slots.items) self.new }
        ensures turn { IfSome result (IsTurn world.now self.old.circuit) }
        ensures on { (is : List Images) (z : Calming) → HoldsWorld self.old.circuit z.world (nodes_over world.now is)
            → CalmFollows (world_node_ids world.now) self.old z → CalmGoesOn result (world_node_ids world.now) self.old self.new z }
    {
        let Some((from, to, left)) = self.next_pair(world) else {
            self.from = world.len();
            self.to = 0;
            return None;
        };
        let index = self.rows[from][to];
        self.from = from;
        self.to = to;
        self.left = Some(left.saturating_sub(1));
        self.moved = true;
        self.rows[from][to] = index.saturating_add(1);
        Some(Turn::Deliver { from, to, index })
    }

    // The first node whose tick may come yet in this pass, where it has one; and whether that has anything to do.
    #[inline(always)]
    fn next_open(&self, world: &World) -> Option<(usize, bool)>
        ensures below { IfSome result (λ p. p.0 < length world.now.slots.items) }
        ensures due { IfSome result (λ p. IsTickDue world.now self.now.circuit p.0 p.1) }
        ensures opens { (is : List Images) (z : Calming) → Sits (nodes_over world.now is) → HoldsWorld self.now.circuit z.world (nodes_over world.now is)
            → Opens result self.now.circuit (world_node_ids world.now) self.now.slot z }
    {
        for slot in self.slot..world.len() {
            if let Some(due) = world.due(slot, &self.circuit) {
                return Some((slot, due));
            }
        }
        None
    }

    // The next tick of this pass.
    #[inline(always)]
    fn next_tick(&mut self, world: &World) -> Option<Turn>
        ensures rows { self.new.rows ≡ self.old.rows }
        ensures circuit { self.new.circuit ≡ self.old.circuit }
        ensures later { self.new.later ≡ self.old.later }
        ensures whole { self.new.whole ≡ self.old.whole }
        ensures ticked { result ≡ None → length world.now.slots.items ≤ self.new.slot }
        ensures turn { IfSome result (IsTurn world.now self.old.circuit) }
        ensures on { (is : List Images) (z : Calming) → Sits (nodes_over world.now is) → HoldsWorld self.old.circuit z.world (nodes_over world.now is)
            → CalmFollows (world_node_ids world.now) self.old z → TicksOn result (world_node_ids world.now) self.old self.new z }
    {
        let Some((slot, due)) = self.next_open(world) else {
            self.slot = world.len();
            return None;
        };
        self.slot = slot + 1;
        self.left = None;
        self.ticks = self.ticks.saturating_add(1);
        self.moved |= due;
        Some(Turn::Tick { slot, due })
    }

    // Goes on with the next pass, where one comes.
    #[inline(always)]
    fn goes_on(&mut self) -> bool
        ensures rows { self.new.rows ≡ self.old.rows }
        ensures circuit { self.new.circuit ≡ self.old.circuit }
        ensures fewer { result ≡ true → self.new.later + 1 ≡ self.old.later }
        ensures unasked { result ≡ true → self.new.left ≡ None }
        ensures whole { self.new.whole ≡ self.old.whole }
        ensures stays { result ≡ false → self.new ≡ self.old }
        ensures last { result ≡ false → IsLast self.old }
        ensures idle { (ids : List Id) (z : Calming) → result ≡ true → IsIdleSoFar ids self.new z }
        ensures first { (n : ℕ) (ids : List Id) (z : Calming) → result ≡ true → length ids ≡ n → IsOver n self.old
            → calm_ended (cursor_of ids self.new) z ≡ calm_ended (cursor_of ids self.old) z }
    {
        if self.later == 0 || !(self.moved || self.whole) {
            return false;
        }
        self.later -= 1;
        self.moved = false;
        self.ticks = 0;
        self.slot = 0;
        self.from = 0;
        self.to = 0;
        self.left = None;
        true
    }

    // The next turn of this pass.
    #[inline(always)]
    fn in_pass(&mut self, world: &World) -> Option<Turn>
        requires square { IsSquare (length world.now.slots.items) self.old.rows.items }
        ensures square { IsSquare (length world.now.slots.items) self.new.rows.items }
        ensures circuit { self.new.circuit ≡ self.old.circuit }
        ensures later { self.new.later ≡ self.old.later }
        ensures whole { self.new.whole ≡ self.old.whole }
        ensures over { result ≡ None → IsOver (length world.now.slots.items) self.new }
        ensures turn { IfSome result (IsTurn world.now self.old.circuit) }
        ensures on { (is : List Images) (z : Calming) → Sits (nodes_over world.now is) → HoldsWorld self.old.circuit z.world (nodes_over world.now is)
            → CalmFollows (world_node_ids world.now) self.old z → CalmGoesOn result (world_node_ids world.now) self.old self.new z }
    {
        if let Some(turn) = self.next_tick(world) {
            return Some(turn);
        }
        self.next_delivery(world)
    }

    /// The next turn; None where all passes are over, or where there was nothing to do in the last one.
    #[inline(always)]
    pub fn next(&mut self, world: &World) -> Option<Turn>
        requires square { IsSquare (length world.now.slots.items) self.old.rows.items }
        ensures square { IsSquare (length world.now.slots.items) self.new.rows.items }
        ensures circuit { self.new.circuit ≡ self.old.circuit }
        ensures whole { self.new.whole ≡ self.old.whole }
        ensures turn { IfSome result (IsTurn world.now self.old.circuit) }
        ensures over { result ≡ None → IsOver (length world.now.slots.items) self.new × IsLast self.new }
        ensures on { (is : List Images) (z : Calming) → Sits (nodes_over world.now is) → HoldsWorld self.old.circuit z.world (nodes_over world.now is)
            → CalmFollows (world_node_ids world.now) self.old z → CalmGoesOn result (world_node_ids world.now) self.old self.new z }
    {
        for _pass in 0..self.later as u32 + 1 {
            if let Some(turn) = self.in_pass(world) {
                return Some(turn);
            }
            if !self.goes_on() {
                return None;
            }
        }
        None
    }

    /// A calm of so many passes. Nothing of it was sent yet. Where it isn't whole, it ends with the first pass in which there
    /// is nothing to do.
    pub fn new(
        alloc: Global,
        world: &World,
        circuit: CircuitId,
        passes: u8,
        whole: bool,
    ) -> Result<Calm, AllocError>
        ensures square { IfOk result (λ k. IsSquare (length world.now.slots.items) k.rows.items) }
        ensures circuit { IfOk result (λ k. k.circuit ≡ circuit) }
        ensures whole { IfOk result (λ k. k.whole ≡ whole) }
        ensures begins { (is : List Images) (m : CircuitWorld) → HoldsWorld circuit m (nodes_over world.now is)
            → IfOk result (λ k. CalmFollows (world_node_ids world.now) k (calming m)
            × (calm_ended (cursor_of (world_node_ids world.now) k) (calming m) ≡ calm circuit m passes)) }
    {
        let rows = world.rows(alloc, &circuit)?;
        let begin = if passes == 0 { world.len() } else { 0 };
        Ok(Calm {
            circuit,
            rows,
            later: passes.saturating_sub(1),
            whole,
            moved: passes == 0,
            ticks: 0,
            slot: begin,
            from: begin,
            to: 0,
            left: None,
        })
    }

    /// How many ticks the passes have that come later, where there is nothing to do in them; or more than a run may have events,
    /// where they are more.
    pub fn ticks_left(&self) -> u32
        ensures exact { result ≤ MOST_EVENTS → result ≡ self.now.ticks * self.now.later }
        ensures most { result ≤ self.now.ticks * self.now.later }
    {
        let ticks = self.ticks.min(MOST_EVENTS as usize + 1) as u32;
        ticks * self.later as u32
    }
}
