//! The history of a member, with look-ups by key and by round.
ghost use Rattle.std.specs.Prelude.{◌≡◌, ◌==◌, ℕ, ◌<◌, ◌+◌, ◌-◌, ◌^◌, None, ◌++◌, ◌∷◌, [], List, length, OnOk, OnErr, option_copied, slice_get};
ghost use Rattle.std.specs.Option.{option_map};
ghost use Rattle.indexmap.specs.IndexMap.{spare};
ghost use Rattle.spl_agree.specs.Member.{values, has_round, found};
ghost use Rattle.spl_commit.specs.Places.{IsIndex};

use indexmap::IndexMap;
use spl_agree::{Agreed, Round};
use std::alloc::{AllocError, Global};
use std::hash::Hash;
use std::marker::Model;

/// The committed rounds and values in their order, with the first place of each key and of each
/// round. Contracts see the list.
#[derive(Drop)]
pub struct History<M: Agreed> {
    entries: Vec<(Round, M::Value)>,
    places: IndexMap<M::Key, usize>,
    rounds: IndexMap<u64, usize>,
}

impl<M: Agreed> Model for History<M> {
    ghost use Rattle.std.specs.Prelude.{◌≡◌, List, ℕ};
    ghost use Rattle.spl_commit.specs.Places.{IsNoted};

    ghost Value = { List (ℕ × M.Value) };

    ghost view = { λ s. s.entries.items };

    ghost invariant = { λ s. IsNoted M.Key.eq M.key_of s.entries.items s.places.entries s.rounds.entries };
}

/// Notes the place of a key, unless an equal one is noted.
fn note<K: Copy + Eq + Hash>(index: &mut IndexMap<K, usize>, key: K, place: usize)
    requires { 0 < spare index.old }
    ensures { (keys : List K) → length keys ≡ place → IsIndex K.eq index.old.entries keys → IsIndex K.eq index.new.entries (keys ++ key ∷ []) }
{
    if !index.contains_key(&key) {
        index.insert(key, place).unwrap();
    }
}

impl<M: Agreed> History<M> {
    /// A history of no values.
    pub fn new(alloc: Global) -> Self
        ensures { result ≡ [] }
    {
        History {
            entries: Vec::new(alloc),
            places: IndexMap::new(alloc),
            rounds: IndexMap::new(alloc),
        }
    }

    /// How many values it has.
    pub fn len(&self) -> usize
        ensures { result ≡ length self.now }
    {
        self.entries.len()
    }

    /// The round and the value at a place, if there is one.
    pub fn get(&self, place: usize) -> Option<(Round, &M::Value)>
        ensures { option_map (λ e. (e.0, e.1.now)) result ≡ slice_get self.now place }
    {
        match self.entries.get(place) {
            Some((round, value)) => Some((*round, value)),
            None => None,
        }
    }

    /// Whether a round is committed.
    pub fn has_round(&self, round: Round) -> bool
        ensures { result ≡ has_round round self.now }
    {
        self.rounds.contains_key(&round.0)
    }

    /// The first value of a key, if there is one.
    pub fn find(&self, key: &M::Key) -> Option<&M::Value>
        ensures { option_copied result ≡ found (λ v. M.Key.eq key.now (M.key_of v)) (values self.now) }
    {
        let place = *self.places.get(key)?;
        match self.get(place) {
            Some((_, value)) => Some(value),
            None => None,
        }
    }

    /// A round and its value join it and the list of a content. When memory runs out both are as
    /// they were.
    pub fn commit(
        &mut self,
        alloc: Global,
        content: &mut M,
        round: Round,
        value: M::Value,
    ) -> Result<(), AllocError>
        requires good { (M.rules content.old).check (M.items content.old) value ≡ None }
        requires room { length (M.items content.old) < 2 ^ 32 - 1 }
        ensures ok { OnOk result (self.new ≡ self.old ++ (round, value) ∷ []) }
        ensures applied { OnOk result (M.items content.new ≡ M.items content.old ++ value ∷ []) }
        ensures err { OnErr result (self.new ≡ self.old) }
        ensures kept { OnErr result (M.items content.new ≡ M.items content.old) }
        ensures ruled { M.rules content.new ≡ M.rules content.old }
    {
        let copy = M::copy(alloc, &value)?;
        self.places.reserve(1)?;
        self.rounds.reserve(1)?;
        self.entries.reserve(1)?;
        let place = self.entries.len();
        let key = M::key(&copy);
        content.apply(alloc, value)?;
        self.entries.push((round, copy)).unwrap();
        note(&mut self.places, key, place);
        note(&mut self.rounds, round.0, place);
        Ok(())
    }
}
