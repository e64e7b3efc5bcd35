//! A pending list and a refused list.
ghost use Rattle.std.specs.Prelude.{◌≡◌, ℕ, ◌+◌, ◌<◌, ◌≤◌, ◌↔◌, ◌++◌, ◌∷◌, [], Some, None, length, OnOk, OnErr, IsErrOf, IsOk, option_copied, slice_get};
ghost use Rattle.std.specs.{Option.option_map, Map.{remove_entry, keys_of}, List.IsDistinct};
ghost use Rattle.spl_queue.specs.{Status.IsStatus, Lists.{at, refusal}};

use indexmap::IndexMap;
use spl_agree::{MOST_PENDING, Reason};
use std::alloc::{AllocError, Global};
use std::hash::Hash;
use std::marker::Model;

/// Values by their keys, in the order in which they came: at most
/// `MOST_PENDING` pending ones, and refused ones with their reasons.
#[derive(Drop)]
pub struct Queue<K: Copy + Eq + Hash, V> {
    pending: IndexMap<K, V>,
    refused: IndexMap<K, (V, Reason)>,
}

impl<K: Copy + Eq + Hash, V> Model for Queue<K, V> {
    ghost use Rattle.spl_queue.specs.Lists.{Lists, IsQueue};

    ghost Value = { Lists K V };

    ghost view = { λ q. record { pending = q.pending.entries; refused = q.refused.entries } };

    ghost invariant = { λ q. IsQueue K.eq q.pending.entries q.refused.entries };
}

/// That a value was taken.
#[derive(Clone, Copy, PartialEq, Eq)]
pub enum Offered {
    /// It is the last pending one.
    Queued,
}

/// Why a value was not taken.
#[derive(Drop)]
pub enum OfferFault<V> {
    /// `MOST_PENDING` values are pending. The value is given back.
    Full { value: V },
    /// Running out of memory. The value is lost.
    NoMemory,
}

/// What a queue knows of a key.
#[derive(Drop)]
pub enum Known<'a, V> {
    No,
    Pending(&'a V),
    Refused(&'a V, Reason),
}

impl<K: Copy + Eq + Hash, V: Drop> Queue<K, V> {
    /// A queue of no values.
    pub fn new(alloc: Global) -> Self
        ensures { result ≡ record { pending = []; refused = [] } }
    {
        Queue {
            pending: IndexMap::new(alloc),
            refused: IndexMap::new(alloc),
        }
    }

    /// How many values are pending.
    pub fn len(&self) -> u32
        ensures { result ≡ length self.now.pending }
    {
        self.pending.len() as u32
    }

    /// How many values are refused.
    pub fn refused_len(&self) -> usize
        ensures { result ≡ length self.now.refused }
    {
        self.refused.len()
    }

    /// No two keys of a list are equal, no key is in both, and at most `MOST_PENDING` values are
    /// pending.
    pub fn keys_differ(&self)
        ensures pending { IsDistinct K.eq (keys_of self.now.pending) }
        ensures refused { IsDistinct K.eq (keys_of self.now.refused) }
        ensures few { length self.now.pending ≤ MOST_PENDING }
    {
        let _ = self.pending.len();
        let _ = self.refused.len();
    }

    /// The first pending value.
    pub fn first(&self) -> Option<&V>
        ensures { option_copied result ≡ option_map (λ e. e.1) (slice_get self.now.pending 0) }
    {
        match self.pending.first() {
            Some((_, value)) => Some(value),
            None => None,
        }
    }

    /// What is known of a key.
    pub fn status(&self, key: &K) -> Known<'_, V>
        ensures { IsStatus K.eq self.now key.now result }
    {
        if let Some(value) = self.pending.get(key) {
            return Known::Pending(value);
        }
        match self.refused.get(key) {
            Some((value, reason)) => Known::Refused(value, *reason),
            None => Known::No,
        }
    }

    /// The pending value at a position from 0, if there is one.
    pub fn pending_at(&self, at: u32) -> Option<&V>
        ensures { option_copied result ≡ option_map (λ e. e.1) (slice_get self.now.pending at) }
    {
        match self.pending.get_index(at as usize) {
            Some((_, value)) => Some(value),
            None => None,
        }
    }

    /// The refused value at a position from 0 and its reason, if there is one.
    pub fn refused_at(&self, at: usize) -> Option<(&V, Reason)>
        ensures { option_map (λ p. (p.0.now, p.1)) result ≡ option_map (λ e. e.1) (slice_get self.now.refused at) }
    {
        match self.refused.get_index(at) {
            Some((_, (value, reason))) => Some((value, *reason)),
            None => None,
        }
    }

    /// A value whose key is not known here joins the pending ones. It is `Full`
    /// exactly where `MOST_PENDING` are pending, and gives the value back then; when memory runs out
    /// the value is lost. After either fault nothing is changed.
    pub fn offer(&mut self, key: K, value: V) -> Result<Offered, OfferFault<V>>
        requires not_pending { at K.eq self.old.pending key ≡ None }
        requires not_refused { at K.eq self.old.refused key ≡ None }
        ensures queued { OnOk result (self.new.pending ≡ self.old.pending ++ (key, value) ∷ []) }
        ensures others { self.new.refused ≡ self.old.refused }
        ensures full { (v : V) → IsErrOf result (OfferFault.Full v) ↔ ((length self.old.pending ≡ MOST_PENDING) × (v ≡ value)) }
        ensures unchanged { OnErr result (self.new ≡ self.old) }
    {
        if self.pending.len() >= MOST_PENDING {
            return Err(OfferFault::Full { value });
        }
        match self.pending.insert(key, value) {
            Ok(_) => Ok(Offered::Queued),
            Err(_) => Err(OfferFault::NoMemory),
        }
    }

    /// A value whose key is not refused joins the refused ones, where nothing is pending. When
    /// memory runs out nothing is changed.
    pub fn keep(&mut self, key: K, value: V, reason: Reason) -> Result<(), AllocError>
        requires nothing_pending { self.old.pending ≡ [] }
        requires not_refused { at K.eq self.old.refused key ≡ None }
        ensures kept { OnOk result (self.new.refused ≡ self.old.refused ++ (key, (value, reason)) ∷ []) }
        ensures pending { self.new.pending ≡ self.old.pending }
        ensures unchanged { OnErr result (self.new ≡ self.old) }
    {
        match self.refused.insert(key, (value, reason)) {
            Ok(_) => Ok(()),
            Err(_) => Err(AllocError),
        }
    }

    /// Takes the pending value of a key out; with a reason it joins the refused ones. Nothing
    /// happens where no value of the key is pending. When memory runs out nothing is changed;
    /// without a reason there is none.
    pub fn settle(&mut self, key: &K, reason: Option<Reason>) -> Result<(), AllocError>
        ensures pending { OnOk result (self.new.pending ≡ remove_entry (K.eq key.now) self.old.pending) }
        ensures refused { OnOk result (self.new.refused ≡ self.old.refused ++ refusal K.eq self.old key.now reason) }
        ensures no_reason { reason ≡ None → IsOk result }
        ensures unchanged { OnErr result (self.new ≡ self.old) }
    {
        let Some(reason) = reason else {
            let _ = self.pending.shift_remove(key);
            return Ok(());
        };
        self.refused.reserve(1)?;
        let Some(value) = self.pending.shift_remove(key) else {
            return Ok(());
        };
        self.refused.insert(*key, (value, reason)).unwrap();
        Ok(())
    }
}
