//! Stale digests that are made again level by level. The nodes of one level don't depend on each
//! other, so four of them are hashed at once.

ghost use Rattle.std.specs.Prelude.{◌≡◌, ◌≤◌, ◌<◌, ◌+◌, ◌-◌, ◌*◌, ◌∷◌, true, IfSome, length, take, drop};
ghost use Rattle.spl_state.specs.{Levels.{node_of, children}, Kept.{IsInner, all_entries}};

use super::{Body, Tree};
use crate::beginnings::Beginnings;
use crate::digest::set_part;
use crate::known::{Known, Waiting};
use std::simd::prelude::*;

/// With more stale nodes than these, each of the sixteen parts is renewed by its own levels, so that
/// no walk to a level is long.
const MOST: u32 = 128;

/// How many inner nodes are stale, on each level and in all.
#[derive(Drop)]
struct Stale {
    levels: [u32; 70],
    all: u32,
}

impl Tree {
    /// Makes stale digests below again where four can be hashed at once. It leaves others stale.
    #[cycle(levels)]
    pub(crate) fn renew_below(&mut self, waiting: &mut Waiting, beginnings: &mut Beginnings)
        ensures { self.new ≡ self.old }
    {
        if self.fresh {
            return;
        }
        let stale = self.stale();
        if stale.all < 3 {
            return;
        }
        if stale.all > MOST {
            self.renew_each(waiting, beginnings);
        } else {
            for depth in (0..70usize).rev() {
                if depth > self.depth {
                    self.renew_level(depth, stale.levels[depth], waiting, beginnings);
                }
            }
        }
    }

    /// Does so below each of the parts, and then of the parts.
    #[cycle(levels)]
    fn renew_each(&mut self, waiting: &mut Waiting, beginnings: &mut Beginnings)
        ensures { self.new ≡ self.old }
    {
        match &mut self.body {
            Body::Inner(parts) => {
                for i in 0..16usize {
                    if !parts[i].fresh {
                        parts[i].renew_below(waiting, beginnings);
                    }
                }
                let below = self.depth + 1;
                self.renew_level(below, 16, waiting, beginnings);
            }
            Body::Thin(_, part) => part.renew_below(waiting, beginnings),
            _ => {}
        }
    }

    /// How many inner nodes are stale.
    #[inline(never)]
    fn stale(&self) -> Stale {
        let mut stale = Stale {
            levels: [0; 70],
            all: 0,
        };
        self.count(&mut stale);
        stale
    }

    /// Counts the stale inner nodes, until there are too many.
    fn count(&self, stale: &mut Stale) {
        if self.fresh || stale.all > MOST {
            return;
        }
        match &self.body {
            Body::Inner(parts) => {
                if self.size >= 2 && self.depth < 70 {
                    stale.levels[self.depth] = stale.levels[self.depth].saturating_add(1);
                    stale.all += 1;
                }
                for i in 0..16usize {
                    if !parts[i].fresh {
                        parts[i].count(stale);
                    }
                }
            }
            Body::Thin(_, part) => part.count(stale),
            _ => {}
        }
    }

    /// Makes the stale digests of a level again as far as four can be hashed at once, and before
    /// them all below it.
    fn renew_level(
        &mut self,
        depth: usize,
        count: u32,
        waiting: &mut Waiting,
        beginnings: &mut Beginnings,
    )
        requires { depth ≤ 70 }
        ensures { self.new ≡ self.old }
    {
        if count < 3 {
            return;
        }
        self.renew(depth + 1, beginnings);
        for _ in 0..count.div_ceil(4) {
            if !self.renew_four(depth, waiting) {
                return;
            }
        }
    }

    /// Makes up to four stale digests of a level again, and says whether there may be more.
    #[inline(never)]
    fn renew_four(&mut self, depth: usize, waiting: &mut Waiting) -> bool
        ensures { self.new ≡ self.old }
    {
        waiting.clear();
        self.gather(depth, waiting);
        match waiting.hashed() {
            Some(known) => {
                self.take(&known, depth, &mut 0);
                true
            }
            None => false,
        }
    }

    /// Gathers the first stale nodes of a level.
    fn gather(&self, depth: usize, waiting: &mut Waiting) {
        if self.fresh || waiting.is_full() {
            return;
        }
        match &self.body {
            Body::Inner(parts) => {
                if self.depth < depth {
                    for i in 0..16usize {
                        if !parts[i].fresh {
                            parts[i].gather(depth, waiting);
                        }
                    }
                } else if self.depth == depth && self.size >= 2 {
                    gather_parts(parts.as_slice(), waiting);
                }
            }
            Body::Thin(_, part) => part.gather(depth, waiting),
            _ => {}
        }
    }

    /// Keeps the digests of a level that are known, in their order, from the one at `next` on.
    fn take(&mut self, known: &Known, depth: usize, next: &mut usize)
        ensures { self.new ≡ self.old }
    {
        if self.fresh || *next >= 4 {
            return;
        }
        match &mut self.body {
            Body::Inner(parts) => {
                if self.depth < depth {
                    for i in 0..16usize {
                        if !parts[i].fresh {
                            parts[i].take(known, depth, next);
                        }
                    }
                } else if self.depth == depth {
                    self.take_one(known, next);
                }
            }
            Body::Thin(_, part) => part.take(known, depth, next),
            _ => {}
        }
    }

    /// Keeps the digest, if it is the one at `next`.
    fn take_one(&mut self, known: &Known, next: &mut usize)
        requires { next.old < 4 }
        ensures { self.new ≡ self.old }
    {
        if let Some(digest) = self.known_digest(known, *next) {
            self.digest = digest;
            self.fresh = true;
            *next += 1;
        }
    }

    /// The digest of the entries, if it is the known one at `at`.
    fn known_digest(&self, known: &Known, at: usize) -> Option<[u8; 32]>
        requires { at < 4 }
        ensures { IfSome result (λ d. d ≡ node_of (70 - self.now.depth) self.now.depth self.now.entries) }
    {
        match &self.body {
            Body::Inner(parts) => {
                if self.size >= 2 && have_digests(parts.as_slice(), self.depth, known.parts(at)) {
                    Some(known.digest(at))
                } else {
                    None
                }
            }
            _ => None,
        }
    }

    /// The digest of the entries, if it is kept.
    #[inline]
    fn kept(&self) -> Option<&[u8; 32]>
        ensures { IfSome result (λ d. d.now ≡ node_of (70 - self.now.depth) self.now.depth self.now.entries) }
    {
        if self.fresh { Some(&self.digest) } else { None }
    }
}

/// Puts the digests of sixteen parts with what is to be hashed, if all are kept.
fn gather_parts(parts: &[Tree], waiting: &mut Waiting)
    requires { length parts.now ≡ 16 }
{
    let Some(digests) = waiting.next() else {
        return;
    };
    for i in 0..16usize {
        match parts[i].kept() {
            Some(digest) => set_part(digests, i, digest),
            None => return,
        }
    }
    waiting.added();
}

/// Whether these are the digests of sixteen parts, one after the other, as they are kept.
fn have_digests(parts: &[Tree], depth: usize, digests: &[u8; 512]) -> bool
    requires { IsInner depth parts.now }
    ensures { result ≡ true → digests.now ≡ children (node_of (70 - (depth + 1)) (depth + 1)) depth (all_entries parts.now) 16 }
{
    for i in 0..16usize {
        match parts[i].kept() {
            Some(digest) => {
                if !has_digest(digests, i, digest) {
                    return false;
                }
            }
            None => return false,
        }
    }
    true
}

/// Whether this digest is that of one of sixteen parts.
#[inline]
fn has_digest(digests: &[u8; 512], digit: usize, digest: &[u8; 32]) -> bool
    requires { digit < 16 }
    ensures { result ≡ true → take 32 (drop (32 * digit) digests.now) ≡ digest.now }
{
    let at = 32 * digit;
    let differ = u8x32::from_slice(&digests[at..]).simd_ne(u8x32::from_slice(digest));
    differ.to_bitmask() == 0
}
