//! A 16-way tree over addresses, which keeps the digests of its parts.
mod foot;
mod levels;
mod read;
mod write;

ghost use Rattle.std.specs.{Prelude.{◌≡◌, ◌≤◌, ◌+◌, ◌-◌, ◌∷◌, length, min, option_copied}, Map.lookup, BTreeMap.is_at};
ghost use Rattle.spl_state.specs.{Digits.{tail_cmp, shares}, Levels.{node_of, children}, Runs.AllAlong, Kept.{IsInner, IsLeft, all_entries, empty_part}};
ghost use Rattle.sha2.specs.Sha256.{sha256};

use crate::address::Address;
use crate::beginnings::Beginnings;
use crate::digest::{leaf, lone_parts, set_part};
use crate::known::Waiting;
use crate::piece::Piece;
use crate::run_cache::RunCache;
use std::marker::Model;

/// A part of the tree: the entries that share the digits above it.
#[cycle(tree)]
#[derive(Drop)]
pub(crate) struct Tree {
    /// How many digits stand above.
    depth: usize,
    /// How many entries there are, up to two.
    size: u8,
    /// Whether `digest` is that of the entries.
    fresh: bool,
    digest: [u8; 32],
    body: Body,
}

#[cycle(tree)]
#[derive(Drop)]
enum Body {
    Empty,
    Leaf(Address, Piece),
    /// One part, below the digits of this address from here to where it stands.
    Thin(Address, Box<Tree>),
    /// Sixteen parts, one below each digit.
    Inner(Vec<Tree>),
}

impl Model for Tree {
    ghost use Rattle.spl_state.specs.Part.{Part, digits_left};

    ghost Value = { Part };

    ghost use Rattle.spl_state.specs.Kept.{entries_of, is_inner, thin_run, IsKept};

    ghost view = { λ t. record { depth = t.depth; entries = entries_of t.body; inner = is_inner t.body; thin = thin_run t.body } };

    ghost invariant = { λ t. IsKept t.depth t.size t.fresh t.digest t.body };

    ghost size = { digits_left };

    ghost use Rattle.spl_state.specs.Falls.{falls};

    ghost size_decreases = { falls };
}

impl Tree {
    /// A part with no entry.
    #[tactic(auto, using(crate::proofs::Nodes::node_none))]
    pub(crate) fn new(depth: usize) -> Tree
        requires { depth ≤ 70 }
        ensures { result ≡ empty_part depth }
    {
        Tree {
            depth,
            size: 0,
            fresh: true,
            digest: [0; 32],
            body: Body::Empty,
        }
    }

    /// The digest of the entries, without memory: what is kept, and what is stale again.
    #[inline]
    pub(crate) fn digest(&self) -> [u8; 32]
        ensures { result ≡ node_of (70 - self.now.depth) self.now.depth self.now.entries }
    {
        if self.fresh {
            self.digest
        } else {
            self.computed()
        }
    }

    /// The digest of the entries, computed by itself.
    #[inline(never)]
    fn computed(&self) -> [u8; 32]
        ensures { result ≡ node_of (70 - self.now.depth) self.now.depth self.now.entries }
    {
        self.made(&mut Beginnings::new())
    }

    /// The digest of the entries: what is kept, and what is stale again.
    #[cycle(digest)]
    #[inline]
    fn kept_or_made(&self, beginnings: &mut Beginnings) -> [u8; 32]
        ensures { result ≡ node_of (70 - self.now.depth) self.now.depth self.now.entries }
    {
        if self.fresh {
            self.digest
        } else {
            self.made(beginnings)
        }
    }

    /// The digest of the entries, by those of the parts.
    #[cycle(digest)]
    #[inline(never)]
    fn made(&self, beginnings: &mut Beginnings) -> [u8; 32]
        ensures { result ≡ node_of (70 - self.now.depth) self.now.depth self.now.entries }
    {
        match &self.body {
            Body::Empty => [0; 32],
            Body::Leaf(at, value) => leaf(at, value),
            Body::Inner(parts) => {
                if self.size < 2 {
                    for part in parts {
                        if part.size() > 0 {
                            return part.kept_or_made(beginnings);
                        }
                    }
                    return [0; 32];
                }
                Tree::node(parts.as_slice(), self.depth, beginnings)
            }
            Body::Thin(path, part) => {
                let digest = part.kept_or_made(beginnings);
                part.raised(digest, path, self.depth, beginnings)
            }
        }
    }

    /// The node of sixteen parts, one below each value of the digit `depth`.
    #[cycle(digest)]
    #[inline(never)]
    fn node(parts: &[Tree], depth: usize, beginnings: &mut Beginnings) -> [u8; 32]
        requires { IsInner depth parts.now }
        ensures { result ≡ sha256 (1 ∷ children (node_of (70 - (depth + 1)) (depth + 1)) depth (all_entries parts.now) 16) }
    {
        let mut digests = [0u8; 512];
        for i in 0..16usize {
            let digest = parts[i].kept_or_made(beginnings);
            set_part(&mut digests, i, &digest);
        }
        beginnings.node(&digests)
    }

    /// The digest of the entries at the digit `from` above, by their digest here.
    fn raised(
        &self,
        digest: [u8; 32],
        path: &Address,
        from: usize,
        beginnings: &mut Beginnings,
    ) -> [u8; 32]
        requires low { from ≤ self.now.depth }
        requires high { self.now.depth ≤ 70 }
        requires along { AllAlong self.now.depth from path.now self.now.entries }
        requires digest { digest ≡ node_of (70 - self.now.depth) self.now.depth self.now.entries }
        ensures { result ≡ node_of (70 - from) from self.now.entries }
    {
        if self.size < 2 {
            digest
        } else {
            lone_parts(digest, path, from, self.depth, beginnings)
        }
    }

    /// The digest of the entries at the digit `from` above, computed by itself.
    #[inline(never)]
    fn digest_from(&self, path: &Address, from: usize) -> [u8; 32]
        requires low { from ≤ self.now.depth }
        requires high { self.now.depth ≤ 70 }
        requires along { AllAlong self.now.depth from path.now self.now.entries }
        ensures { result ≡ node_of (70 - from) from self.now.entries }
    {
        let mut beginnings = Beginnings::new();
        let digest = self.kept_or_made(&mut beginnings);
        self.raised(digest, path, from, &mut beginnings)
    }

    /// The digest of the entries from the first digit on.
    fn raised_from_first(&self, path: &Address, cache: &mut RunCache) -> [u8; 32]
        requires high { self.now.depth ≤ 70 }
        requires along { AllAlong self.now.depth 0 path.now self.now.entries }
        ensures { result ≡ node_of 70 0 self.now.entries }
    {
        let digest = self.kept_or_made(&mut cache.beginnings);
        if self.size < 2 {
            digest
        } else {
            cache.raise(digest, path, self.depth)
        }
    }

    /// Makes each stale digest of the whole tree again. A run of lone parts at the top is looked up
    /// in the cache, and kept there.
    pub(crate) fn renew_all(&mut self, cache: &mut RunCache)
        requires { self.old.depth ≡ 0 }
        ensures { self.new ≡ self.old }
    {
        match &mut self.body {
            Body::Thin(path, part) if !self.fresh => {
                part.renew_whole(&mut cache.beginnings);
                self.digest = part.raised_from_first(path, cache);
                self.fresh = true;
            }
            _ => self.renew_whole(&mut cache.beginnings),
        }
    }

    /// Makes each stale digest again.
    fn renew_whole(&mut self, beginnings: &mut Beginnings)
        ensures { self.new ≡ self.old }
    {
        self.renew_below(&mut Waiting::new(), beginnings);
        self.renew(0, beginnings);
    }

    /// Makes each stale digest again that stands at the digit `from` or below it.
    fn renew(&mut self, from: usize, beginnings: &mut Beginnings)
        ensures { self.new ≡ self.old }
    {
        if self.fresh {
            return;
        }
        match &mut self.body {
            Body::Inner(parts) => {
                for i in 0..16usize {
                    if !parts[i].fresh {
                        parts[i].renew(from, beginnings);
                    }
                }
                self.keep(from, beginnings);
            }
            Body::Thin(_, part) => {
                part.renew(from, beginnings);
                self.keep(from, beginnings);
            }
            _ => self.keep(from, beginnings),
        }
    }

    /// Keeps the digest, if the part stands at the digit `from` or below it.
    fn keep(&mut self, from: usize, beginnings: &mut Beginnings)
        ensures { self.new ≡ self.old }
    {
        if self.depth >= from {
            self.digest = self.made(beginnings);
            self.fresh = true;
        }
    }

    /// How many entries there are, up to two.
    fn size(&self) -> u8
        ensures { result ≡ min (length self.now.entries) 2 }
    {
        self.size
    }

    /// The part that lone parts lead to, as long as they stand below an address's digits, and
    /// down to the digit `end` at most.
    #[tactic(auto, using(crate::proofs::Thin::found_in, crate::proofs::Thin::shares_in))]
    fn below(&self, address: &Address, end: usize) -> &Tree
        requires low { self.now.depth ≤ end }
        requires high { end ≤ 70 }
        ensures deeper { self.now.depth ≤ result.now.depth }
        ensures low { result.now.depth ≤ end }
        ensures left { IsLeft end address.now result.now }
        ensures found { lookup (is_at (tail_cmp result.now.depth address.now)) result.now.entries
            ≡ lookup (is_at (tail_cmp self.now.depth address.now)) self.now.entries }
        ensures shared { shares end result.now.depth address.now result.now.entries ≡ shares end self.now.depth address.now self.now.entries }
    {
        match &self.body {
            Body::Thin(path, part) => {
                if part.depth <= end && address.same_between(path, self.depth, part.depth) {
                    part.below(address, end)
                } else {
                    self
                }
            }
            _ => self,
        }
    }

    /// The value at an address.
    #[tactic(auto, using(crate::proofs::Steps::depth_of, crate::proofs::Steps::found_below))]
    pub(crate) fn get(&self, address: &Address) -> Option<&[u8]>
        requires { self.now.depth ≤ 70 }
        ensures { option_copied result ≡ lookup (is_at (tail_cmp self.now.depth address.now)) self.now.entries }
    {
        let here = self.below(address, 70);
        match &here.body {
            Body::Empty => None,
            Body::Leaf(at, value) => {
                if address.same_tail(at, here.depth) {
                    Some(value.bytes())
                } else {
                    None
                }
            }
            Body::Inner(parts) => parts[address.digit(here.depth) as usize].get(address),
            Body::Thin(_, _) => None,
        }
    }
}
