//! What is read of many entries: digests of parts, addresses under a prefix, copies.
ghost use Rattle.std.specs.Prelude.{◌≡◌, ◌≤◌, ◌-◌, ◌++◌, IfOk, OnOk};
ghost use Rattle.spl_state.specs.{Digits.shares, Entries.covered, Levels.node_of};

use super::{Body, Tree};
use crate::address::Address;
use crate::prefix::Prefix;
use std::alloc::{AllocError, Global};

impl Tree {
    /// The digest of the entries that share the first `digits` digits of an address.
    #[tactic(auto, using(crate::proofs::Steps::depth_of, crate::proofs::Prefixes::digest_all, crate::proofs::Prefixes::digest_none, crate::proofs::Prefixes::digest_below))]
    pub(crate) fn digest_at(&self, address: &Address, digits: usize) -> [u8; 32]
        requires low { self.now.depth ≤ digits }
        requires high { digits ≤ 70 }
        ensures { result ≡ node_of (70 - digits) digits (shares digits self.now.depth address.now self.now.entries) }
    {
        let here = self.below(address, digits);
        if here.depth == digits {
            return here.digest();
        }
        match &here.body {
            Body::Empty => [0; 32],
            Body::Leaf(at, _) => {
                if address.same_between(at, here.depth, digits) {
                    here.digest()
                } else {
                    [0; 32]
                }
            }
            Body::Inner(parts) => {
                let part = &parts[address.digit(here.depth) as usize];
                part.digest_at(address, digits)
            }
            Body::Thin(path, part) => {
                // Where the part stands no lower, the address has other digits down to it.
                if part.depth <= digits {
                    return [0; 32];
                }
                if !address.same_between(path, here.depth, digits) {
                    return [0; 32];
                }
                part.digest_from(path, digits)
            }
        }
    }

    /// Adds the addresses under a prefix, in order.
    #[tactic(auto, using(crate::proofs::Steps::depth_of, crate::proofs::Covers::covered_part))]
    pub(crate) fn collect(&self, prefix: &Prefix, out: &mut Vec<Address>) -> Result<(), AllocError>
        requires { self.now.depth ≤ 70 }
        ensures { OnOk result (out.new.items ≡ out.old.items ++ covered prefix.now self.now.entries) }
    {
        match &self.body {
            Body::Empty => Ok(()),
            Body::Leaf(at, _) => {
                if prefix.covers(at) {
                    out.push(*at)?;
                }
                Ok(())
            }
            Body::Inner(parts) => match prefix.digit(self.depth) {
                Some(digit) => parts[digit as usize].collect(prefix, out),
                None => {
                    for part in parts {
                        part.collect(prefix, out)?;
                    }
                    Ok(())
                }
            },
            Body::Thin(path, part) => {
                if prefix.first_apart(path, self.depth, part.depth).is_some() {
                    return Ok(());
                }
                part.collect(prefix, out)
            }
        }
    }

    /// A tree with the same entries.
    #[tactic(auto, using(crate::proofs::Steps::depth_of))]
    pub(crate) fn copy(&self, alloc: Global) -> Result<Tree, AllocError>
        requires { self.now.depth ≤ 70 }
        ensures { IfOk result (λ t. t ≡ self.now) }
    {
        let body = match &self.body {
            Body::Empty => Body::Empty,
            Body::Leaf(at, value) => Body::Leaf(*at, value.clone()?),
            Body::Inner(parts) => {
                let mut copies = Vec::with_capacity(alloc, 16)?;
                for part in parts {
                    copies.push(part.copy(alloc)?)?;
                }
                Body::Inner(copies)
            }
            Body::Thin(path, part) => Body::Thin(*path, Box::new(alloc, part.copy(alloc)?)?),
        };
        Ok(Tree {
            depth: self.depth,
            size: self.size,
            fresh: self.fresh,
            digest: self.digest,
            body,
        })
    }
}
