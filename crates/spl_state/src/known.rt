//! Inner nodes that are hashed four at a time.
ghost use Rattle.std.specs.Prelude.{◌≡◌, ◌<◌, [], ◌∷◌, map, slice_index_or};
ghost use Rattle.sha2.specs.Sha256.{sha256};

/// Inner nodes that are to be hashed: up to four, each by the digests of its sixteen parts.
#[derive(Drop)]
pub(crate) struct Waiting {
    inner: [[u8; 512]; 4],
    count: usize,
}

impl Waiting {
    pub(crate) fn new() -> Waiting {
        Waiting {
            inner: [[0; 512]; 4],
            count: 0,
        }
    }

    pub(crate) fn is_full(&self) -> bool {
        self.count >= 4
    }

    /// Where the digests of one more are written, before it is `added`.
    pub(crate) fn next(&mut self) -> Option<&mut [u8; 512]> {
        if self.count < 4 {
            Some(&mut self.inner[self.count])
        } else {
            None
        }
    }

    /// Counts the one that was written.
    pub(crate) fn added(&mut self) {
        if self.count < 4 {
            self.count += 1;
        }
    }

    /// Forgets all.
    pub(crate) fn clear(&mut self) {
        self.count = 0;
    }

    /// The digests of all; None where there are so few that it is quicker to hash each by itself.
    pub(crate) fn hashed(&self) -> Option<Known> {
        if self.count < 3 {
            return None;
        }
        Some(Known {
            inner: &self.inner,
            digests: spl_sha256_lanes::digests(1, &self.inner),
        })
    }
}

/// Four inner nodes, and their digests.
#[derive(Drop)]
pub(crate) struct Known<'a> {
    inner: &'a [[u8; 512]; 4],
    digests: [[u8; 32]; 4],
    ghost right: { digests ≡ map (λ parts. sha256 (1 ∷ parts)) inner.now },
}

impl<'a> Known<'a> {
    /// The digests of the parts of one.
    pub(crate) fn parts(&self, at: usize) -> &[u8; 512]
        requires { at < 4 }
        ensures { result.now ≡ slice_index_or self.now.inner.now at [] }
    {
        &self.inner[at]
    }

    /// The digest of one.
    pub(crate) fn digest(&self, at: usize) -> [u8; 32]
        requires { at < 4 }
        ensures { result ≡ sha256 (1 ∷ slice_index_or self.now.inner.now at []) }
    {
        self.digests[at]
    }
}
