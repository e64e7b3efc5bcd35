//! What a content keeps beside its list.
ghost use Rattle.std.specs.Prelude.{◌≡◌};

/// A content that keeps something beside its list, as digests, which goes stale as the list grows.
pub trait Renew {
    /// What contents that are renewed in turn share, so that work on equal ones is done once.
    type Cache;

    /// Makes again what is stale, so that reading it costs nothing. Where memory runs out nothing changes; nothing that is seen changes.
    fn renew(&mut self, cache: &mut Self::Cache)
        ensures { self.new ≡ self.old };
}
