//! How large a run is.

/// How many members and how many faults of acceptors a run has: with F faults there are 2F + 1 acceptors.
#[derive(Clone, Copy, PartialEq, Eq)]
pub struct Group {
    pub members: u8,
    pub faults: u8,
}

impl Group {
    ghost use Rattle.std.specs.Prelude.{◌≡◌, ◌<◌};
    ghost use Rattle.spl_acceptor.specs.Quorums.{acceptors};

    /// How many acceptors there are.
    pub fn acceptors(self) -> u8
        requires few { self.faults < 128 }
        ensures { result ≡ acceptors self.faults }
    {
        self.faults + self.faults + 1
    }
}
