//! Why a value is refused.

/// Why a value is refused: a code, and where in the value, 0 unless the code says otherwise. The codes from 9 to 12 are
/// the causes that make a batch invalid.
#[derive(Clone, Copy, PartialEq, Eq)]
pub struct Reason {
    pub code: u8,
    pub at: u8,
}

impl Reason {
    /// The act's node isn't a member.
    pub const NOT_A_MEMBER: Reason = Reason { code: 1, at: 0 };

    /// The lifecycle doesn't admit the act.
    pub const WRONG_LIFECYCLE: Reason = Reason { code: 2, at: 0 };

    /// The node has accepted already.
    pub const ALREADY_ACCEPTED: Reason = Reason { code: 3, at: 0 };

    /// The node isn't the requester.
    pub const NOT_REQUESTER: Reason = Reason { code: 4, at: 0 };

    /// Another definition is bound.
    pub const OTHER_DEFINITION: Reason = Reason { code: 5, at: 0 };

    /// The coordinator can't bind the definition.
    pub const CANNOT_BIND: Reason = Reason { code: 6, at: 0 };

    /// A member voted no.
    pub const VOTED_NO: Reason = Reason { code: 7, at: 0 };

    /// The id of the batch is taken.
    pub const ID_TAKEN: Reason = Reason { code: 8, at: 0 };

    /// The code where a batch breaks a rule, which `at` numbers.
    pub const BROKEN_RULE: u8 = 13;
}

/// What the content of a group says to a forwarded value.
#[derive(Clone, Copy, PartialEq, Eq)]
pub enum Admit {
    /// The value may be queued.
    Take,
    /// The value is passed over.
    Ignore,
    /// The value goes back, refused.
    Return(Reason),
}
