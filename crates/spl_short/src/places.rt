//! Where a short address may stand.
use spl_base::is_text;

/// The beginning of a word behind which a short address may stand.
#[derive(Clone, Copy)]
pub(crate) struct Place {
    /// The beginning, with the mark of a short address.
    pub(crate) before: &'static [u8],
    /// What stays of it.
    pub(crate) kept: &'static [u8],
    /// Whether an address stands there, and not the beginning of addresses.
    pub(crate) is_whole: bool,
}

static ADDRESS: [Place; 1] = [Place {
    before: b"'",
    kept: b"",
    is_whole: true,
}];

static PREFIX: [Place; 1] = [Place {
    before: b"'",
    kept: b"",
    is_whole: false,
}];

static PARTS: [Place; 5] = [
    Place {
        before: b"set:'",
        kept: b"set:",
        is_whole: true,
    },
    Place {
        before: b"get:'",
        kept: b"get:",
        is_whole: true,
    },
    Place {
        before: b"del:'",
        kept: b"del:",
        is_whole: true,
    },
    Place {
        before: b"in:'",
        kept: b"in:",
        is_whole: false,
    },
    Place {
        before: b"out:'",
        kept: b"out:",
        is_whole: false,
    },
];

static NONE: [Place; 0] = [];

/// Those of a line of this name.
pub(crate) fn places_of(name: &[u8]) -> &'static [Place] {
    if is_text(name, b"get") || is_text(name, b"prove") {
        return &ADDRESS;
    }
    if is_text(name, b"list") {
        return &PREFIX;
    }
    if is_text(name, b"submit") {
        return &PARTS;
    }
    &NONE
}
