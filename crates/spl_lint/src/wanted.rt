//! What may stand at a place of a line, in words.

/// What may stand at a place where something else stands.
#[derive(Clone, Copy, PartialEq, Eq)]
pub enum Wanted {
    /// The name of a line.
    LineName,
    /// The name of a line that may stand in a cut or a fail.
    StepName,
    Node,
    /// The node from which a message comes.
    From,
    /// The node to which it goes.
    To,
    Circuit,
    ServiceId,
    /// A number of 8, of 32 and of 64 bits.
    Small,
    Number,
    Batch,
    /// Such a number, from 1 on.
    SmallFromOne,
    NumberFromOne,
    /// A number of passes or of batches.
    Passes,
    Name,
    WatcherName,
    Members,
    Services,
    Vote,
    Address,
    Prefix,
    Root,
    Claim,
    Proof,
    Fill,
    /// The word that begins a transaction.
    Transaction,
    /// Any other word of one.
    Part,
    Input,
    Output,
    Set,
    Entry,
    Event,
    Data,
    Tag,
    OneSpace,
    NoReturn,
    LineEnd,
    LineFeed,
    ShorterLine,
}

impl Wanted {
    /// It in words.
    pub fn text(self) -> &'static str {
        match self {
            Wanted::LineName => "the name of a line, as show",
            Wanted::StepName => "the name of a line that may stand behind cut and fail",
            Wanted::Node | Wanted::From => "a node of the registry",
            Wanted::To => "a node of the registry other than the one from which the message comes",
            Wanted::Circuit => "a circuit's id: five of 0-9, A-Z and a-z, -, and five more",
            Wanted::ServiceId => "a service's id: four of 0-9, A-Z and a-z",
            Wanted::Small => "a number up to 255, without leading zeros",
            Wanted::Number => "a number up to 4294967295, without leading zeros",
            Wanted::Batch => "a number up to 18446744073709551615, without leading zeros",
            Wanted::SmallFromOne => "a number from 1 to 255, without leading zeros",
            Wanted::NumberFromOne => "a number from 1 to 4294967295, without leading zeros",
            Wanted::Passes => "a number from 1 to 64, without leading zeros",
            Wanted::Name => "1 to 128 bytes from ! to ~",
            Wanted::WatcherName => "1 to 8 of a-z and 0-9",
            Wanted::Members => "1 to 16 nodes of the registry, with , between them",
            Wanted::Services =>
                "1 to 16 of SERVICE:TYPE:NODE, with , between them; NODE of the registry",
            Wanted::Vote => "accept or reject",
            Wanted::Address => "70 digits of 0-9 and a-f",
            Wanted::Prefix => "- for all, or an even number of digits of 0-9 and a-f, 2 to 70",
            Wanted::Root => "64 digits of 0-9 and a-f",
            Wanted::Claim => "- for no value, or = and an even number of digits of 0-9 and a-f",
            Wanted::Proof => "an even number of digits of 0-9 and a-f, 2 or more",
            Wanted::Fill => "old, new, or byte: and two digits of 0-9 and a-f",
            Wanted::Transaction => "tx, which begins a transaction",
            Wanted::Part =>
                "tx, or in:, out:, set:, get:, del:, event:, data:, invalid: or error: with what belongs to it",
            Wanted::Input =>
                "in: and an even number of digits of 0-9 and a-f up to 70, before any out: and command of its tx",
            Wanted::Output =>
                "out: and an even number of digits of 0-9 and a-f up to 70, before any command of its tx",
            Wanted::Set => "set:, 70 digits, = and an even number of digits of 0-9 and a-f",
            Wanted::Entry => "get: or del: and 70 digits of 0-9 and a-f",
            Wanted::Event =>
                "event:, 1 to 64 bytes from ! to ~ but =, then = and an even number of digits of 0-9 and a-f",
            Wanted::Data => "data: and an even number of digits of 0-9 and a-f",
            Wanted::Tag => "invalid: or error: and 1 to 64 bytes from ! to ~ but =",
            Wanted::OneSpace => "one space between words and none at either end",
            Wanted::NoReturn => "a line feed alone, without a carriage return",
            Wanted::LineEnd => "the end of the line",
            Wanted::LineFeed => "a line feed at the end of the last line",
            Wanted::ShorterLine =>
                "at most 32768 bytes, and 98304 in a line that begins with check",
        }
    }
}
