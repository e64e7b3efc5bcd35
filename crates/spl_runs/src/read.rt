//! Lines of a schedule, as they were given and as they were read.

/// A line of a schedule: its number, from 1, and its bytes.
#[derive(Clone, Copy)]
pub(crate) struct ScheduleLine<'a> {
    pub(crate) number: u32,
    pub(crate) bytes: &'a [u8],
}

/// A line and what its bytes say.
#[derive(Drop)]
pub(crate) struct ReadLine<'a, S> {
    pub(crate) line: ScheduleLine<'a>,
    pub(crate) says: &'a S,
}
