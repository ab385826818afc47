//! A line of a specification file.
ghost use Rattle.std.specs.Prelude.{◌<◌, ◌+◌, ◌^◌, length};

/// A line of a text that isn't passed over, cut into its key and its value.
#[derive(Clone, Copy, Debug)]
pub struct Line<'a> {
    /// The number of the line, counted from 1. Lines that are passed over have numbers too.
    pub number: u64,
    /// The bytes up to the first blank. Never empty.
    pub key: &'a [u8],
    /// How many bytes of the line stand before its value.
    pub before: u64,
    /// What follows the key, without the blanks around it.
    pub value: &'a [u8],
    pub ghost fits: { before + length value.now < 2 ^ 64 },
}
