//! A place in a formula's text.
ghost use Rattle.std.specs.Prelude.{◌<◌, ◌≤◌, ◌^◌, length};

/// A formula's text, and how many cells a formula in it may name.
// Behind a reference the fields do not bring their bounds, so the type says them.
#[derive(Clone, Copy)]
pub struct Text<'a> {
    pub bytes: &'a [u8],
    pub cells: u8,
    ghost long: { length bytes.now < 2 ^ 63 },
    ghost few: { cells < 256 },
}

/// A place in a text: the bytes before it are read.
// The text by reference, since places are handed about in `Option` and `Result` at each byte.
#[derive(Clone, Copy)]
pub struct Cursor<'a> {
    pub text: &'a Text<'a>,
    pub at: usize,
    ghost within: { at ≤ length text.now.bytes.now },
}
