//! The head of a field.
use sheets::tag::Tag;

/// A field's tag, and the length of its content.
#[derive(Clone, Copy, Debug, PartialEq, Eq)]
pub struct Head {
    pub tag: Tag,
    pub length: usize,
}
