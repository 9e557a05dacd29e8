//! Lists of conditions.

/// How the conditions of a list are joined.
// An enum and no closure, which would have to say what it gives for every two nodes.
#[derive(Clone, Copy, Debug, PartialEq, Eq)]
pub enum Join {
    All,
    Any,
}
