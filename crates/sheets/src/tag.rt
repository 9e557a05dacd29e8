//! What a field is, by its tag.
ghost use Rattle.std.specs.Prelude.{◌≡◌, ◌≢◌, MatchResult};
ghost use Rattle.sheets.specs.declared.tag.Tag.{Tag};
ghost use Rattle.sheets.specs.Tags.{tag_byte};

/// What a field is.
#[derive(Clone, Copy, Debug, PartialEq, Eq)]
pub enum Tag {
    Cell,
    Rows,
    Formula,
    End,
}

/// A byte that is no tag.
#[derive(Clone, Copy, Debug, PartialEq, Eq)]
pub struct UnknownTag;

impl TryFrom<u8> for Tag {
    type Error = UnknownTag;

    ghost try_from_gives = { λ byte r. MatchResult r (λ t. byte ≡ tag_byte t) (λ _. (t : Tag) → byte ≢ tag_byte t) };

    fn try_from(byte: u8) -> Result<Self, UnknownTag> {
        match byte {
            1 => Ok(Tag::Cell),
            2 => Ok(Tag::Rows),
            3 => Ok(Tag::Formula),
            4 => Ok(Tag::End),
            _ => Err(UnknownTag),
        }
    }
}
