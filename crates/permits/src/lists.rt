//! The cells' lists.
ghost use Rattle.std.specs.Prelude.{◌≡◌, ℕ, ◌≤◌, [], length, IfSome, IfOk, Decides, OnOk};
ghost use Rattle.permits.specs.Lists.{Follows, IsList, Adds};

use std::alloc::{AllocError, Global};

/// The lists so far, 64 places for each.
// Two vectors, since `preview` takes the lists as a host's stores have them.
#[derive(Drop)]
pub struct Lists {
    pub lengths: Vec<u8>,
    pub numbers: Vec<i32>,
}

impl Lists {
    pub fn new(heap: Global) -> Lists
        ensures { (result.lengths.items ≡ []) × (result.numbers.items ≡ []) }
    {
        Lists {
            lengths: Vec::new(heap),
            numbers: Vec::new(heap),
        }
    }

    /// One more list.
    pub(crate) fn add(&mut self, list: &[i32]) -> Result<(), AllocError>
        requires { length list.now ≤ 64 }
        ensures { OnOk result (Adds list.now self.old.lengths.items self.old.numbers.items self.new.lengths.items self.new.numbers.items) }
    {
        self.lengths.push(list.len() as u8)?;
        self.numbers.extend_from_slice(list)?;
        let end = self.numbers.len() + (64 - list.len());
        self.numbers.resize(end, 0)?;
        Ok(())
    }
}

/// The numbers of a line; none if they are no list.
pub fn list_in(heap: Global, line: &str) -> Result<Option<Vec<i32>>, AllocError>
    ensures { IfOk result (λ o. IfSome o (λ v. IsList v.items)) }
{
    let mut list = Vec::new(heap);
    for word in line.split_whitespace() {
        let Ok(number) = word.parse::<i32>() else {
            return Ok(None);
        };
        if !may_follow(&list, number) {
            return Ok(None);
        }
        list.push(number)?;
    }
    if list.is_empty() {
        return Ok(None);
    }
    Ok(Some(list))
}

/// Whether a list can go on with a number.
fn may_follow(list: &[i32], number: i32) -> bool
    ensures { Decides result (Follows list.now number) }
{
    list.len() < 64 && (-1_000_000..=1_000_000).contains(&number) && !list.contains(&number)
}
