//! The words of a line.
ghost use Rattle.std.specs.Prelude.{◌≡◌, map, IfOk};
ghost use Rattle.script.specs.Words.{words_of};

use std::alloc::{AllocError, Global};

/// What stands between the blanks of a line.
pub fn words(heap: Global, line: &[u8]) -> Result<Vec<&[u8]>, AllocError>
    ensures { IfOk result (λ v. map (λ w. w.now) v.items ≡ words_of line.now) }
{
    line.split(|byte| byte.is_ascii_whitespace())
        .filter(|word| !word.is_empty())
        .collect(heap)
}
