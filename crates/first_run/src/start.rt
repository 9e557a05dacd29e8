//! What a first run starts from.
ghost use Rattle.std.specs.Prelude.{◌≡◌, ℕ, ◌<◌, ◌≤◌, [], length, IfOk, slice_index, true, None};
ghost use Rattle.calls.specs.History.{set_where};
ghost use Rattle.calls.specs.Runs.{starts};

use bits::{first, with};
use std::alloc::{AllocError, Global};

/// Each cell's whole list.
pub(crate) fn whole_lists(heap: Global, lengths: &[u8]) -> Result<Vec<u64>, AllocError>
    requires { (c : ℕ) → c < length lengths.now → slice_index lengths.now c ≤ 64 }
    ensures { IfOk result (λ v. v.items ≡ starts lengths.now (λ c. None)) }
{
    let mut start = Vec::new(heap);
    for length in lengths {
        start.push(first(*length))?;
    }
    Ok(start)
}

/// All rules, so many.
pub(crate) fn all_rules(count: u16) -> u64
    requires { count ≤ 64 }
    ensures { result ≡ set_where (λ r. true) count }
{
    let mut rules = 0;
    for rule in 0..count {
        rules = with(rules, rule as u8);
    }
    rules
}
