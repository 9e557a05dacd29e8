//! Sets of rules in rule order.
ghost use Rattle.std.specs.Prelude.{◌≡◌, ℕ, take, slice_get};
ghost use Rattle.bits.specs.Sets.{members, set_of};

use bits::{has, with};

/// The first rules of a set, in rule order.
pub fn first(set: u64, many: usize) -> u64
    ensures { result ≡ set_of (take many (members set)) }
{
    // A loop: as a chain of `filter`, `take` and `fold` the proof did not close.
    let mut chosen = 0;
    let mut seen = 0;
    for rule in 0..64u8 {
        if has(set, rule) {
            if seen < many {
                chosen = with(chosen, rule);
            }
            seen += 1;
        }
    }
    chosen
}

/// The rule at a place of a set, in rule order from 0, if the set has so many.
pub fn nth(set: u64, place: usize) -> Option<u8>
    ensures { result ≡ slice_get (members set) place }
{
    // A loop: as a chain of `filter` and `nth` over the numbers below 64 the proof did not close.
    let mut seen = 0;
    for rule in 0..64u8 {
        if has(set, rule) {
            if seen == place {
                return Some(rule);
            }
            seen += 1;
        }
    }
    None
}
