//! Sets of numbers below 64, of places or of rules, as 64-bit masks. Uses nothing but std.
#![tactic(auto)]

ghost use Rattle.std.specs.Prelude.{◌≡◌, ℕ, ◌-◌, ◌/◌, ◌%◌, ◌^◌, ◌<◌, ◌≤◌, Decides, IfSome, IsNone, ◌↔◌, bit_or};
ghost use Rattle.bits.specs.Sets.{In, Lowest, size};

/// Whether `v` is in the set.
pub fn has(set: u64, v: u8) -> bool
    ensures { Decides result ((v < 64) × In set v) }
{
    v < 64 && (set >> v) % 2 == 1
}

/// The set with `v` alone; empty where `v` is 64 or more.
pub fn only(v: u8) -> u64
    ensures one { v < 64 → result ≡ 2 ^ v }
    ensures none { 64 ≤ v → result ≡ 0 }
{
    if v < 64 { 1 << v } else { 0 }
}

/// The first numbers, so many; all where it is 64 or more.
pub fn first(many: u8) -> u64
    ensures some { many < 64 → result ≡ 2 ^ many - 1 }
    ensures all { 64 ≤ many → result ≡ 2 ^ 64 - 1 }
{
    if many >= 64 {
        u64::MAX
    } else {
        (1 << many) - 1
    }
}

/// The set without `v`.
pub fn without(set: u64, v: u8) -> u64
    ensures out { v < 64 → In set v → result ≡ set - 2 ^ v }
    ensures same { ((v < 64) × In set v → ⊥) → result ≡ set }
{
    if has(set, v) { set - (1 << v) } else { set }
}

/// The set with `v`; unchanged where `v` is 64 or more.
pub fn with(set: u64, v: u8) -> u64
    ensures more { v < 64 → result ≡ bit_or set (2 ^ v) }
    ensures same { 64 ≤ v → result ≡ set }
{
    if v < 64 { set | (1 << v) } else { set }
}

/// The lowest of a set, if any.
pub fn lowest(set: u64) -> Option<u8>
    ensures is { IfSome result (λ v. Lowest set v × (v < 64)) }
    ensures empty { IsNone result ↔ (set ≡ 0) }
{
    if set == 0 {
        return None;
    }
    Some(set.trailing_zeros() as u8)
}

/// How many are in the set.
pub fn count(set: u64) -> u8
    ensures size { result ≡ size set }
    ensures most { result ≤ 64 }
{
    set.count_ones() as u8
}
