//! What a Fit starts from, and what it leaves.
ghost use Rattle.std.specs.Prelude.{◌≡◌, ℕ, ◌-◌, ◌^◌, ◌<◌, ◌≤◌, false, length, drop, None, slice_index, slice_index_or};
ghost use Rattle.calls.specs.History.{set_where};
ghost use Rattle.calls.specs.Runs.{start_of, starts};
ghost use Rattle.session.specs.Pins.{held, LowestByte};

use bits::{first, lowest, only, with};

/// What a cell starts with: its pin alone, if that is a place of its list, or its whole list.
fn start_of(length: u8, pin: Option<u8>) -> u64
    requires { «length» ≤ 64 }
    ensures { result ≡ start_of «length» (held «length» pin) }
{
    match pin {
        Some(place) if place < length => only(place),
        _ => first(length),
    }
}

/// Writes what each cell starts with.
pub(crate) fn set_starts(lengths: &[u8], pins: &[Option<u8>; 64], start: &mut [u64])
    requires cells { length start.old ≡ length lengths.now }
    requires few { length lengths.now ≤ 64 }
    requires short { (c : ℕ) → c < length lengths.now → slice_index lengths.now c ≤ 64 }
    ensures { start.new ≡ starts lengths.now (λ c. held (slice_index lengths.now c) (slice_index_or pins.now c None)) }
{
    // By index: as a `zip` the proof did not close; nothing is known of what a `zip` of `iter_mut` writes.
    for (cell, set) in start.iter_mut().enumerate() {
        *set = start_of(lengths[cell], pins[cell]);
    }
}

/// The first rules that are on.
pub(crate) fn rules_on(switches: &[bool; 64], count: u16) -> u64
    requires { count ≤ 64 }
    ensures { result ≡ set_where (λ r. slice_index_or switches.now r false) count }
{
    let mut rules = 0;
    for (rule, on) in switches[..usize::from(count)].iter().enumerate() {
        if *on {
            rules = with(rules, rule as u8);
        }
    }
    rules
}

/// The byte that stands for a set: its lowest place, or 64 where it is empty.
// A byte and no `Option`: hosts are promised it.
fn lowest_byte(places: u64) -> u8
    ensures { LowestByte places result }
{
    lowest(places).unwrap_or(64)
}

/// Writes the lowest place of each set, one byte a cell; 64 where a set is empty.
pub(crate) fn write_lowest(sets: &[u64], filling: &mut [u8])
    requires { length sets.now ≤ length filling.old }
    ensures places { (c : ℕ) → c < length sets.now → LowestByte (slice_index sets.now c) (slice_index filling.new c) }
    ensures later { drop (length sets.now) filling.new ≡ drop (length sets.now) filling.old }
{
    // By index: as a `zip` the proof did not close, as above.
    for (cell, set) in sets.iter().enumerate() {
        filling[cell] = lowest_byte(*set);
    }
}
