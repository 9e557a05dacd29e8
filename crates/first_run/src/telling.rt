//! What is told of a run.
ghost use Rattle.std.specs.Prelude.{◌≡◌, ℕ, ◌<◌, List, ◌++◌, length, IfOk, OnOk, slice_index, string_bytes};
ghost use Rattle.bits.specs.Sets.{members};
ghost use Rattle.runs.specs.declared.line.Verdict.TheVariants.{Met};
ghost use Rattle.runs.specs.Law.{Alone};
ghost use Rattle.session.specs.Pins.{LowestByte};
ghost use Rattle.first_run.specs.FirstRun.{Found, Told};

use crate::made::Made;
use bits::{has, lowest};
use run_lines::{push_log_line, push_numbers};
use runs::line::{Line, Verdict};
use std::alloc::{AllocError, Global};
use text::part;

/// The lowest place of a set; 64 where it is empty, which it is not after a run that found a filling.
fn lowest_place(set: u64) -> u32
    ensures { LowestByte set result }
{
    u32::from(lowest(set).unwrap_or(64))
}

/// The lowest place of each set.
fn lowest_places(heap: Global, sets: &[u64]) -> Result<Vec<u32>, AllocError>
    ensures { IfOk result (λ v. (length v.items ≡ length sets.now) × ((c : ℕ) → c < length sets.now → LowestByte (slice_index sets.now c) (slice_index v.items c))) }
{
    let mut places = Vec::new(heap);
    for set in sets {
        places.push(lowest_place(*set))?;
    }
    Ok(places)
}

/// The rules of a set, rising.
fn rules_in(heap: Global, set: u64) -> Result<Vec<u32>, AllocError>
    ensures { IfOk result (λ v. v.items ≡ members set) }
{
    let mut rules = Vec::new(heap);
    for rule in 0..64u8 {
        if has(set, rule) {
            rules.push(u32::from(rule))?;
        }
    }
    Ok(rules)
}

/// The line of what a run found: the filling, or the rules that clash.
fn push_found(heap: Global, out: &mut String, line: &Line, sets: &[u64]) -> Result<(), AllocError>
    requires { line.now.verdict ≡ Met → (f : List ℕ) × Alone sets.now f }
    ensures { OnOk result ((t : List ℕ) × (string_bytes out.new ≡ string_bytes out.old ++ t) × Found line.now sets.now t) }
{
    match line.verdict {
        Verdict::Met => push_numbers(out, "filling", &lowest_places(heap, sets)?),
        Verdict::Unmet => push_numbers(out, "used", &rules_in(heap, line.used)?),
    }
}

/// The lines of a run over so many rules.
pub(crate) fn push_made(
    heap: Global,
    out: &mut String,
    count: u16,
    made: &Made,
) -> Result<(), AllocError>
    requires { made.now.line.verdict ≡ Met → (f : List ℕ) × Alone made.now.sets.items f }
    ensures { OnOk result ((t : List ℕ) × (string_bytes out.new ≡ string_bytes out.old ++ t) × Told count made.now.line made.now.weights made.now.sets.items t) }
{
    push_log_line(out, &made.line)?;
    push_found(heap, out, &made.line, &made.sets)?;
    push_numbers(out, "weights", part(&made.weights, 0, usize::from(count)))
}
