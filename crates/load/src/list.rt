//! The list of a cell.
ghost use Rattle.std.specs.Prelude.{◌≡◌, ℕ, ◌+◌, ◌<◌, ◌≤◌, length, take, drop, pos, Decides, MatchResult, ◌≢◌, slice_index_or, unsigned_abs};
ghost use Rattle.sheets.specs.Sheet.{four_bytes};
ghost use Rattle.load.specs.Read.{ReadList, NoList};

use sheets::fault::RuleFault;

/// Reads the content of a cell field, whose tag is the byte `tag` of the file, as 1 to 64 different numbers of at most a million.
/// `numbers` are the places of this cell in the store of numbers. How many they are; those past them stay as they were.
pub(crate) fn read_list(content: &[u8], tag: usize, numbers: &mut [i32]) -> Result<u8, RuleFault>
    requires { length numbers.old ≡ 64 }
    ensures { MatchResult result (ReadList content.now numbers.old numbers.new) (NoList content.now tag) }
{
    let (items, part) = content.as_chunks::<4>();
    if !part.is_empty() || items.is_empty() || items.len() > 64 {
        return Err(RuleFault::List(tag));
    }
    // By index, since a number is compared with those before it.
    for (k, bytes) in items.iter().enumerate() {
        let number = number_of(bytes);
        if !is_small(number) || !is_new(numbers, k, number) {
            return Err(RuleFault::List(tag));
        }
        numbers[k] = number;
    }
    Ok(items.len() as u8)
}

/// The number in four bytes.
fn number_of(bytes: &[u8; 4]) -> i32
    ensures { four_bytes result ≡ bytes.now }
{
    i32::from_be_bytes(*bytes)
}

/// Whether a number is one that a list may have.
fn is_small(number: i32) -> bool
    ensures { Decides result (unsigned_abs number ≤ 1000000) }
{
    number.unsigned_abs() <= 1000000
}

/// Whether a number is none of the first `count`.
fn is_new(numbers: &[i32], count: usize, number: i32) -> bool
    requires { count ≤ length numbers.now }
    ensures { Decides result ((j : ℕ) → j < count → slice_index_or numbers.now j (pos 0) ≢ number) }
{
    // `all` and no `contains`: with that the proof did not close.
    numbers[..count].iter().all(|earlier| *earlier != number)
}
