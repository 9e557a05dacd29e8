//! Numbers of cells, places and rules.
ghost use Rattle.std.specs.Prelude.{◌≡◌, Decides, MatchOption};
ghost use Rattle.std.specs.List.{list_all};
ghost use Rattle.std.specs.Char.{is_ascii_digit};
ghost use Rattle.script.specs.Words.{IsNumber, rule_number};

/// Whether all bytes of a word are digits.
fn are_digits(word: &[u8]) -> bool
    ensures { result ≡ list_all is_ascii_digit word.now }
{
    word.iter().all(|byte| byte.is_ascii_digit())
}

/// Whether a word has digits alone, one at least.
fn is_number(word: &[u8]) -> bool
    ensures { Decides result (IsNumber word.now) }
{
    !word.is_empty() && are_digits(word)
}

/// The number that some digits stand for; 65,535 for any above.
// No cell, place or rule of an open session has so high a number, so all of these are refused alike.
pub fn number(word: &[u8]) -> Option<u16>
    ensures { MatchOption result (IsNumber word.now → ⊥) (λ n. IsNumber word.now × (n ≡ rule_number word.now)) }
{
    if !is_number(word) {
        return None;
    }
    let mut number = 0u16;
    for digit in word {
        number = number
            .saturating_mul(10)
            .saturating_add(u16::from(digit.saturating_sub(b'0')));
    }
    Some(number)
}
