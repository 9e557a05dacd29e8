//! A rule by rows.
ghost use Rattle.std.specs.Prelude.{◌≡◌, ℕ, ◌+◌, ◌*◌, ◌/◌, ◌^◌, ◌<◌, ◌≤◌, List, length, take, drop, Decides, MatchOption, MatchResult, ◌≢◌};
ghost use Rattle.rows.specs.declared.rule.Kind.{Kind};
ghost use Rattle.network.specs.Cells.{Listed};
ghost use Rattle.sheets.specs.Sheet.{kind_byte};
ghost use Rattle.sheets.specs.Stored.{filled};
ghost use Rattle.load.specs.Read.{ReadRows, NoRows};
ghost use Rattle.load.specs.Parts.{Splits, Known};

use network::cells::{are_good, are_listed};
use rows::rule::{Kind, RowsRule};
use sheets::fault::RuleFault;

/// Reads the content of a rows field, whose tag is the byte `tag` of the file, as a rule on cells with lists of these lengths.
/// The places of its rows go to the front of `places`, which is the store of places from `start` on; those past them stay as they were.
pub(crate) fn read_rows(
    content: &[u8],
    tag: usize,
    lengths: &[u8],
    start: usize,
    places: &mut [u8],
) -> Result<RowsRule, RuleFault>
    requires cells { length lengths.now ≤ 64 }
    requires room { length content.now ≤ length places.old }
    requires small { start + length content.now < 2 ^ 32 }
    ensures { MatchResult result (ReadRows content.now lengths.now start places.old places.new) (NoRows content.now lengths.now tag) }
{
    let Some(parts) = split(content, lengths.len()) else {
        return Err(RuleFault::Rows(tag));
    };
    let Parts { kind, cells, rest } = parts;
    let width = cells.len();
    let count = rest.len() / width;
    if rest.len() % width != 0 || !are_rows(rest, cells, lengths) {
        return Err(RuleFault::Rows(tag));
    }
    places[..rest.len()].copy_from_slice(rest);
    Ok(RowsRule {
        kind,
        width: width as u8,
        cells: stored(cells),
        start: start as u32,
        count: count as u32,
    })
}

/// The parts of a content: the kind of its rows, its cells, and the bytes of its rows.
#[derive(Clone, Copy)]
struct Parts<'a> {
    kind: Kind,
    cells: &'a [u8],
    rest: &'a [u8],
}

/// The parts of a content whose kind, width and cells are good, with so many cells in the sheet.
fn split(content: &[u8], count: usize) -> Option<Parts<'_>>
    requires { count ≤ 64 }
    ensures { MatchOption result ((kind : Kind) (cells rest : List ℕ) → Splits content.now count kind cells rest → ⊥) (λ p. Splits content.now count p.kind p.cells.now p.rest.now) }
{
    let [kind, width, rest @ ..] = content else {
        return None;
    };
    let kind = kind_of(*kind)?;
    let (cells, rest) = rest.split_at_checked(*width as usize)?;
    if !are_known(cells, count) || !are_good(cells) {
        return None;
    }
    Some(Parts { kind, cells, rest })
}

/// The kind that a byte stands for.
// No `TryFrom`: kinds are of `rows`, which knows no bytes of files.
fn kind_of(byte: u8) -> Option<Kind>
    ensures { MatchOption result ((k : Kind) → byte ≢ kind_byte k) (λ k. byte ≡ kind_byte k) }
{
    match byte {
        0 => Some(Kind::Permitted),
        1 => Some(Kind::Forbidden),
        _ => None,
    }
}

/// Cells as a rule has them, with zeros past them.
fn stored(cells: &[u8]) -> [u8; 4]
    requires { length cells.now ≤ 4 }
    ensures { result ≡ filled 0 4 cells.now }
{
    let mut all = [0; 4];
    all[..cells.len()].copy_from_slice(cells);
    all
}

/// Whether the cells are among the first `count`.
fn are_known(cells: &[u8], count: usize) -> bool
    ensures { Decides result (Known cells.now count) }
{
    cells.iter().all(|cell| (*cell as usize) < count)
}

/// Whether each row has places of its cells' lists.
fn are_rows(rows: &[u8], cells: &[u8], lengths: &[u8]) -> bool
    requires { 0 < length cells.now }
    ensures { Decides result ((i : ℕ) → i < length rows.now / length cells.now → Listed lengths.now cells.now (take (length cells.now) (drop (i * length cells.now) rows.now))) }
{
    rows.chunks_exact(cells.len())
        .all(|row| are_listed(row, cells, lengths))
}
