//! What `replay` prints for a file and a script.
ghost use Rattle.std.specs.Prelude.{◌≡◌, ℕ, ◌+◌, ◌^◌, ◌<◌, false, List, ◌++◌, length, take, slice_index_or, MatchOption, IfOk, OnOk, string_bytes};
ghost use Rattle.sheets.specs.Sheet.{Sheet};
ghost use Rattle.sheets.specs.Stored.{held, Enough};
ghost use Rattle.sheet_books.specs.Books.{Holds};
ghost use Rattle.replaying.specs.Lines.{load_line};
ghost use Rattle.replaying.specs.Replays.{stays, AllStay, TurnedText, Sessions, no_flags, Replays};

use crate::session_text::push_session;
use load::load::load;
use network::turned::Turned;
use script::line::{Line, lines};
use sheet_books::{books, lengths};
use sheets::fault::LoadFault;
use sheets::stores::{Extent, Stores};
use shown::layer_word;
use std::alloc::{AllocError, Global};
use storage::Storage;

/// The line of a fault.
#[tactic(auto, using(text::proofs::Pieces::pieces))]
fn push_load(out: &mut String, fault: LoadFault) -> Result<(), AllocError>
    ensures { OnOk result (string_bytes out.new ≡ string_bytes out.old ++ load_line fault) }
{
    let layer = layer_word(fault.layer());
    writeln!(out, "load {} {layer} {}", fault.number(), fault.offset())
}

/// The place of the first line that begins a session.
fn next_turn(lines: &[Line]) -> Option<usize>
    ensures { MatchOption result (AllStay lines.now) (λ k. (k < length lines.now) × AllStay (take k lines.now) × (stays (slice_index_or lines.now k Line.Blank) ≡ false)) }
{
    for (place, line) in lines.iter().enumerate() {
        if let Line::Turn(_) = line {
            return Some(place);
        }
    }
    None
}

/// The flags of the rules that a line turns.
fn flags_of(line: &Line) -> [bool; 64]
    ensures { stays line.now ≡ false → line.now ≡ Line.Turn result }
{
    match line {
        Line::Turn(flags) => *flags,
        Line::Blank | Line::Call(_) | Line::NotUnderstood => [false; 64],
    }
}

/// The text of one session on the sheet in the stores, with the flagged rules turned round.
fn push_turned(
    heap: Global,
    out: &mut String,
    stores: &Stores<'_>,
    extent: Extent,
    flags: [bool; 64],
    first: usize,
    lines: &[Line],
) -> Result<(), AllocError>
    requires { first + length lines.now < 2 ^ 64 }
    ensures { OnOk result ((s : Sheet) → Holds (held stores.now) extent s → ((t : List ℕ) × (string_bytes out.new ≡ string_bytes out.old ++ t) × TurnedText s flags first lines.now t)) }
{
    let book = Turned::new(books(stores, extent), flags);
    push_session(heap, out, lengths(stores, extent), book, first, lines)
}

/// The text of a script's sessions on the sheet in the stores.
fn push_sessions(
    heap: Global,
    out: &mut String,
    stores: &Stores<'_>,
    extent: Extent,
    lines: &[Line],
) -> Result<(), AllocError>
    ensures { OnOk result ((s : Sheet) → Holds (held stores.now) extent s → ((t : List ℕ) × (string_bytes out.new ≡ string_bytes out.old ++ t) × Sessions s no_flags 1 lines.now t)) }
{
    let mut flags = [false; 64];
    let mut first = 1usize;
    let mut rest = lines;
    while let Some(count) = next_turn(rest) {
        push_turned(heap, out, stores, extent, flags, first, &rest[..count])?;
        flags = flags_of(&rest[count]);
        first += count + 1;
        rest = &rest[count + 1..];
    }
    push_turned(heap, out, stores, extent, flags, first, rest)
}

/// The text for a file, read into these stores, and a script.
fn replay_in(
    heap: Global,
    file: &[u8],
    stores: &mut Stores<'_>,
    script: &[u8],
) -> Result<String, AllocError>
    requires { Enough (held stores.old) }
    ensures { IfOk result (λ v. Replays file.now script.now (string_bytes v)) }
{
    let mut out = String::new(heap);
    match load(file, stores) {
        Ok(extent) => {
            let lines = lines(heap, script)?;
            push_sessions(heap, &mut out, stores, extent, &lines)?;
        }
        Err(fault) => push_load(&mut out, fault)?,
    }
    Ok(out)
}

/// The text that `replay` prints for a file and a script: the line of the file's first fault; or, for each session of the script, whether it is open and
/// the answers to its calls, as promised for any sequence of calls.
pub fn replay(heap: Global, file: &[u8], script: &[u8]) -> Result<String, AllocError>
    ensures { IfOk result (λ v. Replays file.now script.now (string_bytes v)) }
{
    let mut storage = Storage::new(heap)?;
    replay_in(heap, file, &mut storage.lend(), script)
}

#[cfg(test)]
mod tests {
    use std::test::Fail;

    #[test]
    fn a_session(rt: HostRuntime) -> Result<(), Fail> {
        let file = b"\x01\x00\x08\x00\x00\x00\x01\x00\x00\x00\x02\x04\x00\x00";
        let script = b"pin 1\n# nothing\n\npin 0 1\nfree 300\nswitch 0 on\nturn x\nfit\nturn 99\n";
        let out = super::replay(rt.alloc(), file, script)?;
        assert!(rt;
            out.as_str()
                == "open 0\nline 1 not understood\npin 0\nfree 15\nswitch 17\nline 7 not understood\nfit 0 1 0000000000000000\nfilling 1\nlog 0000000000000000 0000000000000000 0\nopen 0\n"
        );
        Ok(())
    }

    #[test]
    fn a_shut_session(rt: HostRuntime) -> Result<(), Fail> {
        let file = b"\x04\x00\x00";
        let out = super::replay(rt.alloc(), file, b"fit\npin 0 0")?;
        assert!(rt; out.as_str() == "open 11\nfit refused 14\npin 14\n");
        Ok(())
    }

    #[test]
    fn a_fault(rt: HostRuntime) -> Result<(), Fail> {
        let out = super::replay(rt.alloc(), b"\x04\x01", b"fit\n")?;
        assert!(rt; out.as_str() == "load 1 field 0\n");
        Ok(())
    }
}
