//! The calls of the worked sheets, made on sessions over what their files hold.
ghost use Rattle.std.specs.Prelude.{◌≡◌, ℕ, List, IfOk};
ghost use Rattle.sheets.specs.Sheet.{file_of};
ghost use Rattle.sheets.specs.Stored.{held, Enough};
ghost use Rattle.worked.specs.declared.example.Example.{Example as AnExample};
ghost use Rattle.worked.specs.Shows.{Show, Make};
ghost use Rattle.worked.specs.Examples.{sheet_of, calls_of, shown_of};

use crate::example::Example;
use crate::usual::play_usual;
use answers::fit::step;
use calls::call::Call;
use calls::step::Step;
use load::load::load;
use sheet_books::{books, lengths};
use sheets::stores::Stores;
use std::alloc::{AllocError, Global};
use storage::Storage;

/// Steps that make some calls.
fn steps(heap: Global, calls: &[Call]) -> Result<Vec<Step>, AllocError>
    ensures { IfOk result (λ v. Make calls.now v.items) }
{
    let mut steps = Vec::new(heap);
    for call in calls {
        steps.push(step(heap, *call)?)?;
    }
    Ok(steps)
}

/// Reads a file into the stores, and plays the steps on a session over what it holds.
fn play_file(file: &[u8], stores: &mut Stores<'_>, steps: &mut [Step])
    requires { Enough (held stores.old) }
    ensures { (x : AnExample) → file.now ≡ file_of (sheet_of x) → Make (calls_of x) steps.old → Show 3 (shown_of x) steps.new }
{
    if let Ok(extent) = load(file, stores) {
        let _ = play_usual(lengths(stores, extent), books(stores, extent), steps);
    }
}

/// The calls of a worked sheet, as they were made on a session over what its file holds.
pub fn play_example(heap: Global, example: Example) -> Result<Vec<Step>, AllocError>
    ensures { IfOk result (λ v. Show 3 (shown_of example) v.items) }
{
    let mut storage = Storage::new(heap)?;
    let mut stores = storage.lend();
    let mut steps = steps(heap, example.calls())?;
    play_file(example.file(), &mut stores, &mut steps);
    Ok(steps)
}

#[cfg(test)]
mod tests {
    use crate::example::Example;
    use calls::answer::Answer;
    use clash::fitted::Fitted;
    use std::test::Fail;

    #[test]
    fn a_core_of_one_rule(rt: HostRuntime) -> Result<(), Fail> {
        let steps = super::play_example(rt.alloc(), Example::Freed)?;
        let core = Fitted {
            lines: 4,
            core: Some(1),
        };
        assert!(rt; steps[2].answer == Answer::Fitted(core));
        Ok(())
    }
}
