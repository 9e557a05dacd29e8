//! The places that a row may have at each position.
ghost use Rattle.std.specs.Prelude.{◌≤◌, length};

/// The places allowed at each position of a rule: at most four masks.
#[derive(Clone, Copy)]
pub struct Masks<'m> {
    pub each: &'m [u64],
    ghost few: { length each.now ≤ 4 },
}
