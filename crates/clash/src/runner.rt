//! What a Fit asks of whatever runs listed rules.
ghost use Rattle.std.specs.Prelude.{◌≡◌, ℕ, ◌↔◌, List, Decides, IsSome, IfSome, IfNone};
ghost use Rattle.runs.specs.declared.line.Line.{Line};
ghost use Rattle.clash.specs.Running.{Lasting, lasting, Laws};
ghost use Rattle.readiness.specs.Room.{Room};

use runs::line::Line;

/// Something that runs: it lists some rules, and its line says whether some filling meets them. A `C` and the weights last from run to run.
pub trait Runner<C>: Sized {
    /// How many cells there are.
    ghost cells: { Self → ℕ };

    /// The rules of a set may be listed.
    ghost ready: { Self → ℕ → Type 0 };

    /// Some filling meets the rules of a set.
    ghost fits: { Self → ℕ → Type 0 };

    /// What a run may come to: the line that it writes, the sets that it leaves, and what lasts.
    ghost runs: { Self → Lasting C → Line → List ℕ → Lasting C → Type 0 };

    /// Every line is right.
    ghost laws: { (r : Self) → Laws (ready r) (fits r) (runs r) };

    /// The number of cells.
    fn cell_count(&self) -> usize
        ensures { result ≡ cells self.now };

    /// Whether the rules of a set may be listed.
    fn is_ready(&self, listed: u64) -> bool
        ensures { Decides result (ready self.now listed) };

    /// A run that lists some rules, where these may be listed and it has its buffers; else `None`, and nothing is touched.
    // The host lends each buffer, so they come one by one.
    fn run(
        &self,
        chooser: &mut C,
        weights: &mut [u32],
        listed: u64,
        work: &mut [u64],
        sets: &mut [u64],
    ) -> Option<Line>
        ensures made { IsSome result ↔ ready self.now listed × Room (cells self.now) weights.old work.old sets.old }
        ensures untouched { IfNone result ((chooser.new ≡ chooser.old) × (weights.new ≡ weights.old) × (work.new ≡ work.old) × (sets.new ≡ sets.old)) }
        ensures steps { IfSome result (λ l. runs self.now (lasting chooser.old weights.old) l sets.new (lasting chooser.new weights.new)) }
        ensures lists { IfSome result (λ l. l.listed ≡ listed) };
}
