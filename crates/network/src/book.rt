//! The interface of a rule book.
ghost use Rattle.std.specs.Prelude.{◌≡◌, ℕ, length, Decides, slice_index_or};
ghost use Rattle.network.specs.Book.{BookMeaning, Lawful, Supported};

/// A book of rules. A rule joins one to four cells, none of them twice, and permits some rows; a row has a place for each of the cells.
pub trait RuleBook {
    /// What the book means.
    ghost meaning: { Self → BookMeaning };

    /// There are 65,535 rules at most, and each has one to four cells, none twice, with numbers below 64.
    ghost laws: { (b : Self) → Lawful (meaning b) };

    /// The number of rules.
    fn count(&self) -> u16
        ensures { result ≡ (meaning self.now).count };

    /// The number of cells of a rule, 0 where the rule is missing.
    // A number and no `Option`, as that of a cell: 0 and 255 are promised to hosts.
    fn width(&self, rule: u16) -> u8
        ensures { result ≡ length ((meaning self.now).rule rule).cells };

    /// The cell at a position of a rule, 255 where it is missing.
    fn cell(&self, rule: u16, position: u8) -> u8
        ensures { result ≡ slice_index_or ((meaning self.now).rule rule).cells position 255 };

    /// Whether a place at a position has support from a rule in the sets: some permitted row has that place there, and each of its places remains.
    fn supported(&self, rule: u16, position: u8, place: u8, sets: &[u64]) -> bool
        ensures { Decides result (Supported ((meaning self.now).rule rule) position place sets.now) };
}
