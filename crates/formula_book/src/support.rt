//! The formula book as a rule book.
ghost use Rattle.std.specs.Prelude.{◌≡◌, ℕ, ◌<◌, ◌≤◌, ◌↔◌, length, slice_index, slice_index_or, MatchOption};
ghost use Rattle.bits.specs.Sets.{In};
ghost use Rattle.formula_book.specs.Formulas.{GoodRule, formula_book, no_formula};
ghost use Rattle.formula_book.specs.FormulaLaws.{formula_lawful};
ghost use Rattle.formula_book.specs.Support.{ListedOf, lists_of};

use crate::book::FormulaBook;
use bits::first;
use network::book::RuleBook;
use network::masks::Masks;
use network::tries::{allowed, some_row};
use reader::formula::Formula;

impl<'a> FormulaBook<'a> {
    /// The formula of a number.
    fn find(&self, rule: u16) -> Option<&'a Formula>
        ensures { MatchOption result (length self.now.formulas.now ≤ rule) (λ f. (f.now ≡ slice_index_or self.now.formulas.now rule no_formula) × GoodRule self.now.nodes.now f.now) }
    {
        self.formulas.get(rule as usize)
    }

    /// The places of a cell's list, none where the list is missing.
    fn list(&self, cell: u8) -> u64
        ensures { (v : ℕ) → v < 64 → In result v ↔ v < slice_index self.now.lengths.now cell }
    {
        first(self.lengths.get(cell as usize).copied().unwrap_or(0))
    }

    /// Of the places allowed at each position, those of its cell's list: no other is tried.
    fn listed(&self, cells: [u8; 4], allowed: [u64; 4]) -> [u64; 4]
        ensures { ListedOf self.now.lengths.now cells allowed result }
    {
        let mut masks = allowed;
        // By index: as a `zip` the proof did not close; nothing is known of what a `zip` of `iter_mut` writes.
        for (at, mask) in masks.iter_mut().enumerate() {
            *mask &= self.list(cells[at]);
        }
        masks
    }
}

impl<'a> RuleBook for FormulaBook<'a> {
    ghost meaning = { λ b. formula_book (lists_of b.lengths.now b.numbers.now) b.nodes.now b.formulas.now };

    ghost laws = { λ b. formula_lawful (lists_of b.lengths.now b.numbers.now) b.nodes.now b.formulas.now b.ok };

    fn count(&self) -> u16 {
        self.formulas.len() as u16
    }

    // Width, cell and the first lines of `supported` are as in a rows book: a trait for what rules and formulas share would have more lines.
    fn width(&self, rule: u16) -> u8 {
        self.find(rule).map_or(0, |formula| formula.width)
    }

    fn cell(&self, rule: u16, position: u8) -> u8 {
        match self.find(rule) {
            Some(formula) if position < formula.width => formula.cells[position as usize],
            _ => 255,
        }
    }

    fn supported(&self, rule: u16, position: u8, place: u8, sets: &[u64]) -> bool {
        let Some(formula) = self.find(rule) else {
            return false;
        };
        if position >= formula.width {
            return false;
        }
        let masks = self.listed(formula.cells, allowed(formula.cells, position, place, sets));
        let masks = Masks {
            each: &masks[..formula.width as usize],
        };
        some_row(masks, |row| self.permits(formula, row))
    }
}
