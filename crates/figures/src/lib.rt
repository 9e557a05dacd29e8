//! What a chooser is given: how many places remain at each cell, and its weighted degree. Uses `bits`, `network`, `choosers` and `runs`.
#![tactic(auto)]

ghost use Rattle.std.specs.Prelude.{◌≡◌, ◌^◌, ◌<◌, ◌≤◌, length};
ghost use Rattle.runs.specs.Figures.{joins?, share, degree_of, figure_of, figures_of};
ghost use Rattle.runs.specs.Law.{Suits};

use bits::{count, has};
use choosers::chooser::{Chooser, Figure};
use network::book::RuleBook;
use network::tries::remaining;

/// The cells of a run: what remains at each, the rules of a book that are listed, and their weights.
// It borrows for one choice what a search holds in `Progress` of `settling`, a crate beside this one.
#[derive(Drop)]
pub struct Cells<'a, B: RuleBook> {
    pub book: &'a B,
    pub listed: u64,
    pub weights: &'a [u32],
    pub sets: &'a [u64],
    pub ghost suits: { Suits (B.meaning book.now) (length sets.now) },
    pub ghost few: { length sets.now ≤ 64 },
    pub ghost weighted: { 64 ≤ length weights.now },
}

impl<B: RuleBook> Cells<'_, B> {
    /// Whether the rule has the cell, and another one that is open.
    fn joins(&self, rule: u16, cell: u8) -> bool
        ensures { result ≡ joins? self.now.sets.now cell ((B.meaning self.now.book.now).rule rule).cells }
    {
        // A loop: as two `any` chains, the proof of the second did not close.
        let mut here = false;
        let mut elsewhere = false;
        for position in 0..self.book.width(rule) {
            let other = self.book.cell(rule, position);
            if other == cell {
                here = true;
            } else {
                elsewhere |= count(remaining(self.sets, other)) > 1;
            }
        }
        here && elsewhere
    }

    // `rule < 64` stays a clause: a book is asked by a plain number, so a type for a small one would be taken apart at once.
    /// What a rule adds to the weighted degree of a cell: its weight, if it is listed and has that cell and another open one.
    fn share(&self, rule: u16, cell: u8) -> u32
        requires { rule < 64 }
        ensures { result ≡ share (B.meaning self.now.book.now) self.now.listed self.now.sets.now self.now.weights.now cell rule }
    {
        if has(self.listed, rule as u8) && self.joins(rule, cell) {
            self.weights[rule as usize]
        } else {
            0
        }
    }

    /// The weighted degree of a cell.
    fn degree(&self, cell: u8) -> u64
        ensures value { result ≡ degree_of (B.meaning self.now.book.now) self.now.listed self.now.sets.now self.now.weights.now cell }
        ensures small { result < 2 ^ 38 }
    {
        // A loop: as a chain, the proof that its `sum` fits did not close.
        let mut sum = 0;
        for rule in 0..self.book.count() {
            sum += self.share(rule, cell) as u64;
        }
        sum
    }

    /// The figure of a cell.
    fn figure(&self, cell: u8) -> Figure
        ensures { result ≡ figure_of (B.meaning self.now.book.now) self.now.listed self.now.sets.now self.now.weights.now cell }
    {
        Figure {
            places: count(remaining(self.sets, cell)),
            degree: self.degree(cell),
        }
    }

    /// Works out the figures of all cells, and the cell that the chooser names at them.
    fn choose_at<C: Chooser>(&self, chooser: &C, figures: &mut [Figure]) -> u8
        requires { length figures.old ≡ length self.now.sets.now }
        ensures { result ≡ C.Chooser.meaning.names chooser.now (figures_of (B.RuleBook.meaning self.now.book.now) self.now.listed self.now.sets.now self.now.weights.now) }
    {
        for (cell, figure) in figures.iter_mut().enumerate() {
            *figure = self.figure(cell as u8);
        }
        chooser.choose(figures)
    }

    // A number and no `Option`: it hands on the chooser's.
    /// The cell that the chooser names at the figures of all cells, 255 if none is open: the number that choosers promise to hosts.
    pub fn choose<C: Chooser>(&self, chooser: &C) -> u8
        ensures { result ≡ C.Chooser.meaning.names chooser.now (figures_of (B.RuleBook.meaning self.now.book.now) self.now.listed self.now.sets.now self.now.weights.now) }
    {
        self.choose_at(chooser, &mut [Figure::default(); 64][..self.sets.len()])
    }
}
