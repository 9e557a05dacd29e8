//! The second solver: it tries every filling of a sheet.
use crate::sheet::{CELLS, RowsRule, Sheet};

/// Whether a set of rules has a rule.
pub(crate) fn has(rules: u64, rule: usize) -> bool {
    rule < 64 && (rules >> rule) % 2 == 1
}

/// A place for each cell; those past the sheet's cells are 0.
pub(crate) type Filling = [u8; CELLS];

impl RowsRule {
    /// Whether a filling meets it.
    fn is_met(&self, filling: &Filling) -> bool {
        let stored = self.rows.iter().any(|row| {
            let mut places = self.cells.iter().zip(row.iter());
            places.all(|(cell, place)| filling.get(usize::from(*cell)) == Some(place))
        });
        stored != self.forbidden
    }
}

impl Sheet {
    /// The number of each cell at a filling.
    fn numbers(&self, filling: &Filling) -> [i32; CELLS] {
        let mut numbers = [0; CELLS];
        for (cell, number) in numbers.iter_mut().enumerate() {
            let list = self.lists.get(cell).map_or(&[][..], |list| list.as_slice());
            let place = filling.get(cell).copied().unwrap_or(0);
            *number = list.get(usize::from(place)).copied().unwrap_or(0);
        }
        numbers
    }

    /// Whether a filling meets all rules of a set.
    pub(crate) fn meets(&self, rules: u64, filling: &Filling) -> bool {
        for (rule, rows) in self.rows.iter().enumerate() {
            if has(rules, rule) && !rows.is_met(filling) {
                return false;
            }
        }
        let numbers = self.numbers(filling);
        for (at, formula) in self.formulas.iter().enumerate() {
            if has(rules, self.rows.len().saturating_add(at)) && !formula.holds(&numbers) {
                return false;
            }
        }
        true
    }

    /// How many fillings there are.
    fn fillings(&self) -> u64 {
        let mut fillings = 1u64;
        for list in self.lists.iter() {
            fillings = fillings.saturating_mul(list.len() as u64);
        }
        fillings
    }

    /// The filling of a number: its digits, where each cell counts as far as its list is long.
    fn filling(&self, number: u64) -> Filling {
        let mut rest = number;
        let mut filling = [0; CELLS];
        for (cell, place) in filling.iter_mut().enumerate() {
            let places = self
                .lists
                .get(cell)
                .map_or(1, |list| list.len() as u64)
                .max(1);
            *place = u8::try_from(rest % places).unwrap_or(0);
            rest /= places;
        }
        filling
    }

    /// Whether a filling keeps the pins.
    pub(crate) fn keeps(&self, pins: &[Option<u8>; CELLS], filling: &Filling) -> bool {
        let mut pairs = pins.iter().zip(filling.iter());
        pairs.all(|(pin, place)| pin.is_none() || *pin == Some(*place))
    }

    /// Whether some filling that keeps the pins meets all rules of a set.
    pub(crate) fn has_filling(&self, pins: &[Option<u8>; CELLS], rules: u64) -> bool {
        for number in 0..self.fillings() {
            let filling = self.filling(number);
            if self.keeps(pins, &filling) && self.meets(rules, &filling) {
                return true;
            }
        }
        false
    }
}
