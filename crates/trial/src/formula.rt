//! Formulas that are made here, with their texts and their truth.
use crate::numbers::Numbers;
use std::alloc::{AllocError, Global};

/// How two numbers are compared.
#[derive(Clone, Copy, Debug, PartialEq, Eq)]
pub(crate) enum Relation {
    Equal,
    NotEqual,
    Less,
    LessEqual,
    Greater,
    GreaterEqual,
}

/// One side of a comparison: a number, or a cell with what is added to it or taken off.
#[derive(Clone, Copy, Debug, PartialEq, Eq)]
pub(crate) enum Side {
    Number(i8),
    Cell(u8),
    Plus(u8, u8),
    Minus(u8, u8),
}

/// Two sides and their relation.
#[derive(Clone, Copy, Debug, PartialEq, Eq)]
pub(crate) struct Comparison {
    left: Side,
    relation: Relation,
    right: Side,
}

/// Some comparisons that hold all, or of which one holds; or the opposite of that.
#[derive(Drop)]
pub(crate) struct Formula {
    parts: Vec<Comparison>,
    all: bool,
    negated: bool,
}

impl Relation {
    fn any(numbers: &mut Numbers) -> Relation {
        match numbers.below(6) {
            0 => Relation::Equal,
            1 => Relation::NotEqual,
            2 => Relation::Less,
            3 => Relation::LessEqual,
            4 => Relation::Greater,
            _ => Relation::GreaterEqual,
        }
    }

    fn text(self) -> &'static str {
        match self {
            Relation::Equal => "=",
            Relation::NotEqual => "<>",
            Relation::Less => "<",
            Relation::LessEqual => "<=",
            Relation::Greater => ">",
            Relation::GreaterEqual => ">=",
        }
    }

    fn holds(self, left: i64, right: i64) -> bool {
        match self {
            Relation::Equal => left == right,
            Relation::NotEqual => left != right,
            Relation::Less => left < right,
            Relation::LessEqual => left <= right,
            Relation::Greater => left > right,
            Relation::GreaterEqual => left >= right,
        }
    }
}

impl Side {
    /// A side that is a cell.
    fn any_cell(numbers: &mut Numbers, cells: u8) -> Side {
        let cell = numbers.below(cells);
        match numbers.below(4) {
            0 => Side::Plus(cell, numbers.below(4)),
            1 => Side::Minus(cell, numbers.below(4)),
            _ => Side::Cell(cell),
        }
    }

    fn any(numbers: &mut Numbers, cells: u8) -> Side {
        if numbers.coin() {
            return Side::any_cell(numbers, cells);
        }
        Side::Number(numbers.below(9) as i8 - 4)
    }

    fn push(self, out: &mut String) -> Result<(), AllocError> {
        match self {
            Side::Number(number) => write!(out, "{number}"),
            Side::Cell(cell) => write!(out, "C{cell}"),
            Side::Plus(cell, shift) => write!(out, "C{cell}+{shift}"),
            Side::Minus(cell, shift) => write!(out, "C{cell}-{shift}"),
        }
    }

    /// What it comes to at the number of each cell.
    fn value(self, row: &[i32]) -> i64 {
        match self {
            Side::Number(number) => i64::from(number),
            Side::Cell(cell) => number_of(row, cell),
            Side::Plus(cell, shift) => number_of(row, cell).saturating_add(i64::from(shift)),
            Side::Minus(cell, shift) => number_of(row, cell).saturating_sub(i64::from(shift)),
        }
    }
}

/// The number of a cell.
fn number_of(row: &[i32], cell: u8) -> i64 {
    i64::from(row.get(usize::from(cell)).copied().unwrap_or(0))
}

impl Comparison {
    /// A comparison of a cell with something.
    fn any(numbers: &mut Numbers, cells: u8) -> Comparison {
        let left = Side::any_cell(numbers, cells);
        let relation = Relation::any(numbers);
        let right = Side::any(numbers, cells);
        Comparison {
            left,
            relation,
            right,
        }
    }

    fn push(self, out: &mut String) -> Result<(), AllocError> {
        self.left.push(out)?;
        out.push_str(self.relation.text())?;
        self.right.push(out)
    }

    fn holds(self, row: &[i32]) -> bool {
        self.relation
            .holds(self.left.value(row), self.right.value(row))
    }
}

impl Formula {
    /// A formula on the first cells.
    pub(crate) fn any(
        heap: Global,
        numbers: &mut Numbers,
        cells: u8,
    ) -> Result<Formula, AllocError> {
        let mut parts = Vec::new(heap);
        for _ in 0..numbers.below(3) {
            parts.push(Comparison::any(numbers, cells))?;
        }
        parts.push(Comparison::any(numbers, cells))?;
        Ok(Formula {
            parts,
            all: numbers.coin(),
            negated: numbers.below(4) == 0,
        })
    }

    /// Its text: a lone comparison stands by itself.
    pub(crate) fn text(&self, heap: Global) -> Result<String, AllocError> {
        let mut out = String::new(heap);
        if self.negated {
            out.push_str("NOT(")?;
        }
        self.push_parts(&mut out)?;
        if self.negated {
            out.push_str(")")?;
        }
        Ok(out)
    }

    fn push_parts(&self, out: &mut String) -> Result<(), AllocError> {
        if let &[only] = self.parts.as_slice() {
            return only.push(out);
        }
        out.push_str(if self.all { "AND(" } else { "OR(" })?;
        for (at, part) in self.parts.iter().enumerate() {
            if at > 0 {
                out.push_str(",")?;
            }
            part.push(out)?;
        }
        out.push_str(")")
    }

    /// Whether it is true at the number of each cell.
    pub(crate) fn holds(&self, row: &[i32]) -> bool {
        let joined = if self.all {
            self.parts.iter().all(|part| part.holds(row))
        } else {
            self.parts.iter().any(|part| part.holds(row))
        };
        joined != self.negated
    }
}
