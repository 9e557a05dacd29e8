//! Sheets that are made here, and the bytes of their files.
use crate::formula::Formula;
use crate::numbers::Numbers;
use std::alloc::{AllocError, Global};

/// The most cells of a sheet that is made here.
pub(crate) const CELLS: usize = 4;

/// A rule by rows.
#[derive(Drop)]
pub(crate) struct RowsRule {
    pub forbidden: bool,
    pub cells: Vec<u8>,
    pub rows: Vec<Vec<u8>>,
}

/// The lists of the cells, the rules by rows, and those by formulas.
#[derive(Drop)]
pub(crate) struct Sheet {
    pub lists: Vec<Vec<i32>>,
    pub rows: Vec<RowsRule>,
    pub formulas: Vec<Formula>,
}

/// A list of different numbers.
fn any_list(heap: Global, numbers: &mut Numbers) -> Result<Vec<i32>, AllocError> {
    let first = i32::from(numbers.below(7)) - 3;
    let step = i32::from(numbers.below(3)) + 1;
    let mut list = Vec::new(heap);
    for place in 0..=numbers.below(4) {
        list.push(first + step * i32::from(place))?;
    }
    Ok(list)
}

/// Some of the first cells, each once.
fn any_cells(heap: Global, numbers: &mut Numbers, count: u8) -> Result<Vec<u8>, AllocError> {
    let first = numbers.below(count);
    let mut cells = Vec::new(heap);
    for at in 0..=numbers.below(count) {
        cells.push(first.wrapping_add(at) % count.max(1))?;
    }
    if numbers.coin() {
        cells.reverse();
    }
    Ok(cells)
}

impl RowsRule {
    fn any(heap: Global, numbers: &mut Numbers, sheet: &Sheet) -> Result<RowsRule, AllocError> {
        let forbidden = numbers.coin();
        let cells = any_cells(heap, numbers, sheet.cells())?;
        let mut rows = Vec::new(heap);
        for _ in 0..numbers.below(7) {
            let mut row = Vec::new(heap);
            for cell in cells.iter() {
                row.push(numbers.below(sheet.places(*cell)))?;
            }
            rows.push(row)?;
        }
        Ok(RowsRule {
            forbidden,
            cells,
            rows,
        })
    }

    /// The content of its field.
    fn push(&self, out: &mut Vec<u8>) -> Result<(), AllocError> {
        out.push(u8::from(self.forbidden))?;
        out.push(u8::try_from(self.cells.len()).unwrap_or(0))?;
        out.extend_from_slice(&self.cells)?;
        for row in self.rows.iter() {
            out.extend_from_slice(row)?;
        }
        Ok(())
    }
}

/// A field of a file.
fn push_field(out: &mut Vec<u8>, tag: u8, content: &[u8]) -> Result<(), AllocError> {
    out.push(tag)?;
    let length = u16::try_from(content.len()).unwrap_or(0);
    out.extend_from_slice(&length.to_be_bytes())?;
    out.extend_from_slice(content)
}

impl Sheet {
    /// A sheet of one to four cells and no more than six rules.
    pub(crate) fn any(heap: Global, numbers: &mut Numbers) -> Result<Sheet, AllocError> {
        let mut sheet = Sheet {
            lists: Vec::new(heap),
            rows: Vec::new(heap),
            formulas: Vec::new(heap),
        };
        for _ in 0..=numbers.below(CELLS as u8) {
            sheet.lists.push(any_list(heap, numbers)?)?;
        }
        for _ in 0..numbers.below(4) {
            let rule = RowsRule::any(heap, numbers, &sheet)?;
            sheet.rows.push(rule)?;
        }
        for _ in 0..numbers.below(4) {
            let formula = Formula::any(heap, numbers, sheet.cells())?;
            sheet.formulas.push(formula)?;
        }
        Ok(sheet)
    }

    /// How many cells there are.
    pub(crate) fn cells(&self) -> u8 {
        u8::try_from(self.lists.len()).unwrap_or(0)
    }

    /// How many places the list of a cell has, 0 where the cell is missing.
    pub(crate) fn places(&self, cell: u8) -> u8 {
        let list = self.lists.get(usize::from(cell));
        u8::try_from(list.map_or(0, |list| list.len())).unwrap_or(0)
    }

    /// How many rules there are.
    pub(crate) fn rules(&self) -> u8 {
        u8::try_from(self.rows.len().saturating_add(self.formulas.len())).unwrap_or(0)
    }

    /// The bytes of its file.
    pub(crate) fn file(&self, heap: Global) -> Result<Vec<u8>, AllocError> {
        let mut out = Vec::new(heap);
        for list in self.lists.iter() {
            let mut content = Vec::new(heap);
            for number in list.iter() {
                content.extend_from_slice(&number.to_be_bytes())?;
            }
            push_field(&mut out, 1, &content)?;
        }
        for rule in self.rows.iter() {
            let mut content = Vec::new(heap);
            rule.push(&mut content)?;
            push_field(&mut out, 2, &content)?;
        }
        for formula in self.formulas.iter() {
            push_field(&mut out, 3, formula.text(heap)?.as_bytes())?;
        }
        push_field(&mut out, 4, &[])?;
        Ok(out)
    }
}
