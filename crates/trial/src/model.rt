//! What a session is to answer, worked out from the calls alone.
use crate::sheet::{CELLS, Sheet};
use crate::solver::{Filling, has};
use calls::answer::Answer;
use calls::call::Call;
use calls::step::Step;
use clash::fitted::Fitted;
use runs::line::{Line, Verdict};

/// A sheet, the pins that stand, and the rules that are on.
#[derive(Drop)]
pub(crate) struct Model<'s> {
    sheet: &'s Sheet,
    pins: [Option<u8>; CELLS],
    on: u64,
}

/// How many calls of each outcome there were, and how many answers were wrong.
#[derive(Clone, Copy, Debug, Default)]
pub(crate) struct Counts {
    pub calls: u64,
    pub refused: u64,
    pub fillings: u64,
    pub cores: u64,
    pub lines: u64,
    pub wrong: u64,
}

/// How many rules a set has.
fn size(rules: u64) -> u64 {
    u64::from(rules.count_ones())
}

/// The most lines that a core of so many rules may take, of so many that are on.
fn most_lines(on: u64, core: u64) -> u64 {
    let mut halvings = 0;
    for half in 0..7u64 {
        if 1 << half < on {
            halvings = half + 1;
        }
    }
    on.saturating_add(2)
        .saturating_add(core.saturating_mul(halvings))
}

impl<'s> Model<'s> {
    /// A session just made: no pins, and every rule on.
    pub(crate) fn new(sheet: &'s Sheet) -> Model<'s> {
        let mut on = 0;
        for rule in 0..sheet.rules().min(63) {
            on |= 1 << rule;
        }
        Model {
            sheet,
            pins: [None; CELLS],
            on,
        }
    }

    /// The number that a call is refused with, 0 where it is not.
    fn refusal(&self, call: Call) -> u8 {
        match call {
            Call::Pin { cell, .. } | Call::Free { cell } if cell >= self.sheet.cells() => 15,
            Call::Pin { cell, place } if place >= self.sheet.places(cell) => 16,
            Call::Switch { rule, .. } if rule >= u16::from(self.sheet.rules()) => 17,
            _ => 0,
        }
    }

    /// What a call that is not refused leaves.
    fn make(&mut self, call: Call) {
        match call {
            Call::Pin { cell, place } => self.set_pin(cell, Some(place)),
            Call::Free { cell } => self.set_pin(cell, None),
            Call::Switch { rule, on } if rule < 64 => {
                let bit = 1u64 << rule;
                self.on = if on { self.on | bit } else { self.on & !bit };
            }
            _ => {}
        }
    }

    fn set_pin(&mut self, cell: u8, pin: Option<u8>) {
        let cell = usize::from(cell);
        if cell < CELLS {
            self.pins[cell] = pin;
        }
    }

    /// Whether some filling that keeps the pins meets a set of rules.
    fn fits(&self, rules: u64) -> bool {
        self.sheet.has_filling(&self.pins, rules)
    }

    /// Holds an answer to what it is to be.
    pub(crate) fn check(&mut self, step: &Step, counts: &mut Counts) {
        counts.calls = counts.calls.saturating_add(1);
        let number = self.refusal(step.call);
        let right = match step.answer {
            Answer::Refused(refusal) => {
                counts.refused = counts.refused.saturating_add(1);
                refusal.number() == number && number != 0
            }
            Answer::Done => number == 0 && step.call != Call::Fit,
            Answer::Fitted(fitted) => step.call == Call::Fit
                && self.check_fit(fitted, step, counts),
        };
        if !right {
            counts.wrong = counts.wrong.saturating_add(1);
        }
        if number == 0 {
            self.make(step.call);
        }
    }

    fn check_fit(&self, fitted: Fitted, step: &Step, counts: &mut Counts) -> bool {
        let log = step.buffers.log.get(..fitted.lines).unwrap_or(&[]);
        counts.lines = counts.lines.saturating_add(log.len() as u64);
        let lines_right = log.len() == fitted.lines && log.iter().all(|line| self.is_right(*line));
        match fitted.core {
            None => {
                counts.fillings = counts.fillings.saturating_add(1);
                lines_right && fitted.lines == 1 && self.is_filling(&step.buffers.filling)
            }
            Some(core) => {
                counts.cores = counts.cores.saturating_add(1);
                let most = most_lines(size(self.on), size(core));
                lines_right && fitted.lines as u64 <= most && self.is_core(core)
            }
        }
    }

    /// Whether the verdict of a line is right, and its used rules clash.
    fn is_right(&self, line: Line) -> bool {
        match line.verdict {
            Verdict::Met => line.used == 0 && self.fits(line.listed),
            Verdict::Unmet => {
                line.used & !line.listed == 0 && !self.fits(line.listed) && !self.fits(line.used)
            }
        }
    }

    /// Whether the first bytes are a filling that keeps the pins and meets the rules that are on.
    fn is_filling(&self, bytes: &[u8]) -> bool {
        let mut filling: Filling = [0; CELLS];
        for (cell, place) in filling.iter_mut().enumerate() {
            if cell < usize::from(self.sheet.cells()) {
                *place = bytes.get(cell).copied().unwrap_or(255);
            }
        }
        let mut listed = true;
        for cell in 0..self.sheet.cells() {
            let place = filling.get(usize::from(cell)).copied().unwrap_or(255);
            listed &= place < self.sheet.places(cell);
        }
        listed && self.sheet.keeps(&self.pins, &filling) && self.sheet.meets(self.on, &filling)
    }

    /// Whether rules that are on clash, and do not without any single one.
    fn is_core(&self, core: u64) -> bool {
        if core & !self.on != 0 || self.fits(self.on) || self.fits(core) {
            return false;
        }
        for rule in 0..64u32 {
            if has(core, rule as usize) && !self.fits(core & !(1u64 << rule)) {
                return false;
            }
        }
        true
    }
}
