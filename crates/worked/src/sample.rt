//! The worked formulas.
ghost use Rattle.std.specs.Prelude.{◌≡◌, ◌≤◌, IfOk};
ghost use Rattle.worked.specs.Samples.{bytes_of, unread_of, PermitsNone};

use formulas::node::Node;
use reader::formula::{NODES, read};
use reader::unread::Unread;
use std::alloc::{AllocError, Global};

/// A formula, or what is not quite one.
#[derive(Clone, Copy, Debug, PartialEq, Eq)]
pub enum Sample {
    /// `1=1`, which has no cell.
    NoCell,
    /// `C0=07`, where a digit stands after a leading zero.
    LeadingZero,
    /// `C0<>C0`, which permits no row.
    UnlikeItself,
}

impl Sample {
    /// Its bytes.
    pub fn text(self) -> &'static [u8]
        ensures bytes { result.now ≡ bytes_of self }
        ensures none { self ≡ Sample.UnlikeItself → PermitsNone result.now }
    {
        match self {
            Sample::NoCell => b"1=1",
            Sample::LeadingZero => b"C0=07",
            Sample::UnlikeItself => b"C0<>C0",
        }
    }

    /// Why it is not read as a formula on the first `cells` cells, if it is not.
    pub fn unread(self, heap: Global, cells: u8) -> Result<Option<Unread>, AllocError>
        ensures { IfOk result (λ o. 1 ≤ cells → o ≡ unread_of self) }
    {
        let mut nodes = vec![in heap; Node::Free; NODES]?;
        let mut used = 0;
        Ok(read(self.text(), cells, &mut nodes, &mut used).err())
    }
}

#[cfg(test)]
mod tests {
    use super::Sample;
    use formulas::fault::{Flaw, FormulaFault};
    use reader::unread::Unread;
    use std::test::Fail;

    #[test]
    fn a_leading_zero(rt: HostRuntime) -> Result<(), Fail> {
        let fault = FormulaFault {
            flaw: Flaw::Grammar,
            offset: 4,
        };
        assert!(rt; Sample::LeadingZero.unread(rt.alloc(), 3)? == Some(Unread::Fault(fault)));
        Ok(())
    }
}
