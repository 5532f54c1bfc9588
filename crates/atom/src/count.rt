// The kind count: whole numbers for loop tallies.
ghost use Rattle.atom.specs.Counts.{count_code, count_read};
ghost use Rattle.std.proofs.Common.{rules};

use super::faults::KindFault;
use super::kind::Atom;
use super::placed::{around, offset};

#[derive(Clone, Copy, PartialEq, Eq, Debug)]
pub struct Count {
    pub value: i32,
}

// there are so many counts below zero, and as many from zero up
const HALF: u32 = 536_870_912;

// the code of zero
const ZERO: u32 = 1_073_741_824;

impl Atom for Count {
    ghost coded = { count_code };

    ghost meant = { count_read };

    ghost between = { Prim.search rules };

    ghost reads = { Prim.search rules };

    ghost only = { Prim.search rules };

    fn code(self) -> Result<u32, KindFault> {
        around(HALF, ZERO, self.value)
    }

    fn read(word: u32) -> Option<Count> {
        if word < ZERO - HALF || word >= ZERO + HALF {
            return None;
        }
        Some(Count {
            value: offset(ZERO, word),
        })
    }
}
