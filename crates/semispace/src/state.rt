// All that a list memory keeps beside its store: the current half and its marks, the roots, the terms.
ghost use Rattle.std.specs.Prelude.{[]};
ghost use Rattle.semispace.specs.Formed.{Formed};
ghost use Rattle.semispace.specs.View.{machine_of};

use super::half::Half;
use super::marks::Marks;
use super::roots::Roots;
use super::terms::Terms;

pub mod open;

#[derive(Clone, Copy)]
pub struct State {
    pub half: Half,
    pub marks: Marks,
    pub roots: Roots,
    pub terms: Terms,
    // a flag, since what stands beside it is read in a shut memory too: every step is defined in every state
    pub opened: bool,
}

impl State {
    // What the fields of every value keep to, for contracts to name: reading a field makes its type's invariant known.
    pub fn formed(&self)
        ensures { Formed (machine_of [] self.now) }
    {
        let _size = self.marks.size;
        let _pace = self.terms.pace;
    }
}
