// The atoms of a list as they were fed.
ghost use Rattle.std.specs.Prelude.{◌≡◌, ◌≤◌, take};

use crate::ending::Ending;
use atom::kind::Atom;

// the longest list that is fed
pub const LONGEST: usize = 12;

// The first places of a buffer that was fed into, and how the feed stopped. No `ArrayVec`: it shortens only what has a default.
#[derive(Drop)]
pub struct Fed<A> {
    pub(super) buffer: [A; LONGEST],
    pub(super) count: usize,
    pub(super) ending: Ending,
    ghost fits: { count ≤ 12 },
}

impl<A: Atom> Fed<A> {
    pub(crate) fn atoms(&self) -> &[A]
        ensures { result.now ≡ take self.now.count self.now.buffer }
    {
        &self.buffer[..self.count]
    }

    pub(crate) fn ending(&self) -> Ending
        ensures { result ≡ self.now.ending }
    {
        self.ending
    }
}
