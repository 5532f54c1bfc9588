// The two halves of a store.
ghost use Rattle.std.specs.Prelude.{◌≡◌, cond, not};
ghost use Rattle.semispace.specs.View.{is_upper};

#[derive(Clone, Copy)]
pub enum Half {
    Lower,
    Upper,
}

impl Half {
    pub(crate) fn other(self) -> Half
        ensures { is_upper result ≡ not (is_upper self) }
    {
        match self {
            Half::Lower => Half::Upper,
            Half::Upper => Half::Lower,
        }
    }

    // Its first cell, in a store with halves of so many cells.
    pub(crate) fn first(self, size: usize) -> usize
        ensures { result ≡ cond (is_upper self) size 0 }
    {
        match self {
            Half::Lower => 0,
            Half::Upper => size,
        }
    }
}
