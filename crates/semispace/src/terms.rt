// What was agreed at opening. The definitions' record has plain numbers; this one has the machine's, with their bounds.
ghost use Rattle.machine.specs.Machine.{ceiling};
ghost use Rattle.std.specs.Prelude.{◌≡◌, ◌≤◌};

use std::marker::Model;

#[derive(Clone, Copy)]
pub struct Terms {
    // how many cells a cons scans at most
    pub pace: usize,
    // how many cells may be in reach
    pub limit: usize,
    // the memory's number, its opener's choice
    pub number: u32,
}

impl Model for Terms {
    ghost use Rattle.std.specs.Prelude.{◌≤◌};
    ghost use Rattle.machine.specs.Machine as plain;

    ghost Value = { plain.Terms };

    ghost view = { λ t. record { pace = t.pace; limit = t.limit; number = t.number } };

    ghost invariant = { λ t. (1 ≤ t.pace) × ((t.pace ≤ 64) × (t.limit ≤ 4096)) };

    ghost inverse = { λ t. record { pace = t.pace; limit = t.limit; number = t.number } };
}

// How many conses scan the cells in reach: so many cells are allocated meanwhile.
pub(crate) fn conses_to_scan(limit: usize, pace: usize) -> usize
    requires { 1 ≤ pace }
    ensures { result ≡ ceiling limit pace }
{
    limit.div_ceil(pace)
}
