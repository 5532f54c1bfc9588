// The marks of the current half. Their order is part of the type, and each step makes them anew, whole.
// The definitions' record has plain numbers; this one has the machine's, with their bounds.
use std::marker::Model;

pub mod steps;

#[derive(Clone, Copy)]
pub struct Marks {
    // cells whose words were moved
    pub(crate) scanned: usize,
    // cells copied at or since the last flip
    pub(crate) copied: usize,
    // cells from here up were allocated
    pub(crate) top: usize,
    // cells used in the other half at the last flip
    pub(crate) prior: usize,
    // cells of one half
    pub(crate) size: usize,
}

impl Model for Marks {
    ghost use Rattle.std.specs.Prelude.{◌≤◌};
    ghost use Rattle.machine.specs.Heap as plain;

    ghost Value = { plain.Marks };

    ghost view = { λ m. record { scanned = m.scanned; copied = m.copied; top = m.top; prior = m.prior; size = m.size } };

    ghost invariant = { λ m. (m.scanned ≤ m.copied) × ((m.copied ≤ m.top) × ((m.top ≤ m.size) × (m.size ≤ 4096))) };

    ghost inverse = { λ m. record { scanned = m.scanned; copied = m.copied; top = m.top; prior = m.prior; size = m.size } };
}
