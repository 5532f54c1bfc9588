// The incremental copying collector over a store: two halves, the marks in the current one, and the roots.
#![tactic(auto)]

pub mod cells;
pub mod half;
pub mod marks;
pub mod roots;
pub mod space;
pub mod state;
pub mod terms;
