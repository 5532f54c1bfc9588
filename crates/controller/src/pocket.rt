// A pocket of 20 by 8 millimetres, as axis words.
ghost use Rattle.atom.specs.declared.axis.AxisWord.TheVariants.{T, D, Z};
ghost use Rattle.std.specs.Prelude.{◌≡◌, slice_index_or};

use atom::axis::AxisWord;
use std::array;

// where the down move stands in a pass
pub const DOWN: usize = 4;

// A millimetre more with each pass.
pub(crate) fn depth(pass: u8) -> i32 {
    -1000 * i32::from(pass)
}

// The tool has worn by five micrometres a pass.
pub(crate) fn worn_depth(pass: u8) -> i32 {
    -1005 * i32::from(pass)
}

// One pass: the tool and its dwell, the corner, down, and rows to and fro.
pub(crate) fn pass_at(depth: i32) -> [AxisWord; 10]
    ensures tool { slice_index_or result 0 (T 0) ≡ T 3 }
    ensures dwell { slice_index_or result 1 (T 0) ≡ D 500 }
    ensures down { slice_index_or result 4 (T 0) ≡ Z depth }
{
    [
        AxisWord::T(3),
        AxisWord::D(500),
        AxisWord::X(0),
        AxisWord::Y(0),
        AxisWord::Z(depth),
        AxisWord::X(20_000),
        AxisWord::Y(4_000),
        AxisWord::X(0),
        AxisWord::Y(8_000),
        AxisWord::X(20_000),
    ]
}

// Up and home, with a dwell to clear the chips.
pub(crate) fn retract() -> [AxisWord; 4] {
    [
        AxisWord::Z(5_000),
        AxisWord::X(0),
        AxisWord::Y(0),
        AxisWord::D(200),
    ]
}

// A corner of a square spiral, X before Y.
fn corner(i: u8) -> AxisWord {
    let reach = 250 * i32::from(i / 2);
    let target = if i % 4 < 2 { reach } else { -reach };
    if i % 2 == 0 {
        AxisWord::X(target)
    } else {
        AxisWord::Y(target)
    }
}

// A spiral of more words than the memory has cells.
pub(crate) fn spiral() -> [AxisWord; 40] {
    array::from_fn(|i| corner(i as u8))
}
