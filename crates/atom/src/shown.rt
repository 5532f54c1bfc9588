// Atoms as text: an axis word by its letter and number, a count by its number.
ghost use Rattle.atom.specs.Shown.{axis_text};
ghost use Rattle.std.specs.Fmt.{signed_decimal};
ghost use Rattle.std.specs.Prelude.{Some};

use super::axis::AxisWord;
use super::count::Count;
use std::fmt;

impl fmt::Display for AxisWord {
    ghost output = { λ a. Some (axis_text a) };

    fn fmt<W: fmt::Write>(&self, f: &mut fmt::Formatter<W>) -> fmt::Result {
        match self {
            AxisWord::X(target) => write!(f, "X{target}"),
            AxisWord::Y(target) => write!(f, "Y{target}"),
            AxisWord::Z(target) => write!(f, "Z{target}"),
            AxisWord::D(milliseconds) => write!(f, "D{milliseconds}"),
            AxisWord::T(tool) => write!(f, "T{tool}"),
        }
    }
}

impl fmt::Display for Count {
    ghost output = { λ c. Some (signed_decimal c.value) };

    fn fmt<W: fmt::Write>(&self, f: &mut fmt::Formatter<W>) -> fmt::Result {
        write!(f, "{}", self.value)
    }
}
