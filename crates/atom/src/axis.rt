// The kind axis word: moves of the three axes, dwells and tools.
ghost use Rattle.atom.specs.Axes.{axis_code, axis_read, move_code, plain_code};
ghost use Rattle.std.specs.Prelude.{◌≡◌, ◌^◌, ◌≤◌};
ghost use Rattle.atom.specs.declared.axis.AxisWord.TheVariants.{X, Y, Z, D, T};
ghost use Rattle.std.proofs.Common.{rules};

use super::faults::KindFault;
use super::kind::Atom;
use super::placed::{around, offset};

#[derive(Clone, Copy, PartialEq, Eq, Debug)]
pub enum AxisWord {
    // moves to a target in micrometres
    X(i32),
    Y(i32),
    Z(i32),
    // a dwell in milliseconds
    D(u32),
    // a tool's number
    T(u32),
}

// a tag stands above the payload's 24 bits; a move's payload is its target plus 2^23; the tags are numbers as words have them, and the code has a case of AxisWord for each
const PAYLOADS: u32 = 16_777_216;

const MIDDLE: u32 = 8_388_608;

const TOOLS: u32 = 256;

fn move_code(tag: u8, target: i32) -> Result<u32, KindFault>
    requires { tag ≤ 5 }
    ensures answer { result ≡ move_code tag target }
{
    around(MIDDLE, u32::from(tag) * PAYLOADS + MIDDLE, target)
}

fn plain_code(tag: u8, limit: u32, number: u32) -> Result<u32, KindFault>
    requires { (tag ≤ 5) × (limit ≤ 2 ^ 24) }
    ensures answer { result ≡ plain_code tag limit number }
{
    if number >= limit {
        return Err(KindFault::OutOfRange);
    }
    Ok(u32::from(tag) * PAYLOADS + number)
}

impl Atom for AxisWord {
    ghost coded = { axis_code };

    ghost meant = { axis_read };

    ghost between = { Prim.search rules };

    ghost reads = { Prim.search rules };

    ghost only = { elim [
      | X target ↦ Prim.search rules
      | Y target ↦ Prim.search rules
      | Z target ↦ Prim.search rules
      | D milliseconds ↦ Prim.search rules
      | T tool ↦ Prim.search rules
    ] };

    fn code(self) -> Result<u32, KindFault> {
        match self {
            AxisWord::X(target) => move_code(1, target),
            AxisWord::Y(target) => move_code(2, target),
            AxisWord::Z(target) => move_code(3, target),
            AxisWord::D(milliseconds) => plain_code(4, PAYLOADS, milliseconds),
            AxisWord::T(tool) => plain_code(5, TOOLS, tool),
        }
    }

    fn read(word: u32) -> Option<AxisWord> {
        let payload = word % PAYLOADS;
        let target = offset(MIDDLE, payload);
        match word / PAYLOADS {
            1 => Some(AxisWord::X(target)),
            2 => Some(AxisWord::Y(target)),
            3 => Some(AxisWord::Z(target)),
            4 => Some(AxisWord::D(payload)),
            5 if payload < TOOLS => Some(AxisWord::T(payload)),
            _ => None,
        }
    }
}
