// Where every walk begins: 16 registers, and 8 hold places, each free or taken with a word.
// The definitions' record has plain numbers; this one has the machine's, in arrays of fixed length.
ghost use Rattle.std.specs.Prelude.{◌≡◌, length, replicate, None};

use super::cells::NIL;

#[derive(Clone, Copy)]
pub struct Roots {
    // arrays, since the memory has no heap and 24 roots
    pub registers: [u32; 16],
    pub holds: [Option<u32>; 8],
    ghost sized: { (length registers ≡ 16) × (length holds ≡ 8) },
}

impl Roots {
    // Every register with nil, every hold place free.
    pub(crate) fn empty() -> Roots
        ensures registers { result.registers ≡ replicate 16 0 }
        ensures holds { result.holds ≡ replicate 8 None }
    {
        Roots {
            registers: [NIL; 16],
            holds: [None; 8],
        }
    }
}
