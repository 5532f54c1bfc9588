// Where whole numbers, negative or not, lie among the words.
ghost use Rattle.atom.specs.Placed.{around, offset};
ghost use Rattle.std.specs.Prelude.{◌≡◌, ◌+◌, ◌^◌, ◌<◌, ◌≤◌};

use super::faults::KindFault;

// The numbers from −half to half − 1, in order, with zero at the word `zeroth`.
pub(crate) fn around(half: u32, zeroth: u32, value: i32) -> Result<u32, KindFault>
    requires { (half ≤ zeroth) × (zeroth + half ≤ 2 ^ 31) }
    ensures { result ≡ around half zeroth value }
{
    let half = half as i32;
    if value < -half || value >= half {
        return Err(KindFault::OutOfRange);
    }
    Ok((zeroth as i32 + value) as u32)
}

// The number that lies at a word, with zero at the word `zeroth`.
pub(crate) fn offset(zeroth: u32, word: u32) -> i32
    requires { (zeroth < 2 ^ 31) × (word < 2 ^ 31) }
    ensures { result ≡ offset zeroth word }
{
    word as i32 - zeroth as i32
}
