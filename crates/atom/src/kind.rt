// What an atom kind is: a code for each atom within its ranges, and a reading that gives that atom back.
ghost use Rattle.std.specs.Prelude.{◌≡◌, ℕ, ◌^◌, ◌<◌, ◌≤◌, Some, Ok, Option, Result};
ghost use Rattle.atom.specs.declared.faults.KindFault.{KindFault};

use super::faults::KindFault;

pub trait Atom: Copy {
    // the code of an atom, or the refusal of one outside the ranges
    ghost coded: { Self → Result ℕ KindFault };

    // the atom that a word reads as, or none
    ghost meant: { ℕ → Option Self };

    fn code(self) -> Result<u32, KindFault>
        ensures { result ≡ coded self };

    fn read(word: u32) -> Option<Self>
        ensures { result ≡ meant word };

    // nil is below every code, references are above
    ghost between: { (a : Self) (c : ℕ) → coded a ≡ Ok c → (1 ≤ c) × (c < 2 ^ 31) };

    ghost reads: { (a : Self) (c : ℕ) → coded a ≡ Ok c → meant c ≡ Some a };

    ghost only: { (a : Self) (c : ℕ) → meant c ≡ Some a → coded a ≡ Ok c };
}
