// A store over two banks: even places lie in the first, odd places in the second.
ghost use Rattle.std.specs.Prelude.{◌≡◌, ◌*◌, ◌/◌, ◌%◌, ◌<◌, min, length};
ghost use Rattle.store.specs.Banks.{interleaved, even_after, odd_after};

use super::faults::{StoreFault, inside};
use super::words::Store;
use std::marker::Model;

#[derive(Drop)]
pub struct BankStore<'a> {
    // two slices side by side, since the banks are lent as two
    even: &'a mut [u32],
    odd: &'a mut [u32],
}

impl<'a> Model for BankStore<'a> {
    ghost use Rattle.std.specs.Prelude.{ℕ, List};
    ghost use Rattle.store.specs.Banks.{interleaved};

    ghost Value = { List ℕ };

    ghost view = { λ s. interleaved s.even.now s.odd.now };
}

#[tactic(auto, using(crate::proofs::Interleaved::turns))]
impl<'a> BankStore<'a> {
    pub fn new(even: &'a mut [u32], odd: &'a mut [u32]) -> BankStore<'a>
        ensures answer { result ≡ interleaved even.old odd.old }
        ensures size { length result ≡ 2 * min (length even.old) (length odd.old) }
    {
        BankStore { even, odd }
    }
}

// Over the two banks, since a store's model hides them: each is told whole, and the words beyond the shorter one stay as they are.
fn put(even: &mut [u32], odd: &mut [u32], place: usize, word: u32)
    requires { place / 2 < min (length even.old) (length odd.old) }
    ensures even { even.new ≡ even_after even.old place word }
    ensures odd { odd.new ≡ odd_after odd.old place word }
{
    match place % 2 {
        0 => even[place / 2] = word,
        _ => odd[place / 2] = word,
    }
}

#[tactic(auto, using(crate::proofs::Interleaved::turns))]
impl<'a> Store for BankStore<'a> {
    ghost words = { λ s. s };

    // Of each bank as many words count as the shorter one has.
    fn size(&self) -> usize
        ensures answer { result ≡ length self.now }
        ensures even { result % 2 ≡ 0 }
    {
        2 * self.even.len().min(self.odd.len())
    }

    fn read(&self, place: usize) -> Result<u32, StoreFault> {
        inside(place, self.size())?;
        Ok(match place % 2 {
            0 => self.even[place / 2],
            _ => self.odd[place / 2],
        })
    }

    #[tactic(auto, using(crate::proofs::Interleaved::banks_after))]
    fn write(&mut self, place: usize, word: u32) -> Result<(), StoreFault> {
        inside(place, self.size())?;
        put(self.even, self.odd, place, word);
        Ok(())
    }
}
