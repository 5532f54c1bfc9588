// What a store is: a list of words of fixed length, read and written by place.
ghost use Rattle.std.specs.Prelude.{◌≡◌, ℕ, List, length, slice_set};
ghost use Rattle.store.specs.Answers.{read_answer, write_answer};

use super::faults::StoreFault;

pub trait Store {
    // the list of words that the store means
    ghost words: { Self → List ℕ };

    fn size(&self) -> usize
        ensures { result ≡ length (words self.now) };

    fn read(&self, place: usize) -> Result<u32, StoreFault>
        ensures { result ≡ read_answer (words self.now) place };

    // `set` past the end changes nothing, so a refused write leaves the list as it was.
    fn write(&mut self, place: usize, word: u32) -> Result<(), StoreFault>
        ensures answer { result ≡ write_answer (words self.old) place }
        ensures after { words self.new ≡ slice_set (words self.old) place word };
}
