// A store over bytes: four a word, most significant first.
ghost use Rattle.std.specs.Prelude.{◌≡◌, ◌/◌, length};
ghost use Rattle.store.specs.Bytes.{byte_words};

use super::faults::{StoreFault, inside};
use super::words::Store;
use std::marker::Model;

// The whole words of the bytes. One to three bytes left over at the end are never touched.
#[derive(Drop)]
pub struct ByteStore<'a> {
    words: &'a mut [[u8; 4]],
}

impl<'a> Model for ByteStore<'a> {
    ghost use Rattle.std.specs.Prelude.{ℕ, List, map};
    ghost use Rattle.std.specs.Int.{from_be_bytes, w32};

    ghost Value = { List ℕ };

    ghost view = { λ s. map (from_be_bytes w32) s.words.now };
}

#[tactic(auto, using(crate::proofs::FourBytes::whole_words))]
impl<'a> ByteStore<'a> {
    pub fn new(bytes: &'a mut [u8]) -> ByteStore<'a>
        ensures answer { result ≡ byte_words bytes.old }
        ensures size { length result ≡ length bytes.old / 4 }
    {
        let (words, _) = bytes.as_chunks_mut::<4>();
        ByteStore { words }
    }
}

#[tactic(auto, using(crate::proofs::FourBytes::set_chunk))]
impl<'a> Store for ByteStore<'a> {
    ghost words = { λ s. s };

    fn size(&self) -> usize {
        self.words.len()
    }

    fn read(&self, place: usize) -> Result<u32, StoreFault> {
        let word = self.words.get(place).ok_or(StoreFault::Outside(place))?;
        Ok(u32::from_be_bytes(*word))
    }

    // by index, since the check doesn't know what a slice holds after a write through `get_mut`
    fn write(&mut self, place: usize, word: u32) -> Result<(), StoreFault> {
        inside(place, self.size())?;
        self.words[place] = word.to_be_bytes();
        Ok(())
    }
}
