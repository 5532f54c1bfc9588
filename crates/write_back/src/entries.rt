// The table of a layer: eight entries, each with one late word or none. Place i belongs to entry i mod 8.
ghost use Rattle.std.specs.Prelude.{◌≡◌, ◌%◌, ◌<◌, length, replicate, Some, None, slice_index_or, slice_set};
ghost use Rattle.std.specs.Option.{ForSome};
ghost use Rattle.write_back.specs.Overlay.{overlaid, word_in};
ghost use Rattle.write_back.specs.Kept.{evicted};

use std::marker::Model;
use store::words::Store;

// A word that was written and has not been sent down yet.
#[derive(Clone, Copy)]
pub struct Late {
    pub place: usize,
    pub word: u32,
}

#[derive(Drop)]
pub struct Entries {
    // an array and no map: the memory has no heap
    late: [Option<Late>; 8],
}

impl Model for Entries {
    ghost use Rattle.std.specs.Prelude.{List, Option};
    ghost use Rattle.write_back.specs.declared.entries.Late.{Late};
    ghost use Rattle.write_back.specs.Kept.{AllOwn};

    ghost Value = { List (Option Late) };

    ghost view = { λ e. e.late };

    ghost invariant = { λ e. AllOwn e.late };
}

impl Entries {
    pub fn none() -> Entries
        ensures answer { result ≡ replicate 8 None }
    {
        Entries { late: [None; 8] }
    }

    // The late word of a place, if its entry has that place.
    pub fn word(&self, place: usize) -> Option<u32>
        ensures answer { result ≡ word_in (slice_index_or self.now (place % 8) None) place }
    {
        let late = self.late[place % 8]?;
        (late.place == place).then_some(late.word)
    }

    // Keeps a word in the entry of its place, and gives out another place's word that was there.
    pub fn keep(&mut self, late: Late) -> Option<Late>
        ensures answer { result ≡ evicted (slice_index_or self.old (late.place % 8) None) late.place }
        ensures own { ForSome result (λ old. old.place % 8 ≡ late.place % 8) }
        ensures room { late.place % 8 < length self.old }
        ensures after { self.new ≡ slice_set self.old (late.place % 8) (Some late) }
    {
        let old = self.late[late.place % 8].replace(late)?;
        (old.place != late.place).then_some(old)
    }

    // Sends every late word down. The store below takes each: a layer keeps no place outside it.
    #[tactic(auto, using(crate::proofs::Overlaid::layers))]
    pub fn send_down<S: Store>(self, below: &mut S)
        ensures after { S.Store.words below.new ≡ overlaid (S.Store.words below.old) self }
    {
        // not by `flatten`: there a proof sees which words came, and not from which entries
        for entry in self.late {
            if let Some(late) = entry {
                let _ = below.write(late.place, late.word);
            }
        }
    }
}
