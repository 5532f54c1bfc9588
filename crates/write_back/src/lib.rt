// A layer over any store that sends its words down late. A pile of layers is again a store.
#![tactic(auto)]

ghost use Rattle.std.specs.Prelude.{◌≡◌};

use entries::{Entries, Late};
use std::marker::Model;
use store::faults::{StoreFault, inside};
use store::words::Store;

mod entries;

// Not `Drop`: a layer is settled, so that no late word is lost.
pub struct WriteBack<S: Store> {
    below: S,
    entries: Entries,
}

impl<S: Store> Model for WriteBack<S> {
    ghost use Rattle.std.specs.Prelude.{ℕ, List, length};
    ghost use Rattle.write_back.specs.Kept.{AllBelow};
    ghost use Rattle.write_back.specs.Overlay.{overlaid};

    ghost Value = { List ℕ };

    ghost view = { λ l. overlaid (S.Store.words l.below) l.entries };

    ghost invariant = { λ l. AllBelow (length (S.Store.words l.below)) l.entries };
}

#[tactic(auto, using(crate::proofs::Overlaid::layers))]
impl<S: Store> WriteBack<S> {
    pub fn new(below: S) -> WriteBack<S>
        ensures answer { result ≡ S.Store.words below }
    {
        WriteBack {
            below,
            entries: Entries::none(),
        }
    }

    // Sends every late word down and hands back the store below.
    pub fn settle(self) -> S
        ensures answer { S.Store.words result ≡ self }
    {
        let WriteBack { mut below, entries } = self;
        entries.send_down(&mut below);
        below
    }
}

#[tactic(auto, using(crate::proofs::Overlaid::layers))]
impl<S: Store> Store for WriteBack<S> {
    ghost words = { λ l. l };

    fn size(&self) -> usize {
        self.below.size()
    }

    // A late word's place is inside the store below, so neither a read of it nor sending it down is refused.
    fn read(&self, place: usize) -> Result<u32, StoreFault> {
        match self.entries.word(place) {
            Some(word) => Ok(word),
            None => self.below.read(place),
        }
    }

    fn write(&mut self, place: usize, word: u32) -> Result<(), StoreFault> {
        inside(place, self.below.size())?;
        match self.entries.keep(Late { place, word }) {
            Some(other) => self.below.write(other.place, other.word),
            None => Ok(()),
        }
    }
}
