// The collector's steps in the two halves: a cell copied, a word moved, a cell scanned.
ghost use Rattle.std.specs.Prelude.{◌≡◌, ◌+◌, ◌*◌, ◌<◌, ◌≤◌, slice_set};
ghost use Rattle.machine.specs.Heap.{here, there, copy_cell, follow, move_cases, move, move_at, scan_cell, scan_over, scan, trade, with_words};
ghost use Rattle.machine.specs.Machine.{with_heap};
ghost use Rattle.machine.specs.Work.{FetchWork};
ghost use Rattle.semispace.specs.Formed.{FormedThrough};

use super::Semispace;
use crate::cells::{cell_at, cell_of, put_cell, put_word, reference, refers_into, word_at};
use crate::marks::Marks;
use store::words::Store;

impl<S: Store> Semispace<S> {
    // The first cell of the current half.
    pub(super) fn here(&self) -> usize
        ensures answer { result ≡ here self.now.heap }
        ensures small { result ≤ 4096 }
    {
        self.state.half.first(self.state.marks.size)
    }

    // The first cell of the other half.
    fn there(&self) -> usize
        ensures answer { result ≡ there self.now.heap }
        ensures small { result ≤ 4096 }
    {
        self.state.half.other().first(self.state.marks.size)
    }

    // An old cell's pair goes to the next free cell, and its old head refers there from now on.
    fn copy_cell(&mut self, old: usize) -> u32
        requires { old < 2147483648 }
        ensures answer { result ≡ (copy_cell self.old.heap old).value }
        ensures after { self.new ≡ with_heap self.old (copy_cell self.old.heap old).after }
    {
        let cell = self.here() + self.state.marks.copied;
        let pair = cell_at(&self.store, old);
        put_cell(&mut self.store, cell, pair);
        put_word(&mut self.store, 2 * old, reference(cell));
        self.state.marks = self.state.marks.copied_one();
        reference(cell)
    }

    // The cell that an old reference leads to: where it was forwarded, or where it is copied now.
    fn follow(&mut self, word: u32) -> u32
        ensures answer { result ≡ (follow self.old.heap word).value }
        ensures after { self.new ≡ with_heap self.old (follow self.old.heap word).after }
    {
        let old = cell_of(word);
        let head = word_at(&self.store, 2 * old);
        if refers_into(self.here(), self.state.marks.size, head) {
            head
        } else if self.state.marks.has_room() {
            self.copy_cell(old)
        } else {
            word
        }
    }

    // Follows a word that refers into the other half; any other stays.
    #[tactic(auto, using(crate::proofs::Moves::moves_by_cases))]
    pub(super) fn move_word(&mut self, word: u32) -> u32
        ensures answer { result ≡ (move self.old.heap word).value }
        ensures after { self.new ≡ with_heap self.old (move self.old.heap word).after }
    {
        if refers_into(self.there(), self.state.marks.size, word) {
            self.follow(word)
        } else {
            word
        }
    }

    // Moves the word at a place of the store, and writes it back there.
    pub fn move_at(&mut self, place: usize) -> u32
        ensures answer { result ≡ (move_at self.old.heap place).value }
        ensures after { self.new ≡ with_heap self.old (move_at self.old.heap place).after }
        ensures bounded { FetchWork self.old self.new }
        ensures formed { FormedThrough self.old self.new }
    {
        self.formed();
        let word = word_at(&self.store, place);
        let moved = self.move_word(word);
        put_word(&mut self.store, place, moved);
        self.formed();
        moved
    }

    pub fn put_word(&mut self, place: usize, word: u32)
        ensures after { self.new ≡ with_heap self.old (with_words self.old.heap (slice_set self.old.heap.words place word)) }
        ensures formed { FormedThrough self.old self.new }
    {
        self.formed();
        put_word(&mut self.store, place, word);
        self.formed();
    }

    // Moves the head, then the tail of the first cell not yet scanned.
    fn scan_cell(&mut self)
        ensures { self.new ≡ with_heap self.old (scan_cell self.old.heap) }
    {
        let cell = self.here() + self.state.marks.scanned;
        self.move_at(2 * cell);
        self.move_at(2 * cell + 1);
        self.state.marks = self.state.marks.scanned_one();
    }

    // Whether every copied cell was scanned.
    pub(super) fn scan_over(&self) -> bool
        ensures { result ≡ scan_over self.now.heap.marks }
    {
        self.state.marks.scan_over()
    }

    // Scans at most so many cells.
    pub(super) fn scan(&mut self, most: usize)
        ensures { self.new ≡ with_heap self.old (scan most self.old.heap) }
    {
        for _ in 0..most {
            if self.scan_over() {
                return;
            }
            self.scan_cell();
        }
    }

    // The halves trade places; how many cells were used is kept.
    pub(super) fn trade(&mut self)
        ensures { self.new ≡ with_heap self.old (trade self.old.heap) }
    {
        self.state.half = self.state.half.other();
        self.state.marks = Marks::empty(self.state.marks.size, self.state.marks.used());
    }
}
