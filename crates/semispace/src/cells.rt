// Words and cells in a store. Cells are numbered and not boxed: the store is lent, and there is no heap. What lies past the store's end reads as 0 and is not written.
// Bounds in private clauses are the definitions' own numbers, each of another argument: 4,096 cells a half, 2^31 cells in all.
ghost use Rattle.std.specs.Prelude.{◌≡◌, ◌+◌, ◌*◌, ◌≤◌, slice_index, slice_set};
ghost use Rattle.machine.specs.Words.{refer, refers_into, is_reference, cell_of, place_of, cell_at, put_cell};

use machine::side::Side;
use store::words::Store;

// The word of nil. Words are bare numbers, as the store has them and a copy takes them along.
pub const NIL: u32 = 0;

// The least word that refers to a cell.
const REFERENCE: u32 = 2147483648;

pub(crate) fn reference(cell: usize) -> u32
    requires { cell ≤ 16384 }
    ensures { result ≡ refer cell }
{
    REFERENCE + cell as u32
}

pub fn is_reference(word: u32) -> bool
    ensures { result ≡ is_reference word }
{
    word >= REFERENCE
}

pub(crate) fn cell_of(word: u32) -> usize
    ensures { result ≡ cell_of word }
{
    word.saturating_sub(REFERENCE) as usize
}

// Whether a word refers to one of `size` cells from `base` on.
pub(crate) fn refers_into(base: usize, size: usize, word: u32) -> bool
    requires { (base ≤ 4096) × (size ≤ 4096) }
    ensures { result ≡ refers_into base size word }
{
    word >= reference(base) && word < reference(base + size)
}

// Where a store has a word of the cell that a reference refers to.
pub fn place_of(side: Side, word: u32) -> usize
    ensures { result ≡ place_of side (cell_of word) }
{
    match side {
        Side::Head => 2 * cell_of(word),
        Side::Tail => 2 * cell_of(word) + 1,
    }
}

#[tactic(auto, using(std::proofs::lemmas::List::get_or_past))]
pub(crate) fn word_at<S: Store>(store: &S, place: usize) -> u32
    ensures { result ≡ slice_index (S.words store.now) place }
{
    store.read(place).unwrap_or(0)
}

pub fn put_word<S: Store>(store: &mut S, place: usize, word: u32)
    ensures { S.words store.new ≡ slice_set (S.words store.old) place word }
{
    let _ = store.write(place, word);
}

// A cell's two words travel as a pair, as in the definitions.
pub(crate) fn cell_at<S: Store>(store: &S, cell: usize) -> (u32, u32)
    requires { cell ≤ 2147483648 }
    ensures { result ≡ cell_at (S.words store.now) cell }
{
    (word_at(store, 2 * cell), word_at(store, 2 * cell + 1))
}

pub(crate) fn put_cell<S: Store>(store: &mut S, cell: usize, pair: (u32, u32))
    requires { cell ≤ 2147483648 }
    ensures { S.words store.new ≡ put_cell (S.words store.old) cell pair }
{
    put_word(store, 2 * cell, pair.0);
    put_word(store, 2 * cell + 1, pair.1);
}
